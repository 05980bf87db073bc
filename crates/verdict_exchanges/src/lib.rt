// What judging answers when two numbers of a record stand in each other's place: definitions, a table and its theorem only.
#![tactic(auto)]
