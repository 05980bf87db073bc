// Judging and bound of short rankings, kind 7: definitions and theorems, no code.
#![tactic(auto)]
