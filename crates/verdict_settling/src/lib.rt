// Judging and bound of certificates of kind 8, and every call by the kinds of its records: definitions and theorems, no code.
#![tactic(auto)]
