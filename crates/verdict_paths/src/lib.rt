// Judging loops of several paths, and every loop by its kind: definitions and theorems, no code.
#![tactic(auto)]
