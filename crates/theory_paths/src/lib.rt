// Loops that choose between paths (02, Q-3): definitions and laws, no code.
#![tactic(auto)]
