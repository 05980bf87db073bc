// Loops that settle first (02, Q-8): definitions and laws, no code.
#![tactic(auto)]
