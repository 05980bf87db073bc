// Short rankings (02, Q-6): definitions and laws, no code.
#![tactic(auto)]
