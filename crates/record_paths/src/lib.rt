// Records of kinds 5 and 6 (02, Q-3): definitions and laws, no code. `record_paths_check` checks them.
#![tactic(auto)]
