// The mathematics of loops and certificates, over lists of rows: definitions and theorems only.
#![tactic(auto)]
