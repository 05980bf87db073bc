// The text of a sheet as a function of its input, and how long it can be: definitions and theorems only. `sheet_put` puts it into a room.
#![tactic(auto)]
