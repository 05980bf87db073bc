// The lines of a sheet: definitions and their laws only. `sheet_write_lines` puts them into a room.
#![tactic(auto)]
