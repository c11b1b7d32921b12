// What the tables of a sheet answer, and what the sheet does: statements and theorems, no code of its own.

#![tactic(auto)]
