// Reader, layouts and chains together: statements and theorems, no code of its own.

#![tactic(auto)]
