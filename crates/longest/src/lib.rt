// How long an answer line can be: statements and theorems, no code of its own.

#![tactic(auto)]
