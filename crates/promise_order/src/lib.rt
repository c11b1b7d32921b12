// Where several refusals are due, which one comes: laws of order of layouts and of every question. Theorems, no code.

#![tactic(auto)]
