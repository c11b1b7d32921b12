// A chain that is split after its first index or later: whole and parts agree, and which refusals part them. Theorems, no code.

#![tactic(auto)]
