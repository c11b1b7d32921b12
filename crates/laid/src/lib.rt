// The layouts of a table's rows are those of its declarations: theorems only, in proofs/.

#![tactic(auto)]
