// What D lines come to in a table is what layouts ask of them: a theorem only, in specs/ and proofs/.

#![tactic(auto)]
