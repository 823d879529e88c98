#![tactic(auto)]

// Demands 2 and 3 as theorems about the definitions of `paper`. There is no code here; see specs/ and proofs/, and docs/THEOREMS.md.
