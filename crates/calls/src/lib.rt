#![tactic(auto)]

// The demands as theorems about any sequence of calls of the public functions. There is no code here; see specs/ and proofs/, and docs/THEOREMS.md.
