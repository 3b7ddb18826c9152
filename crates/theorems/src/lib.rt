// The theorems stand in specs/Theorems.antt, with their proofs in proofs/; this crate has no functions.
#![tactic(auto)]
