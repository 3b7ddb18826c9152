// The theorem of demand 3 stands in proofs/; this crate has no functions.
#![tactic(auto)]
