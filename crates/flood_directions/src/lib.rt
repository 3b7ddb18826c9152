// Directions: the laws stand in proofs/; this crate has no functions.
#![tactic(auto)]
