// The laws of flooding stand in proofs/, and the contracts of its functions in specs/; this crate has no functions.
#![tactic(auto)]
