// The theorem on plate files stands in specs/ and proofs/; this crate has no functions.
#![tactic(auto)]
