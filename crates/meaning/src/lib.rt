// The definitions that every contract cites stand in specs/; this crate has no functions.
#![tactic(auto)]
