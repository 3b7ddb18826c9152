// The lines of the program `test_vectors`: a case taken apart, and buffers printed.
#![tactic(auto)]

pub mod cases;
pub mod lists;
