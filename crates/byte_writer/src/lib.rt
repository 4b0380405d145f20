// Writing bytes into lent buffers: numbers and copies, one after another. A writer is given a place and answers where it ended, since what
// stands before is part of what its caller has promised; one that writes to a start is given the part from there on.
#![tactic(auto)]

pub mod copies;
pub mod numbers;
