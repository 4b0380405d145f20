// Expressions of spatial functions: a port of rust/sedona-expr.
#![tactic(auto)]

pub mod utils;
