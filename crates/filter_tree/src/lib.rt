// The tree that the records of a filter's nodes are.
#![tactic(auto)]

pub mod depth;
pub mod lengths;
pub mod spine;
pub mod tree;
