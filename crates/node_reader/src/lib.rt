// Reading expressions, with every refusal: fields, heads of nodes, the walk over a node and the walk over its children, and what is done
// with the nodes that they read.
#![tactic(auto)]

pub mod call_heads;
pub mod expressions;
pub mod field_readers;
pub mod head_readers;
pub mod names;
pub mod visitors;
pub mod visits;
pub mod walk;
