// Bytes that hold an expression: heads of nodes, where they end, the AND-leaves, names and literals.
#![tactic(auto)]

pub mod cuts;
pub mod ends;
pub mod fields;
pub mod heads;
pub mod kinds;
pub mod leaves;
pub mod literals;
pub mod names;
