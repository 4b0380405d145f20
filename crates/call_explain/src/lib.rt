// The call that explains which conjuncts of a frame can be indexed, and why the others cannot. (Ours: the Rust has none.)
#![tactic(auto)]

pub mod call;
