// The call extract: of a held frame by the records of its nodes, those of a lent table or of a row of its own.
#![tactic(auto)]

pub mod by_table;
pub mod call;
mod extraction;
pub mod held_frame;
