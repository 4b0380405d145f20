// The call project: of a held extraction, by the lists of both children.
#![tactic(auto)]

pub mod by_row;
pub mod call;
