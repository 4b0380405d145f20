// The call that extracts all indexable conjuncts of a frame at once.
#![tactic(auto)]

pub mod call;
pub mod conjuncts;
pub mod listing;
