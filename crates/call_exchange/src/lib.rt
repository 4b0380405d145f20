// The call exchange: of a frame, of a predicate, and of what is held.
#![tactic(auto)]

pub mod call;
pub mod exchanged_frames;
pub mod exchanged_plans;
pub mod exchanged_predicates;
