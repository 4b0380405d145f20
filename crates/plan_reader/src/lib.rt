// Reading held plans: a frame, or an extraction with its predicate and remainder; all else is no good plan.
#![tactic(auto)]

pub mod extraction_bodies;
pub mod held_plans;
pub mod held_predicates;
pub mod knn_fields;
