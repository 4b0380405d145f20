// Which conjunct is taken: the pick of rust/sedona-query-planner/src/spatial_expr_utils.rs, in two passes and by one walk.
#![tactic(auto)]

pub mod any_match;
pub mod first_match;
pub mod one_walk;
pub mod pick;
