// Spatial predicates: a port of rust/sedona-query-planner/src/spatial_predicate.rs. The other file carried over from there,
// spatial_expr_utils.rs, is the crates `leaf_matching` and `leaf_pick` (its physical half), `remainder` and `plan_writer` (what it
// writes), and `logical_filter` (its logical half).
#![tactic(auto)]

pub mod spatial_predicate;
