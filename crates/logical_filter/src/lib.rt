// The logical half of rust/sedona-query-planner/src/spatial_expr_utils.rs: spatial names, KNN query side, and the call logical.
#![tactic(auto)]

pub mod call;
pub mod knn_query_side;
pub mod predicate_names;
