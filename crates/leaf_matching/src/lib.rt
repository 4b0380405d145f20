// Which AND-leaves match, and as what: sides of arguments, literal arguments, and the three matchers of
// rust/sedona-query-planner/src/spatial_expr_utils.rs.
#![tactic(auto)]

pub mod allowing;
pub mod distance;
pub mod filter;
pub mod knn;
pub mod literal_arguments;
pub mod matching;
pub mod relation;
pub mod sides;
