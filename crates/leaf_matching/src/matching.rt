// What matching a leaf answers.
use sedona_query_planner::spatial_predicate::SpatialPredicate;

// Its predicate, or why there is none.
pub type Matching = Result<SpatialPredicate, NoMatch>;

// It matches nothing, or it asks for no predicate of this kind.
#[derive(Clone, Copy, Debug, PartialEq, Eq)]
pub enum NoMatch {
    Unmatched,
    NotAsked,
}
