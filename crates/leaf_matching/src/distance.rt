// Distance predicates.
// A port of `match_distance_predicate` of
// rust/sedona-query-planner/src/spatial_expr_utils.rs.
ghost use Rattle.std.specs.Prelude.{◌≡◌};
ghost use Rattle.expression.specs.Nodes.{OfTree};
ghost use Rattle.filter_tree.specs.Trees.{Noded};
ghost use Rattle.leaf_matching.specs.Frames.{Framed, OfFrame};
ghost use Rattle.leaf_matching.specs.Matches.{is_distance, LeafMatching};
ghost use Rattle.leaf_matching.specs.Distances.{distance_side};

use super::filter::Filter;
use super::matching::{Matching, NoMatch};
use super::sides::{Order, Sides, resolve_column_reference_sides, side_of_column_references};
use sedona_expr::utils::parse_distance_predicate;
use sedona_query_planner::spatial_predicate::{DistancePredicate, SpatialPredicate};
use terms::sides::JoinSide;

// The side of a distance, unless its columns differ or are mark columns. Without columns it is none. With mark columns alone the
// Rust has none too, and copies their numbers in the filter.
fn side_of_distance(of: Sides) -> Option<JoinSide>
    ensures { result ≡ distance_side of }
{
    match of {
        Sides::NoColumns => Some(JoinSide::None),
        Sides::AllOn(JoinSide::None) => None,
        Sides::AllOn(side) => Some(side),
        Sides::Mixed => None,
    }
}

// The left geometry is stored first; the distance needs a defined side. The leaf at a place has index i.
#[inline]
pub fn match_distance_predicate(filter: Filter, at: usize, i: usize) -> Matching
    requires framed { Framed filter.tree.bytes.now filter.rec at }
    requires of_tree { OfTree filter.tree.bytes.now at (Noded filter.tree.nodes.now at i) }
    ensures { OfFrame filter.entry.tree.bytes.now filter.entry.rec at
        (LeafMatching is_distance filter.entry.tree.bytes.now result) }
{
    let tree = filter.tree;
    let parsed = parse_distance_predicate(tree, at, i).ok_or(NoMatch::NotAsked)?;
    let distance = side_of_column_references(filter, parsed.distance);
    let arg0 = side_of_column_references(filter, parsed.arg0);
    let arg1 = side_of_column_references(filter, parsed.arg1);
    let distance_side = side_of_distance(distance).ok_or(NoMatch::Unmatched)?;
    let order = resolve_column_reference_sides(arg0, arg1).ok_or(NoMatch::Unmatched)?;
    let (left, right) = match order {
        Order::LeftRight => (parsed.arg0, parsed.arg1),
        Order::RightLeft => (parsed.arg1, parsed.arg0),
    };
    Ok(SpatialPredicate::Distance(DistancePredicate {
        left: tree.start(left),
        left_end: tree.end(left),
        right: tree.start(right),
        right_end: tree.end(right),
        distance: tree.start(parsed.distance),
        distance_end: tree.end(parsed.distance),
        distance_side,
        form: u8::from(parsed.form),
    }))
}
