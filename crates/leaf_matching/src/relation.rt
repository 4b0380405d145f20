// Relation predicates.
// A port of `match_relation_predicate` of
// rust/sedona-query-planner/src/spatial_expr_utils.rs.
ghost use Rattle.expression.specs.Leaves.{OfCall};
ghost use Rattle.filter_tree.specs.Trees.{NodedAll};
ghost use Rattle.leaf_matching.specs.Frames.{CallFramed, OfCallFrame};
ghost use Rattle.leaf_matching.specs.Matches.{is_relation, CallMatching};

use super::filter::Filter;
use super::matching::{Matching, NoMatch};
use super::sides::{Order, resolve_geometries};
use expression::leaves::Called;
use sedona_query_planner::spatial_predicate::{
    RelationPredicate, SpatialPredicate, SpatialRelationType,
};

// The left geometry is stored first, the type inverted where that exchanges the arguments.
// The first argument has index i.
pub fn match_relation_predicate(filter: Filter, called: Called, i: usize) -> Matching
    requires call_framed { CallFramed filter.tree.bytes.now filter.rec called }
    requires of_call { OfCall filter.tree.bytes.now called (λ c name. NodedAll filter.tree.nodes.now called.first i) }
    ensures { OfCallFrame filter.entry.tree.bytes.now filter.entry.rec called
        (CallMatching is_relation filter.entry.tree.bytes.now result) }
{
    let named = SpatialRelationType::from_name(called.name(filter.tree.bytes));
    let relation_type = named.ok_or(NoMatch::NotAsked)?;
    if called.count < 2 {
        return Err(NoMatch::NotAsked);
    }
    let geometries = resolve_geometries(filter, i);
    let order = geometries.order.ok_or(NoMatch::Unmatched)?;
    Ok(SpatialPredicate::Relation(match order {
        Order::LeftRight => RelationPredicate {
            left: called.first,
            left_end: geometries.second,
            right: geometries.second,
            right_end: geometries.end,
            relation_type,
        },
        Order::RightLeft => RelationPredicate {
            left: geometries.second,
            left_end: geometries.end,
            right: called.first,
            right_end: geometries.second,
            relation_type: relation_type.invert(),
        },
    }))
}
