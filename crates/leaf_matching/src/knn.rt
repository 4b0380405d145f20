// KNN predicates.
// A port of `match_knn_predicate` of
// rust/sedona-query-planner/src/spatial_expr_utils.rs.
ghost use Rattle.std.specs.Prelude.{◌≤◌};
ghost use Rattle.definitions.specs.Filter.Extract.{is_knn};
ghost use Rattle.expression.specs.Nodes.{Trees, OfTrees};
ghost use Rattle.expression.specs.Leaves.{OfCall};
ghost use Rattle.filter_tree.specs.Trees.{NodedAll};
ghost use Rattle.leaf_matching.specs.Frames.{CallFramed, OfCallFrame};
ghost use Rattle.leaf_matching.specs.Matches.{CallMatchingBy};
ghost use Rattle.leaf_matching.specs.KnnOptions.{FlagsAre, OptionsAre};

use super::filter::Filter;
use super::literal_arguments::{extract_literal_bool, extract_literal_k};
use super::matching::{Matching, NoMatch};
use super::sides::{Order, resolve_geometries};
use expression::leaves::Called;
use expression::names::same_name;
use sedona_query_planner::spatial_predicate::{KNNPredicate, SpatialPredicate};
use terms::sides::JoinSide;

// The flags after k: whether distances are spheroidal, and ties.
#[derive(Clone, Copy)]
pub struct KnnFlags {
    pub use_spheroid: bool,
    pub include_tie_breakers: Option<bool>,
}

#[derive(Clone, Copy)]
pub struct KnnOptions {
    pub k: u32,
    pub flags: KnnFlags,
}

// At most two Boolean literals: false if the first is missing, absent if the second is.
fn knn_flags(s: &[u8], at: usize, n: usize) -> Option<KnnFlags>
    requires { Trees s.now at n }
    ensures { OfTrees s.now at n (FlagsAre result) }
{
    if n == 0 {
        return Some(KnnFlags {
            use_spheroid: false,
            include_tie_breakers: None,
        });
    }
    let use_spheroid = extract_literal_bool(s, at)?;
    if n == 1 {
        return Some(KnnFlags {
            use_spheroid,
            include_tie_breakers: None,
        });
    }
    let ties = extract_literal_bool(s, at + 10)?;
    Some(KnnFlags {
        use_spheroid,
        include_tie_breakers: Some(ties),
    })
}

// What follows the two geometries; k is the default if it is missing.
fn knn_options(s: &[u8], at: usize, n: usize, default_k: u32) -> Option<KnnOptions>
    requires trees { Trees s.now at n }
    requires n_bound { n ≤ 3 }
    ensures { OfTrees s.now at n (OptionsAre default_k result) }
{
    if n == 0 {
        return Some(KnnOptions {
            k: default_k,
            flags: KnnFlags {
                use_spheroid: false,
                include_tie_breakers: None,
            },
        });
    }
    let k = extract_literal_k(s, at)?;
    let flags = knn_flags(s, at + 10, n - 1)?;
    Some(KnnOptions { k, flags })
}

// The first argument has index i.
pub fn match_knn_predicate(filter: Filter, called: Called, i: usize, default_k: u32) -> Matching
    requires call_framed { CallFramed filter.tree.bytes.now filter.rec called }
    requires of_call { OfCall filter.tree.bytes.now called (λ c name. NodedAll filter.tree.nodes.now called.first i) }
    ensures { OfCallFrame filter.entry.tree.bytes.now filter.entry.rec called
        (CallMatchingBy default_k is_knn filter.entry.tree.bytes.now result) }
{
    if !same_name(called.name(filter.tree.bytes), b"st_knn") {
        return Err(NoMatch::NotAsked);
    }
    if called.count < 2 || 5 < called.count {
        return Err(NoMatch::NotAsked);
    }
    let geometries = resolve_geometries(filter, i);
    let given = knn_options(
        filter.tree.bytes,
        geometries.end,
        called.count - 2,
        default_k,
    );
    let options = given.ok_or(NoMatch::Unmatched)?;
    let order = geometries.order.ok_or(NoMatch::Unmatched)?;
    let probe_side = match order {
        Order::LeftRight => JoinSide::Left,
        Order::RightLeft => JoinSide::Right,
    };
    Ok(SpatialPredicate::KNearestNeighbors(KNNPredicate {
        left: called.first,
        left_end: geometries.second,
        right: geometries.second,
        right_end: geometries.end,
        k: options.k,
        use_spheroid: options.flags.use_spheroid,
        probe_side,
        include_tie_breakers: options.flags.include_tie_breakers,
    }))
}
