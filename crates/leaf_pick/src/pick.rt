// The AND-leaf that is taken, in two passes: the first KNN match, else the first other match. No call asks it: it is the plain engine,
// which `engines-agree` is about and `oracle/engines` runs beside the one walk.
// A port of `extract_spatial_predicate` and `extract_knn_predicate_prioritized` of
// rust/sedona-query-planner/src/spatial_expr_utils.rs.
// A node is given by its place and its index.
ghost use Rattle.definitions.specs.Filter.Settings.{match_under};
ghost use Rattle.expression.specs.Nodes.{OfTree};
ghost use Rattle.leaf_matching.specs.Frames.{Framed, OfFrame};
ghost use Rattle.filter_tree.specs.Trees.{Noded};
ghost use Rattle.terms.specs.Settings.{settings_of};
ghost use Rattle.leaf_pick.specs.Picks.{FoundIs, PickedIs};

use super::first_match::{Found, Pass, Pick, Stop, Wanted, first_match};
use leaf_matching::filter::Filter;
use std::ops::ControlFlow;
use terms::settings::Settings;

// The first match that a pass is for, from the root on.
fn from_root(filter: Filter, at: usize, i: usize, pass: Pass) -> Found
    requires framed { Framed filter.tree.bytes.now filter.rec at }
    requires of_tree { OfTree filter.tree.bytes.now at (Noded filter.tree.nodes.now at i) }
    ensures { OfFrame filter.entry.tree.bytes.now filter.entry.rec at
        (FoundIs (match_under (settings_of pass.settings)) pass.wanted filter.entry.tree.bytes.now at 0 at result) }
{
    let root = Stop {
        at,
        index: i,
        position: 0,
    };
    first_match(filter, pass, root, at)
}

// The first KNN match.
fn extract_knn_predicate_prioritized(
    filter: Filter,
    at: usize,
    i: usize,
    settings: Settings,
) -> Found
    requires framed { Framed filter.tree.bytes.now filter.rec at }
    requires of_tree { OfTree filter.tree.bytes.now at (Noded filter.tree.nodes.now at i) }
    ensures { OfFrame filter.entry.tree.bytes.now filter.entry.rec at
        (FoundIs (match_under (settings_of settings)) Wanted.Knn filter.entry.tree.bytes.now at 0 at result) }
{
    let wanted = Wanted::Knn;
    from_root(filter, at, i, Pass { wanted, settings })
}

// A first pass for KNN, which cannot be a filter, and another for the rest.
pub fn extract_spatial_predicate(
    filter: Filter,
    at: usize,
    i: usize,
    settings: Settings,
) -> Option<Pick>
    requires framed { Framed filter.tree.bytes.now filter.rec at }
    requires of_tree { OfTree filter.tree.bytes.now at (Noded filter.tree.nodes.now at i) }
    ensures { OfFrame filter.entry.tree.bytes.now filter.entry.rec at
        (PickedIs (match_under (settings_of settings)) filter.entry.tree.bytes.now at result) }
{
    if let ControlFlow::Break(pick) = extract_knn_predicate_prioritized(filter, at, i, settings) {
        return Some(pick);
    }
    let wanted = Wanted::Other;
    from_root(filter, at, i, Pass { wanted, settings }).break_value()
}
