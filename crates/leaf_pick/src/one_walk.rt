// One walk over the AND-leaves: it remembers the first match that is not KNN and stops at a KNN match. The And above the leaf that is
// taken is looked for afterwards.
ghost use Rattle.std.specs.Prelude.{◌≡◌};
ghost use Rattle.definitions.specs.Filter.Settings.{match_under};
ghost use Rattle.expression.specs.Nodes.{OfTree};
ghost use Rattle.leaf_matching.specs.Frames.{Framed, OfFrame, Argued, OfArgument};
ghost use Rattle.filter_tree.specs.Trees.{Noded};
ghost use Rattle.terms.specs.Settings.{settings_of};
ghost use Rattle.definitions.specs.Filter.Extract.{is_knn};
ghost use Rattle.leaf_matching.specs.Matches.{Lacks};
ghost use Rattle.leaf_pick.specs.Picks.{LeafThere};
ghost use Rattle.leaf_pick.specs.Walks.{PassedIs, NoKnnIs, seen_here, ReadIs, WalkIs, WalkedIs};

use super::first_match::{Leaf, Pick, Stop, match_knn, match_other};
use expression::cuts::Cut;
use expression::leaves::{Called, Node, node_at};
use filter_tree::spine::Spine;
use leaf_matching::filter::Filter;
use leaf_matching::matching::NoMatch;
use sedona_query_planner::spatial_predicate::SpatialPredicate;
use std::ops::ControlFlow;
use terms::settings::Settings;

// An AND-leaf that matches: its predicate, its position among the AND-leaves, and its index. No `Pick` yet: where it is cut out is looked
// for only once the walk has ended.
#[derive(Clone, Copy)]
pub struct SeenLeaf {
    pub predicate: SpatialPredicate,
    pub position: usize,
    pub index: usize,
}

// What a leaf makes of what is remembered: a KNN match stops the walk.
pub type Read = ControlFlow<SeenLeaf, Option<SeenLeaf>>;

// A walk: what it has found, a match or nothing yet, and how many And nodes and AND-leaves it has read.
#[derive(Clone, Copy)]
pub struct Walk<T> {
    pub found: Option<T>,
    pub read: usize,
}

// How many bytes the name of a function has, if it can match: 6 of KNN, 9 to 13 of relations, 10 of a distance.
#[inline]
fn is_passed_call(called: Called) -> bool
    ensures { PassedIs (Node.Call called) result }
{
    let n = called.end.saturating_sub(called.name);
    n != 6 && (n < 9 || 13 < n)
}

// Whether the node alone tells that a leaf matches nothing: only the first four operators can match, and functions with a name as long as
// one of those that do. So most leaves are passed without a call of a matcher.
#[inline]
pub(crate) fn is_passed(node: Node) -> bool
    ensures { PassedIs node result }
{
    match node {
        Node::And(_) => false,
        Node::Binary(operator, _) => 4 < operator,
        Node::Call(called) => is_passed_call(called),
        Node::Plain(_) => true,
    }
}

// A leaf with its match, as it is remembered.
#[inline]
fn seen_here(leaf: Leaf, predicate: SpatialPredicate) -> SeenLeaf
    ensures { result ≡ seen_here leaf predicate }
{
    SeenLeaf {
        predicate,
        position: leaf.stop.position,
        index: leaf.stop.index,
    }
}

// Whether the node alone tells that a leaf is no KNN match: only functions with a name as long as `st_knn` can be one.
#[inline]
pub(crate) fn is_no_knn(node: Node) -> bool
    ensures { NoKnnIs node result }
{
    let Node::Call(called) = node else {
        return true;
    };
    called.end.saturating_sub(called.name) != 6
}

// What a leaf that is no KNN match makes of what is remembered: it is remembered if it is the first other match.
#[inline]
fn read_other(filter: Filter, leaf: Leaf, memory: Option<SeenLeaf>, settings: Settings) -> Read
    requires leaf_there { LeafThere filter.tree.bytes.now filter.tree.nodes.now filter.rec leaf }
    requires no_knn { OfFrame filter.tree.bytes.now filter.rec leaf.stop.at
        (λ records t. Lacks is_knn (match_under (settings_of settings) records t)) }
    ensures { OfFrame filter.entry.tree.bytes.now filter.entry.rec leaf.stop.at
        (ReadIs (match_under (settings_of settings)) filter.entry.tree.bytes.now leaf memory result) }
{
    if let Some(known) = memory {
        return ControlFlow::Continue(Some(known));
    }
    match match_other(filter, leaf, settings) {
        Ok(predicate) => ControlFlow::Continue(Some(seen_here(leaf, predicate))),
        Err(_) => ControlFlow::Continue(memory),
    }
}

// A KNN match stops the walk, another is remembered if it is the first.
#[inline]
pub fn read_leaf(filter: Filter, leaf: Leaf, memory: Option<SeenLeaf>, settings: Settings) -> Read
    requires { LeafThere filter.tree.bytes.now filter.tree.nodes.now filter.rec leaf }
    ensures { OfFrame filter.entry.tree.bytes.now filter.entry.rec leaf.stop.at
        (ReadIs (match_under (settings_of settings)) filter.entry.tree.bytes.now leaf memory result) }
{
    if is_passed(leaf.node) {
        return ControlFlow::Continue(memory);
    }
    if is_no_knn(leaf.node) {
        return read_other(filter, leaf, memory, settings);
    }
    match match_knn(filter, leaf, settings) {
        Ok(predicate) => ControlFlow::Break(seen_here(leaf, predicate)),
        Err(NoMatch::Unmatched) => ControlFlow::Continue(memory),
        Err(NoMatch::NotAsked) => read_other(filter, leaf, memory, settings),
    }
}

// The walk from the root to the first KNN match or to the end.
pub fn walk_once(filter: Filter, settings: Settings) -> Walk<SeenLeaf>
    requires { Argued filter.tree.bytes.now filter.rec filter.tree.nodes.now 0 }
    ensures { OfArgument filter.entry.tree.bytes.now filter.entry.rec filter.entry.tree.nodes.now 0
        (WalkIs (match_under (settings_of settings)) filter.entry.tree.bytes.now result) }
{
    let tree = filter.tree;
    let mut position = 0;
    let mut walk = Walk {
        found: None,
        read: 0,
    };
    for index in Spine::of(tree, 0) {
        walk.read += 1;
        let at = tree.start(index);
        let node = node_at(tree.bytes, at);
        if let Node::And(_) = node {
            continue;
        }
        let stop = Stop {
            at,
            index,
            position,
        };
        match read_leaf(filter, Leaf { stop, node }, walk.found, settings) {
            ControlFlow::Break(seen) => {
                walk.found = Some(seen);
                return walk;
            }
            ControlFlow::Continue(memory) => walk.found = memory,
        }
        position += 1;
    }
    walk
}

// The first KNN match, else the first other match, by one walk over an expression whose root has index 0.
pub fn extract_in_one_walk(filter: Filter, at: usize, settings: Settings) -> Walk<Pick>
    requires framed { Framed filter.tree.bytes.now filter.rec at }
    requires of_tree { OfTree filter.tree.bytes.now at (Noded filter.tree.nodes.now at 0) }
    ensures { OfFrame filter.entry.tree.bytes.now filter.entry.rec at
        (WalkedIs (match_under (settings_of settings)) filter.entry.tree.bytes.now at result) }
{
    let tree = filter.tree;
    let walk = walk_once(filter, settings);
    let Some(seen) = walk.found else {
        return Walk {
            found: None,
            read: walk.read,
        };
    };
    let cut = Cut {
        leaf: tree.start(seen.index),
        end: tree.end(seen.index),
        parent: tree.start(tree.parent_of(seen.index)),
    };
    Walk {
        found: Some(Pick {
            predicate: seen.predicate,
            position: seen.position,
            cut,
        }),
        read: walk.read,
    }
}
