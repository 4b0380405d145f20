// The walk over the AND-leaves up to the first that matches as wanted.
ghost use Rattle.std.specs.Prelude.{◌≤◌, ◌≡◌, [], ◌∷◌};
ghost use Rattle.definitions.specs.Words.Leaves.{leaves};
ghost use Rattle.definitions.specs.Filter.Extract.{is_knn};
ghost use Rattle.definitions.specs.Filter.Settings.{match_under};
ghost use Rattle.expression.specs.Nodes.{OfTree};
ghost use Rattle.leaf_matching.specs.Frames.{Framed, OfFrame};
ghost use Rattle.filter_tree.specs.Trees.{Noded};
ghost use Rattle.leaf_matching.specs.Matches.{LeafMatching};
ghost use Rattle.terms.specs.Settings.{settings_of};
ghost use Rattle.leaf_pick.specs.Picks.{is_other, wants, LeafThere, LeafMatched, FoundIs, FoundOrPassed};

use expression::cuts::Cut;
use expression::leaves::{Node, node_at};
use leaf_matching::allowing::only_allowed;
use leaf_matching::distance::match_distance_predicate;
use leaf_matching::filter::Filter;
use leaf_matching::knn::match_knn_predicate;
use leaf_matching::matching::{Matching, NoMatch};
use leaf_matching::relation::match_relation_predicate;
use sedona_query_planner::spatial_predicate::SpatialPredicate;
use std::ops::ControlFlow;
use terms::settings::Settings;

// Which matches a pass over the AND-leaves is for: KNN, or relations and distances. The claims about a pass are of this, so that a closure
// that matches would still need it beside itself.
#[derive(Clone, Copy)]
pub enum Wanted {
    Knn,
    Other,
}

// A pass over the AND-leaves, under settings.
#[derive(Clone, Copy)]
pub struct Pass {
    pub wanted: Wanted,
    pub settings: Settings,
}

// An AND-leaf that is taken: its predicate, its position among the AND-leaves, and where it is cut out; the root counts as its
// own parent.
#[derive(Clone, Copy)]
pub struct Pick {
    pub predicate: SpatialPredicate,
    pub position: usize,
    pub cut: Cut,
}

// What a pass found below a node; if nothing, how many AND-leaves there are up to its end.
pub type Found = ControlFlow<Pick, usize>;

// A node that a walk comes to: where it stands, its index, and how many AND-leaves are before it.
#[derive(Clone, Copy)]
pub struct Stop {
    pub at: usize,
    pub index: usize,
    pub position: usize,
}

// An AND-leaf that a walk comes to, and what it is. That it is there is a `requires` of each function: a ghost field of that was refused,
// since the fact holds a frame and so has more than one proof.
#[derive(Clone, Copy)]
pub struct Leaf {
    pub stop: Stop,
    pub node: Node,
}

// A leaf as KNN, which only a function is.
#[inline]
pub fn match_knn(filter: Filter, leaf: Leaf, settings: Settings) -> Matching
    requires { LeafThere filter.tree.bytes.now filter.tree.nodes.now filter.rec leaf }
    ensures { OfFrame filter.entry.tree.bytes.now filter.entry.rec leaf.stop.at
        (LeafMatched (match_under (settings_of settings)) is_knn filter.entry.tree.bytes.now result) }
{
    let Node::Call(called) = leaf.node else {
        return Err(NoMatch::NotAsked);
    };
    let matching = match_knn_predicate(filter, called, leaf.stop.index + 1, settings.default_k);
    only_allowed(settings, matching)
}

// A leaf as a relation, else as a distance, whatever the settings.
#[inline]
fn match_relation_or_distance(filter: Filter, leaf: Leaf) -> Matching
    requires { LeafThere filter.tree.bytes.now filter.tree.nodes.now filter.rec leaf }
    ensures { OfFrame filter.entry.tree.bytes.now filter.entry.rec leaf.stop.at
        (LeafMatching is_other filter.entry.tree.bytes.now result) }
{
    let Node::Call(called) = leaf.node else {
        return match_distance_predicate(filter, leaf.stop.at, leaf.stop.index);
    };
    match match_relation_predicate(filter, called, leaf.stop.index + 1) {
        Err(NoMatch::NotAsked) => match_distance_predicate(filter, leaf.stop.at, leaf.stop.index),
        asked => asked,
    }
}

// What the settings leave of it.
#[inline]
pub fn match_other(filter: Filter, leaf: Leaf, settings: Settings) -> Matching
    requires { LeafThere filter.tree.bytes.now filter.tree.nodes.now filter.rec leaf }
    ensures { OfFrame filter.entry.tree.bytes.now filter.entry.rec leaf.stop.at
        (LeafMatched (match_under (settings_of settings)) is_other filter.entry.tree.bytes.now result) }
{
    only_allowed(settings, match_relation_or_distance(filter, leaf))
}

// A leaf as what the pass looks for.
pub fn match_wanted(filter: Filter, leaf: Leaf, pass: Pass) -> Matching
    requires { LeafThere filter.tree.bytes.now filter.tree.nodes.now filter.rec leaf }
    ensures { OfFrame filter.entry.tree.bytes.now filter.entry.rec leaf.stop.at
        (LeafMatched (match_under (settings_of pass.settings)) (wants pass.wanted) filter.entry.tree.bytes.now result) }
{
    match pass.wanted {
        Wanted::Knn => match_knn(filter, leaf, pass.settings),
        Wanted::Other => match_other(filter, leaf, pass.settings),
    }
}

// What a leaf is to a pass.
pub fn leaf_match(filter: Filter, leaf: Leaf, pass: Pass, parent: usize) -> Found
    requires leaf_there { LeafThere filter.tree.bytes.now filter.tree.nodes.now filter.rec leaf }
    requires of_frame { OfFrame filter.tree.bytes.now filter.rec leaf.stop.at (λ records t. leaves t ≡ t ∷ []) }
    requires position_le_at { leaf.stop.position ≤ leaf.stop.at }
    ensures { OfFrame filter.entry.tree.bytes.now filter.entry.rec leaf.stop.at
        (FoundIs (match_under (settings_of pass.settings)) pass.wanted filter.entry.tree.bytes.now
        leaf.stop.at leaf.stop.position parent result) }
{
    match match_wanted(filter, leaf, pass) {
        Ok(predicate) => ControlFlow::Break(Pick {
            predicate,
            position: leaf.stop.position,
            cut: Cut {
                leaf: leaf.stop.at,
                end: filter.tree.end(leaf.stop.index),
                parent,
            },
        }),
        Err(_) => ControlFlow::Continue(leaf.stop.position + 1),
    }
}

// What was passed below a node where nothing was found: how many AND-leaves there are up to its end, and the index after it.
#[derive(Clone, Copy)]
struct Passed {
    position: usize,
    after: usize,
}

// The first match that is wanted below a node; `parent` is where the And above it stands. Where there is none it says where the node
// ends, so that no record is passed twice. A turn goes from an And to its right side: no range has those, and a call for each would take
// its room on the stack.
fn match_or_pass(filter: Filter, pass: Pass, from: Stop, parent: usize) -> ControlFlow<Pick, Passed>
    requires framed { Framed filter.tree.bytes.now filter.rec from.at }
    requires of_tree { OfTree filter.tree.bytes.now from.at (Noded filter.tree.nodes.now from.at from.index) }
    requires position_le_at { from.position ≤ from.at }
    ensures { OfFrame filter.entry.tree.bytes.now filter.entry.rec from.at
        (FoundOrPassed (match_under (settings_of pass.settings)) pass.wanted filter.entry.tree.bytes.now
        from parent result) }
{
    let mut stop = from;
    let mut above = parent;
    loop {
        let node = node_at(filter.tree.bytes, stop.at);
        let Node::And(left) = node else {
            let position = leaf_match(filter, Leaf { stop, node }, pass, above)?;
            let after = filter.tree.after(stop.index);
            return ControlFlow::Continue(Passed { position, after });
        };
        above = stop.at;
        let below = stop.index + 1;
        let first = Stop {
            at: left,
            index: below,
            position: stop.position,
        };
        let passed = match_or_pass(filter, pass, first, above)?;
        stop = Stop {
            at: filter.tree.end(below),
            index: passed.after,
            position: passed.position,
        };
    }
}

// The first match that is wanted below a node, or how many AND-leaves there are up to its end.
pub fn first_match(filter: Filter, pass: Pass, from: Stop, parent: usize) -> Found
    requires framed { Framed filter.tree.bytes.now filter.rec from.at }
    requires of_tree { OfTree filter.tree.bytes.now from.at (Noded filter.tree.nodes.now from.at from.index) }
    requires position_le_at { from.position ≤ from.at }
    ensures { OfFrame filter.entry.tree.bytes.now filter.entry.rec from.at
        (FoundIs (match_under (settings_of pass.settings)) pass.wanted filter.entry.tree.bytes.now
        from.at from.position parent result) }
{
    let passed = match_or_pass(filter, pass, from, parent)?;
    ControlFlow::Continue(passed.position)
}
