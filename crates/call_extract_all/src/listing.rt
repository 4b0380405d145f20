// The walk over all AND-leaves: KNN predicates into one buffer, the others into another, a flag for each leaf.
ghost use Rattle.std.specs.Prelude.{◌≡◌, [], ◌∷◌};
ghost use Rattle.definitions.specs.Words.Leaves.{leaves};
ghost use Rattle.definitions.specs.Filter.Settings.{match_under};
ghost use Rattle.terms.specs.Settings.{settings_of};
ghost use Rattle.expression.specs.Nodes.{OfTree, OfTreeIn};
ghost use Rattle.expression.specs.Leaves.{NodeIs};
ghost use Rattle.filter_tree.specs.Trees.{Noded};
ghost use Rattle.call_extract_all.specs.Listings.{ListFits, ListPut};

use expression::leaves::{Node, node_at};
use filter_tree::spine::Spine;
use leaf_matching::filter::Filter;
use leaf_pick::any_match::match_leaf;
use leaf_pick::first_match::{Leaf, Stop};
use plan_writer::put_predicate::put_predicate;
use sedona_query_planner::spatial_predicate::SpatialPredicate;
use terms::settings::Settings;

// A frame's filter with the number of its records, their child indexes as a table, and the settings that it is listed under.
#[derive(Clone, Copy)]
pub struct Listing<'a> {
    pub filter: Filter<'a>,
    pub count: usize,
    pub to: &'a [u16],
    pub settings: Settings,
}

// How many AND-leaves there are up to the end of a node, how many bytes were written of KNN and of other matches, how many matches.
#[derive(Clone, Copy)]
pub struct Tally {
    pub position: usize,
    pub knn: usize,
    pub other: usize,
    pub rounds: usize,
}

// A node that is no And.
fn list_leaf(
    knns: &mut [u8],
    others: &mut [u8],
    gone: &mut [u8],
    listing: Listing,
    leaf: Leaf,
) -> Tally
    requires list_fits { ListFits (match_under (settings_of listing.settings))
        listing.filter.tree.bytes.now listing.filter.rec listing.count
        leaf.stop.at leaf.stop.position listing.to.now knns.old others.old gone.old }
    requires of_tree { OfTree listing.filter.tree.bytes.now leaf.stop.at
        (Noded listing.filter.tree.nodes.now leaf.stop.at leaf.stop.index) }
    requires of_tree_in { OfTreeIn listing.filter.tree.bytes.now leaf.stop.at
        (λ c t. NodeIs c listing.filter.tree.bytes.now leaf.stop.at leaf.node t) }
    requires leaf_alone { OfTree listing.filter.tree.bytes.now leaf.stop.at
        (λ t. leaves t ≡ t ∷ []) }
    ensures { ListPut (match_under (settings_of listing.entry.settings))
        listing.entry.filter.tree.bytes.now listing.entry.filter.rec listing.entry.count
        leaf.stop.at leaf.stop.position listing.entry.to.now
        knns.old knns.new others.old others.new gone.old gone.new result }
{
    let src = listing.filter.tree.bytes;
    let indexes = Some(listing.to);
    let position = leaf.stop.position;
    let mut tally = Tally {
        position: position + 1,
        knn: 0,
        other: 0,
        rounds: 0,
    };
    let Some(predicate) = match_leaf(listing.filter, leaf, listing.settings) else {
        gone[position] = 0;
        return tally;
    };
    gone[position] = 1;
    tally.rounds = 1;
    if let SpatialPredicate::KNearestNeighbors(_) = predicate {
        tally.knn = put_predicate(knns, src, predicate, position, indexes);
    } else {
        tally.other = put_predicate(others, src, predicate, position, indexes);
    }
    tally
}

// All AND-leaves below a node: a turn writes behind what the turns before it wrote.
pub fn list_matches(
    knns: &mut [u8],
    others: &mut [u8],
    gone: &mut [u8],
    listing: Listing,
    from: Stop,
) -> Tally
    requires list_fits { ListFits (match_under (settings_of listing.settings))
        listing.filter.tree.bytes.now listing.filter.rec listing.count
        from.at from.position listing.to.now knns.old others.old gone.old }
    requires of_tree { OfTree listing.filter.tree.bytes.now from.at
        (Noded listing.filter.tree.nodes.now from.at from.index) }
    ensures { ListPut (match_under (settings_of listing.entry.settings))
        listing.entry.filter.tree.bytes.now listing.entry.filter.rec listing.entry.count
        from.at from.position listing.entry.to.now
        knns.old knns.new others.old others.new gone.old gone.new result }
{
    let tree = listing.filter.tree;
    let mut tally = Tally {
        position: from.position,
        knn: 0,
        other: 0,
        rounds: 0,
    };
    for index in Spine::of(tree, from.index) {
        let at = tree.start(index);
        let node = node_at(tree.bytes, at);
        if let Node::And(_) = node {
            continue;
        }
        let position = tally.position;
        let stop = Stop {
            at,
            index,
            position,
        };
        let leaf = Leaf { stop, node };
        let k = tally.knn;
        let o = tally.other;
        let one = list_leaf(&mut knns[k..], &mut others[o..], gone, listing, leaf);
        tally = Tally {
            position: one.position,
            knn: k + one.knn,
            other: o + one.other,
            rounds: tally.rounds + one.rounds,
        };
    }
    tally
}
