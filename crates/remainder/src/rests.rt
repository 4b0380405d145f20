// What stays of a filter without some of its AND-leaves, written from its end to its start: the head of an And is written once it is
// known that both of its sides stay.
ghost use Rattle.std.specs.Prelude.{◌≤◌, ◌≡◌, ◌+◌, [], ◌∷◌, length};
ghost use Rattle.definitions.specs.Words.Leaves.{leaves};
ghost use Rattle.expression.specs.Nodes.{OfTree};
ghost use Rattle.definitions.specs.Bytes.Good.{nodes};
ghost use Rattle.filter_tree.specs.Trees.{Noded, OfNode};
ghost use Rattle.remainder.specs.Parts.{PartIs, SidesAre};
ghost use Rattle.remainder.specs.Rests.{RestFits, RestPut, AndPut};

use byte_writer::copies::copy_at;
use expression::leaves::{Node, node_at};
use filter_tree::tree::Tree;

// Where what stays of an expression starts, and how many AND-leaves are before the expression. Where nothing stays it starts at its end,
// and the next one is written there without a case of its own.
#[derive(Clone, Copy)]
pub struct Stays {
    pub start: usize,
    pub leaf: usize,
}

// Where a node stands, and its index.
#[derive(Clone, Copy)]
pub struct Place {
    pub at: usize,
    pub index: usize,
}

// The same, and the index past all that is below the node, where that is known.
#[derive(Clone, Copy)]
struct Part {
    at: usize,
    index: usize,
    past: Option<usize>,
}

// An AND-leaf, unless its flag says that it goes. Flags are bytes, so that what is said of bytes that stand somewhere holds of them.
fn put_leaf(
    out: &mut [u8],
    end: usize,
    tree: Tree,
    place: Place,
    gone: &[u8],
    after: usize,
) -> Stays
    requires rest_fits { RestFits tree.bytes.now place.at end after gone.now out.old }
    requires of_tree { OfTree tree.bytes.now place.at (λ t. (leaves t ≡ t ∷ [])
        × Noded tree.nodes.now place.at place.index t) }
    ensures { OfTree tree.entry.bytes.now place.at
        (RestPut end after gone.now out.old out.new result) }
{
    let leaf = after - 1;
    if gone[leaf] == 1 {
        return Stays { start: end, leaf };
    }
    let stop = tree.end(place.index);
    let start = end - (stop - place.at);
    copy_at(out, start, tree.bytes, place.at, stop);
    Stays { start, leaf }
}

// The head of an And of which both sides stay: the left one stands before the right one, which ends at `end`.
fn put_and_head(out: &mut [u8], left: Stays, middle: usize, end: usize) -> Stays
    requires { (2 ≤ left.start) × (left.start ≤ length out.old) }
    ensures { AndPut left middle end out.old out.new result }
{
    if left.start == middle {
        return left;
    }
    if middle == end {
        return left;
    }
    let start = left.start - 2;
    out[start] = 2;
    out[start + 1] = 0;
    Stays {
        start,
        leaf: left.leaf,
    }
}

// The index of the right side of an And, of which the left one has index `left`. Along the right sides from the root on no end is known,
// and each scan passes a left side that no other does; below these the range is halved.
fn right_index(tree: Tree, left: usize, past: Option<usize>) -> usize
    requires { SidesAre tree.nodes.now left past }
    ensures { OfNode tree.entry.nodes.now left (λ at t. result ≡ left + nodes t) }
{
    match past {
        Some(past) => tree.after_within(left, past),
        None => tree.after(left),
    }
}

// What stays of a part. The records of an And's right side end where the And's do, those of the left one where the right one begins.
fn put_part(out: &mut [u8], end: usize, tree: Tree, part: Part, gone: &[u8], after: usize) -> Stays
    requires rest_fits { RestFits tree.bytes.now part.at end after gone.now out.old }
    requires of_tree { OfTree tree.bytes.now part.at
        (PartIs tree.nodes.now part.at part.index part.past) }
    ensures { OfTree tree.entry.bytes.now part.at
        (RestPut end after gone.now out.old out.new result) }
{
    let Part { at, index, past } = part;
    let Node::And(left) = node_at(tree.bytes, at) else {
        return put_leaf(out, end, tree, Place { at, index }, gone, after);
    };
    let below = index + 1;
    let next = right_index(tree, below, past);
    let behind = Part {
        at: tree.end(below),
        index: next,
        past,
    };
    let right = put_part(out, end, tree, behind, gone, after);
    let before = Part {
        at: left,
        index: below,
        past: Some(next),
    };
    let first = put_part(out, right.start, tree, before, gone, right.leaf);
    put_and_head(out, first, right.start, end)
}

// What stays of the expression at a place, written so that it ends at `end`; `after` AND-leaves are up to the expression's end, and a
// flag of each says whether it goes.
pub fn put_rest(
    out: &mut [u8],
    end: usize,
    tree: Tree,
    place: Place,
    gone: &[u8],
    after: usize,
) -> Stays
    requires rest_fits { RestFits tree.bytes.now place.at end after gone.now out.old }
    requires of_tree { OfTree tree.bytes.now place.at (Noded tree.nodes.now place.at place.index) }
    ensures { OfTree tree.entry.bytes.now place.at
        (RestPut end after gone.now out.old out.new result) }
{
    let part = Part {
        at: place.at,
        index: place.index,
        past: None,
    };
    put_part(out, end, tree, part, gone, after)
}
