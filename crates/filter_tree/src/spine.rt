// The And nodes and AND-leaves of an expression in prefix order, which every walk over AND-leaves takes.
ghost use Rattle.std.specs.Iterator.{YieldsFirst, item_count};
ghost use Rattle.std.specs.Prelude.{◌≡◌};
ghost use Rattle.node_table.specs.Records.{node_of};
ghost use Rattle.filter_tree.specs.Spines.{and_record, low_after, spine_left, OfSpine};
ghost use Rattle.filter_tree.specs.Trees.{Node};

use super::tree::Tree;
use expression::kinds;
use node_table::NodeRecord;

// Those that are still to come, from one index on: records that start before `low` are below a leaf that was passed.
#[derive(Drop)]
pub struct Spine<'a> {
    pub bytes: &'a [u8],
    pub nodes: &'a [NodeRecord],
    pub next: usize,
    pub low: u16,
    pub end: u16,
}

// Whether a record is that of an And.
pub fn is_and(s: &[u8], node: NodeRecord) -> bool
    ensures { result ≡ and_record s.now (node_of node) }
{
    if node.kind != kinds::BINARY {
        return false;
    }
    let operator = usize::from(node.start) + 1;
    operator < s.len() && s[operator] == 0
}

// Where the next one can start: below an And or, after a leaf, where that ends.
fn low_after(s: &[u8], node: NodeRecord) -> u16
    ensures { result ≡ low_after s.now (node_of node) }
{
    if is_and(s, node) {
        node.start
    } else {
        node.end
    }
}

impl<'a> Iterator for Spine<'a> {
    type Item = usize;

    ghost next_gives = { YieldsFirst spine_left };

    ghost remaining = { item_count spine_left };

    // The index of the next one.
    fn next(&mut self) -> Option<usize> {
        while self.next < self.nodes.len() && self.nodes[self.next].start < self.end {
            let index = self.next;
            let node = self.nodes[index];
            self.next += 1;
            if self.low <= node.start {
                self.low = low_after(self.bytes, node);
                return Some(index);
            }
        }
        None
    }
}

impl<'a> Spine<'a> {
    // Those of the node of an index.
    pub fn of(tree: Tree<'a>, i: usize) -> Spine<'a>
        requires { Node tree.nodes.now i }
        ensures { OfSpine tree.entry.bytes.now tree.entry.nodes.now i (spine_left result) }
    {
        Spine {
            bytes: tree.bytes,
            nodes: tree.nodes,
            next: i,
            low: 0,
            end: tree.nodes[i].end,
        }
    }
}
