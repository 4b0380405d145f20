// The nodes of an expression as their records, in prefix order: a node is its index. What is below it are the records that follow
// while they start before its end.
ghost use Rattle.std.specs.Iterator.{YieldsFirst, item_count};
ghost use Rattle.std.specs.Prelude.{◌≡◌, ◌+◌, length};
ghost use Rattle.definitions.specs.Bytes.Encode.{expr_bytes};
ghost use Rattle.definitions.specs.Bytes.Good.{nodes};
ghost use Rattle.filter_tree.specs.Columns.{columns_left, OfColumns, OfFields};
ghost use Rattle.filter_tree.specs.Trees.{Node, OfNode, RowUpTo, IsLeaf, AboveIs};

use expression::kinds;
use node_table::NodeRecord;

// The bytes, and the records of their nodes.
#[derive(Clone, Copy)]
pub struct Tree<'a> {
    pub bytes: &'a [u8],
    pub nodes: &'a [NodeRecord],
}

// The columns below a node that are still to come, from one index on; its fields where the filter is a logical one.
#[derive(Drop)]
pub struct Columns<'a> {
    pub nodes: &'a [NodeRecord],
    pub next: usize,
    pub end: u16,
    pub kind: u8,
}

impl<'a> Iterator for Columns<'a> {
    type Item = usize;

    ghost next_gives = { YieldsFirst columns_left };

    ghost remaining = { item_count columns_left };

    // The place of the next one.
    fn next(&mut self) -> Option<usize> {
        while self.next < self.nodes.len() && self.nodes[self.next].start < self.end {
            let node = self.nodes[self.next];
            self.next += 1;
            if node.kind == self.kind {
                return Some(usize::from(node.start));
            }
        }
        None
    }
}

impl<'a> Tree<'a> {
    // Where the node of an index starts.
    pub fn start(self, i: usize) -> usize
        requires { Node self.nodes.now i }
        ensures { OfNode self.entry.nodes.now i (λ at t. result ≡ at) }
    {
        usize::from(self.nodes[i].start)
    }

    // Where it ends.
    pub fn end(self, i: usize) -> usize
        requires { Node self.nodes.now i }
        ensures { OfNode self.entry.nodes.now i (λ at t. result ≡ at + length (expr_bytes t)) }
    {
        usize::from(self.nodes[i].end)
    }

    // The index of the node that comes after it and all below it.
    pub fn after(self, i: usize) -> usize
        requires { Node self.nodes.now i }
        ensures { OfNode self.entry.nodes.now i (λ at t. result ≡ i + nodes t) }
    {
        let end = self.nodes[i].end;
        let mut k = i + 1;
        while k < self.nodes.len() && self.nodes[k].start < end {
            k += 1;
        }
        k
    }

    // The same for a node that is the first of several in a row, whose records end before `past`. What is below the node starts before
    // its end, and what comes after it does not: the range is halved until one index is left.
    pub fn after_within(self, i: usize, past: usize) -> usize
        requires { RowUpTo self.nodes.now i past }
        ensures { OfNode self.entry.nodes.now i (λ at t. result ≡ i + nodes t) }
    {
        let end = self.nodes[i].end;
        let mut low = i + 1;
        let mut high = past;
        while low < high {
            let middle = low + (high - low) / 2;
            if self.nodes[middle].start < end {
                low = middle + 1;
            } else {
                high = middle;
            }
        }
        low
    }

    // The places of the columns of the node of an index.
    pub fn columns(self, i: usize) -> Columns<'a>
        requires { Node self.nodes.now i }
        ensures { OfColumns self.entry.bytes.now self.entry.nodes.now i (columns_left result) }
    {
        Columns {
            nodes: self.nodes,
            next: i,
            end: self.nodes[i].end,
            kind: kinds::COLUMN,
        }
    }

    // The places of the fields of the node of an index, which are a logical filter's columns.
    pub fn fields(self, i: usize) -> Columns<'a>
        requires { Node self.nodes.now i }
        ensures { OfFields self.entry.bytes.now self.entry.nodes.now i (columns_left result) }
    {
        Columns {
            nodes: self.nodes,
            next: i,
            end: self.nodes[i].end,
            kind: kinds::FIELD,
        }
    }

    // The index of the And above an AND-leaf, the nearest node before it that ends no sooner; the root counts as its own parent.
    pub fn parent_of(self, leaf: usize) -> usize
        requires { IsLeaf self.nodes.now leaf }
        ensures { AboveIs self.entry.nodes.now leaf result }
    {
        let end = self.nodes[leaf].end;
        let mut k = leaf;
        while 0 < k {
            k -= 1;
            if end <= self.nodes[k].end {
                return k;
            }
        }
        leaf
    }
}
