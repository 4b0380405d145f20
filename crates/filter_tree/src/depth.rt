// How many levels the node of an index has, by the records alone.
ghost use Rattle.std.specs.Prelude.{◌≡◌};
ghost use Rattle.definitions.specs.Bytes.Good.{depth};
ghost use Rattle.filter_tree.specs.Levels.{LevelsAre};
ghost use Rattle.filter_tree.specs.Trees.{Node, OfNode};

use super::tree::Tree;
use node_table::NodeRecord;

// How many levels a node has, and the index of the node that comes after it and all below it.
#[derive(Clone, Copy)]
struct Levels {
    depth: usize,
    after: usize,
}

// Each record is passed once: the walk over a child says where the next one is. (It calls itself once for each level.)
fn levels_of(nodes: &[NodeRecord], i: usize) -> Levels
    requires { Node nodes.now i }
    ensures { LevelsAre nodes.now i result.depth result.after }
{
    let end = nodes[i].end;
    let mut below = 0;
    let mut k = i + 1;
    while k < nodes.len() && nodes[k].start < end {
        let child = levels_of(nodes, k);
        below = below.max(child.depth);
        k = child.after;
    }
    Levels {
        depth: below + 1,
        after: k,
    }
}

impl<'a> Tree<'a> {
    // How many levels the node of an index has; it is itself the first.
    pub fn depth(self, i: usize) -> usize
        requires { Node self.nodes.now i }
        ensures { OfNode self.entry.nodes.now i (λ at t. result ≡ depth t) }
    {
        levels_of(self.nodes, i).depth
    }
}
