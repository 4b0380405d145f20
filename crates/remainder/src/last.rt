// The last remainder, once a leaf was taken: what stays of the expression, pruned once, or `00`.
ghost use Rattle.expression.specs.Nodes.{OfTree};
ghost use Rattle.filter_tree.specs.Trees.{Noded};
ghost use Rattle.remainder.specs.Last.{LastFits, LastPut};

use super::pruned::put_pruned_to_end;
use super::rests::{Place, put_rest};
use filter_tree::tree::Tree;
use plan_writer::records::Records;

// Writes what is left of a frame without the AND-leaves whose flag is 1; answers its length. The expression that stays is first written to
// the lent `rest`.
pub fn put_last(
    out: &mut [u8],
    rest: &mut [u8],
    records: Records,
    at: usize,
    tree: Tree,
    gone: &[u8],
) -> usize
    requires last_fits { LastFits records.src.now records.rec records.count
        tree.bytes.now at gone.now rest.old out.old }
    requires of_tree { OfTree tree.bytes.now at (Noded tree.nodes.now at 0) }
    ensures { LastPut records.entry.src.now records.entry.rec records.entry.count
        tree.entry.bytes.now at gone.now out.old out.new result }
{
    let end = rest.len();
    let root = Place { at, index: 0 };
    let stays = put_rest(rest, end, tree, root, gone, gone.len());
    if stays.start == end {
        out[0] = 0;
        return 1;
    }
    put_pruned_to_end(out, records, rest, stays.start)
}
