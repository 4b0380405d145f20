// The filter without one AND-leaf, its columns renumbered: the bytes that are left are copied in three spans, around the head of the leaf's
// parent and around the leaf, and the columns among them are found by their records.
ghost use Rattle.std.specs.Prelude.{◌≡◌};
ghost use Rattle.remainder.specs.Around.{outside, moved, Movable};
ghost use Rattle.remainder.specs.Remainders.{PatchFits, Patched, RestFits, RestCopied};

use byte_writer::copies::copy_at;
use byte_writer::numbers::put_number;
use expression::cuts::Cut;
use expression::fields::short_at;
use filter_tree::tree::Tree;

// Whether a place does not lie in the leaf.
pub fn is_outside(cut: Cut, start: usize) -> bool
    ensures { result ≡ outside cut start }
{
    start < cut.leaf || cut.end <= start
}

// Where a node that starts at a place is copied to, counted from where the expression is; that starts at `at`.
fn moved(cut: Cut, at: usize, start: usize) -> usize
    requires { Movable cut at start }
    ensures { result ≡ moved cut at start }
{
    if start < cut.parent + 2 {
        return start - at;
    }
    if start < cut.leaf {
        return start - at - 2;
    }
    start - at - 2 - (cut.end - cut.leaf)
}

// Puts the new index of each column that is left at its place in the copy.
fn patch_columns(out: &mut [u8], tree: Tree, to: &[u16], cut: Cut)
    requires { PatchFits tree.bytes.now tree.nodes.now to.now cut out.old }
    ensures { Patched tree.entry.bytes.now tree.entry.nodes.now to.now cut out.old out.new }
{
    let at = tree.start(0);
    for place in tree.columns(0) {
        if is_outside(cut, place) {
            let index = to[short_at(tree.bytes, place + 1)];
            put_number(out, moved(cut, at, place) + 1, 2, usize::from(index));
        }
    }
}

// Writes what is left of a tree's expression, its columns renumbered; answers its length.
pub fn reproject_remainder(out: &mut [u8], tree: Tree, to: &[u16], cut: Cut) -> usize
    requires { RestFits tree.bytes.now tree.nodes.now to.now cut out.old }
    ensures { RestCopied tree.entry.bytes.now tree.entry.nodes.now to.now cut
        out.old out.new result }
{
    let src = tree.bytes;
    let parent = copy_at(out, 0, src, tree.start(0), cut.parent);
    let leaf = copy_at(out, parent, src, cut.parent + 2, cut.leaf);
    let length = copy_at(out, leaf, src, cut.end, tree.end(0));
    patch_columns(out, tree, to, cut);
    length
}
