// The remainder: the expression without the AND-leaf that was taken and its parent And.
// A port of `replace_join_filter_expr` of
// rust/sedona-query-planner/src/spatial_expr_utils.rs.
ghost use Rattle.std.specs.Prelude.{◌≡◌, ◌≤◌};
ghost use Rattle.expression.specs.Nodes.{OfTree};
ghost use Rattle.filter_tree.specs.Trees.{Noded};
ghost use Rattle.remainder.specs.HeldIndexes.{Unheld, HeldMarked};
ghost use Rattle.remainder.specs.Remainders.{RemainderFits, RemainderPut};

use super::kept_records::put_records;
use super::record_keys::Marked;
use super::reprojecting::{is_outside, reproject_remainder};
use expression::cuts::Cut;
use expression::fields::short_at;
use filter_tree::tree::Tree;
use plan_writer::records::Records;

// Marks the indexes that are held: those of the columns outside the leaf, which are left.
fn collect_held(used: &mut [u8], tree: Tree, cut: Cut)
    requires { Unheld tree.bytes.now tree.nodes.now cut used.old }
    ensures { HeldMarked tree.entry.bytes.now tree.entry.nodes.now cut used.old used.new }
{
    for place in tree.columns(0) {
        if is_outside(cut, place) {
            used[short_at(tree.bytes, place + 1)] = 1;
        }
    }
}

// Writes the frame that is left, with rows for at most N records: those that its columns refer to, and the expression over them.
// One function for this and `put_pruned_in` would need two more, which match on a cut where the calls differ, and be no shorter.
fn replace_join_filter_expr<const N: usize>(
    out: &mut [u8],
    records: Records,
    at: usize,
    tree: Tree,
    cut: Cut,
) -> usize
    requires remainder_fits { RemainderFits records.src.now records.rec records.count
        tree.bytes.now at cut out.old }
    requires of_tree { OfTree tree.bytes.now at (Noded tree.nodes.now at 0) }
    requires leaf_elsewhere { at ≡ cut.leaf → ⊥ }
    requires count_bound { (records.count ≤ N) × (N ≤ 256) }
    ensures { RemainderPut records.entry.src.now records.entry.rec records.entry.count
        tree.entry.bytes.now at cut out.old out.new result }
{
    let mut used = [0u8; N];
    let mut to = [0u16; N];
    let mut keys = [0u32; N];
    collect_held(&mut used, tree, cut);
    let marked = Marked {
        records,
        used: &used,
    };
    let w = put_records(out, &mut to, &mut keys, marked);
    w + reproject_remainder(&mut out[w..], tree, &to, cut)
}

// Writes what is left of a frame without an AND-leaf: a frame, or `00` if the leaf is all of it. Most frames have few records, and need
// no longer rows cleared.
pub fn put_remainder(out: &mut [u8], records: Records, at: usize, tree: Tree, cut: Cut) -> usize
    requires remainder_fits { RemainderFits records.src.now records.rec records.count
        tree.bytes.now at cut out.old }
    requires of_tree { OfTree tree.bytes.now at (Noded tree.nodes.now at 0) }
    ensures { RemainderPut records.entry.src.now records.entry.rec records.entry.count
        tree.entry.bytes.now at cut out.old out.new result }
{
    if at == cut.leaf {
        out[0] = 0;
        return 1;
    }
    if records.count <= 16 {
        return replace_join_filter_expr::<16>(out, records, at, tree, cut);
    }
    replace_join_filter_expr::<256>(out, records, at, tree, cut)
}
