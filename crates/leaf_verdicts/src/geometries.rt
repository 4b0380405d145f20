// What is wrong with the columns of geometries and bounds.
ghost use Rattle.std.specs.Prelude.{◌≡◌};
ghost use Rattle.leaf_matching.specs.Sides.{side_flags};
ghost use Rattle.leaf_verdicts.specs.Laid.{AtIndex, OfIndex, TwoAt, OfTwoAt};
ghost use Rattle.leaf_verdicts.specs.Columns.{geometry_reason, same_child, order_reason, bound_reason, GeometriesTold, BoundTold};

use super::verdict::Verdict;
use leaf_matching::filter::Filter;
use leaf_matching::sides::{SeenSides, SideFlags, seen_sides};

// The verdicts of a geometry: of one without columns, with columns of both children, and with a mark column.
#[derive(Clone, Copy)]
pub struct Reasons {
    pub without: Verdict,
    pub both: Verdict,
    pub mark: Verdict,
}

// What is wrong with a geometry alone.
fn geometry_reason(of: SideFlags, reasons: Reasons) -> Option<Verdict>
    ensures { result ≡ geometry_reason of reasons }
{
    match (of.left, of.right, of.mark) {
        (false, false, false) => Some(reasons.without),
        (true, true, _) => Some(reasons.both),
        (_, _, true) => Some(reasons.mark),
        _ => None,
    }
}

// Two geometries that are right alone, of one and the same child.
fn same_child(first: SideFlags, second: SideFlags) -> Option<Verdict>
    ensures { result ≡ same_child first second }
{
    match (first.left, second.left) {
        (true, true) => Some(Verdict::BothLeft),
        (false, false) => Some(Verdict::BothRight),
        _ => None,
    }
}

// What is wrong with two geometries.
fn order_reason(first: SideFlags, second: SideFlags) -> Option<Verdict>
    ensures { result ≡ order_reason first second }
{
    let of_first = Reasons {
        without: Verdict::FirstWithoutColumns,
        both: Verdict::FirstOfBoth,
        mark: Verdict::FirstWithMark,
    };
    let of_second = Reasons {
        without: Verdict::SecondWithoutColumns,
        both: Verdict::SecondOfBoth,
        mark: Verdict::SecondWithMark,
    };
    if let Some(why) = geometry_reason(first, of_first) {
        return Some(why);
    }
    if let Some(why) = geometry_reason(second, of_second) {
        return Some(why);
    }
    same_child(first, second)
}

// What is wrong with a bound.
fn bound_reason(of: SideFlags) -> Verdict
    ensures { result ≡ bound_reason of }
{
    match (of.left, of.right, of.mark) {
        (true, true, _) => Verdict::BoundOfBoth,
        (_, _, true) => Verdict::BoundWithMark,
        _ => Verdict::AsDistance,
    }
}

// What is wrong with two geometries by the columns that were seen of each. Most have columns of one child, each of its own, and are right.
fn seen_reason(first: SeenSides, second: SeenSides) -> Option<Verdict>
    ensures { result ≡ order_reason (side_flags first) (side_flags second) }
{
    match (first.bits, second.bits) {
        (1, 2) | (2, 1) => None,
        _ => order_reason(first.flags(), second.flags()),
    }
}

// Two geometries in a row: what is wrong with them, and the index of the second.
#[derive(Clone, Copy)]
pub struct GeometriesVerdict {
    pub reason: Option<Verdict>,
    pub second: usize,
}

// The geometries of an index and of the one after it.
pub fn two_geometries(filter: Filter, i: usize) -> GeometriesVerdict
    requires { TwoAt filter.tree.bytes.now filter.rec filter.tree.nodes.now i }
    ensures { OfTwoAt filter.entry.tree.bytes.now filter.entry.rec filter.entry.tree.nodes.now i
        (GeometriesTold i result) }
{
    let second = filter.tree.after(i);
    let of_first = seen_sides(filter, i);
    let of_second = seen_sides(filter, second);
    GeometriesVerdict {
        reason: seen_reason(of_first, of_second),
        second,
    }
}

// The verdict of the bound of an index, where the geometries are right.
pub fn bound_verdict(filter: Filter, i: usize) -> Verdict
    requires { AtIndex filter.tree.bytes.now filter.rec filter.tree.nodes.now i }
    ensures { OfIndex filter.entry.tree.bytes.now filter.entry.rec filter.entry.tree.nodes.now i
        (BoundTold result) }
{
    bound_reason(seen_sides(filter, i).flags())
}
