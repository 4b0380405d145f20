// The side of the columns that an argument references.
// A port of `collect_column_references`, `side_of_column_references` and `resolve_column_reference_sides` of
// rust/sedona-query-planner/src/spatial_expr_utils.rs.
ghost use Rattle.std.specs.Prelude.{◌≡◌};
ghost use Rattle.definitions.specs.Filter.Match.{side_of, order_of};
ghost use Rattle.terms.specs.Sides.{join_side};
ghost use Rattle.leaf_matching.specs.Frames.{Argued, OfArgument, ArguedTwo, OfArgumentTwo};
ghost use Rattle.leaf_matching.specs.Sides.{argument_side, order, see, sides_seen, side_flags, ColumnsSeen, GeometriesAre};

use super::filter::Filter;
use expression::fields::short_at;
use terms::sides::JoinSide;

// The columns that were seen: bit 0 for those of the left child, 1 for those of the right child, 2 for mark columns.
#[derive(Clone, Copy)]
pub struct SeenSides {
    pub bits: u8,
}

// The bits one by one.
#[derive(Clone, Copy)]
pub struct SideFlags {
    pub left: bool,
    pub right: bool,
    pub mark: bool,
}

// The side of an argument's columns: there are none, all are on one side, or not.
#[derive(Clone, Copy)]
pub enum Sides {
    NoColumns,
    AllOn(JoinSide),
    Mixed,
}

// How two geometries lie: the first left and the second right, or the other way round.
#[derive(Clone, Copy)]
pub enum Order {
    LeftRight,
    RightLeft,
}

// Two geometries in a row: where the second begins and ends, and how they lie, if it is either way.
#[derive(Clone, Copy)]
pub struct Geometries {
    pub second: usize,
    pub end: usize,
    pub order: Option<Order>,
}

impl SeenSides {
    // One column more.
    pub(crate) fn with(self, side: JoinSide) -> SeenSides
        ensures { result ≡ see self (join_side side) }
    {
        let bit = match side {
            JoinSide::Left => 1,
            JoinSide::Right => 2,
            JoinSide::None => 4,
        };
        SeenSides {
            bits: self.bits | bit,
        }
    }

    // The side of these columns.
    pub(crate) fn sides(self) -> Sides
        ensures { result ≡ sides_seen self }
    {
        match self.bits {
            0 => Sides::NoColumns,
            1 => Sides::AllOn(JoinSide::Left),
            2 => Sides::AllOn(JoinSide::Right),
            4 => Sides::AllOn(JoinSide::None),
            _ => Sides::Mixed,
        }
    }

    // Of which there are any.
    pub fn flags(self) -> SideFlags
        ensures { result ≡ side_flags self }
    {
        SideFlags {
            left: self.bits % 2 == 1,
            right: self.bits / 2 % 2 == 1,
            mark: self.bits / 4 % 2 == 1,
        }
    }
}

// In which order two arguments have their sides, if each is of one child and they are of both.
#[tactic(auto, unfolding(definitions::specs::Filter::Match::order_of, definitions::specs::Filter::Match::is_side, definitions::specs::Words::References::same_side))]
pub fn resolve_column_reference_sides(first: Sides, second: Sides) -> Option<Order>
    ensures { order result ≡ order_of (argument_side first) (argument_side second) }
{
    match (first, second) {
        (Sides::AllOn(JoinSide::Left), Sides::AllOn(JoinSide::Right)) => Some(Order::LeftRight),
        (Sides::AllOn(JoinSide::Right), Sides::AllOn(JoinSide::Left)) => Some(Order::RightLeft),
        _ => None,
    }
}

// The columns of the argument of an index.
pub fn seen_sides(filter: Filter, i: usize) -> SeenSides
    requires { Argued filter.tree.bytes.now filter.rec filter.tree.nodes.now i }
    ensures { OfArgument filter.entry.tree.bytes.now filter.entry.rec filter.entry.tree.nodes.now i
        (ColumnsSeen result) }
{
    let mut seen = SeenSides { bits: 0 };
    for place in filter.tree.columns(i) {
        let index = short_at(filter.tree.bytes, place + 1);
        let side = JoinSide::from(u64::from(filter.tree.bytes[filter.rec + 5 * index]));
        seen = seen.with(side);
    }
    seen
}

// The side of these columns.
pub fn side_of_column_references(filter: Filter, i: usize) -> Sides
    requires { Argued filter.tree.bytes.now filter.rec filter.tree.nodes.now i }
    ensures { OfArgument filter.entry.tree.bytes.now filter.entry.rec filter.entry.tree.nodes.now i
        (λ records t. argument_side result ≡ side_of records t) }
{
    seen_sides(filter, i).sides()
}

// Two geometries in a row, the first of which has index i.
pub fn resolve_geometries(filter: Filter, i: usize) -> Geometries
    requires { ArguedTwo filter.tree.bytes.now filter.rec filter.tree.nodes.now i }
    ensures { OfArgumentTwo filter.entry.tree.bytes.now filter.entry.rec filter.entry.tree.nodes.now i
        (λ at. GeometriesAre at result) }
{
    let middle = filter.tree.after(i);
    let first = side_of_column_references(filter, i);
    let second = side_of_column_references(filter, middle);
    Geometries {
        second: filter.tree.end(i),
        end: filter.tree.end(middle),
        order: resolve_column_reference_sides(first, second),
    }
}
