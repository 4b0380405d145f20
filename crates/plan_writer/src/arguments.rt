// The arguments of predicates, and copies of expressions whose columns are renumbered by a table.
// A port of `reproject_column_references` and `reproject_column_references_for_side` of
// rust/sedona-query-planner/src/spatial_expr_utils.rs.
ghost use Rattle.byte_writer.specs.Writing.{Room, PutsAt};
ghost use Rattle.plan_writer.specs.Copies.{copy_of, InTable, PatchFits, Patched};
ghost use Rattle.plan_writer.specs.Arguments.{Stood, written, BothStood, both_written};

use byte_writer::copies::copy_at;
use byte_writer::numbers::put_number;
use expression::fields::short_at;
use expression::heads::head_at;
use expression::kinds;
use terms::sides::JoinSide;

// Puts the new index of each column at its place in a copy that starts at w. The nodes of an expression stand one after another, so that a
// step is as long as a node's head.
fn patch_columns(out: &mut [u8], w: usize, src: &[u8], start: usize, end: usize, to: &[u16])
    requires { PatchFits src.now start end to.now w out.old }
    ensures { Patched src.now start end to.now w out.old out.new }
{
    let mut next = start;
    while next < end {
        if src[next] == kinds::COLUMN {
            let index = to[short_at(src, next + 1)];
            put_number(out, w + (next - start) + 1, 2, usize::from(index));
            next += 5;
        } else {
            next = head_at(src, next).next;
        }
    }
}

// Writes the expression that stands from one place up to another to `out` from w on; `to` has the new index of each column. Answers where
// it ends.
pub fn reproject_column_references(
    out: &mut [u8],
    w: usize,
    src: &[u8],
    start: usize,
    end: usize,
    to: &[u16],
) -> usize
    requires { Room (InTable src.now start end to.now) (copy_of to.now) w out.old }
    ensures { PutsAt (InTable src.now start end to.now) (copy_of to.now) w out.old out.new result }
{
    let v = copy_at(out, w, src, start, end);
    patch_columns(out, w, src, start, end, to);
    v
}

// An argument of a predicate: where it stands and ends, and the side of its columns.
#[derive(Clone, Copy)]
pub struct Argument {
    pub start: usize,
    pub end: usize,
    pub side: JoinSide,
}

// Writes an argument from w on; answers where it ends.
// `None`: its columns keep their indexes; `Some(to)`: the table `to` has the new ones, but not for an argument of side none.
pub fn reproject_column_references_for_side(
    out: &mut [u8],
    w: usize,
    src: &[u8],
    argument: Argument,
    indexes: Option<&[u16]>,
) -> usize
    requires { Room (Stood indexes src.now argument) (written indexes argument) w out.old }
    ensures { PutsAt (Stood indexes.entry src.now argument) (written indexes.entry argument) w
        out.old out.new result }
{
    match indexes {
        Some(to) if argument.side != JoinSide::None => {
            reproject_column_references(out, w, src, argument.start, argument.end, to)
        }
        _ => copy_at(out, w, src, argument.start, argument.end),
    }
}

// Two arguments, the second where the first ended.
pub fn put_both(
    out: &mut [u8],
    w: usize,
    src: &[u8],
    one: Argument,
    two: Argument,
    indexes: Option<&[u16]>,
) -> usize
    requires { Room (BothStood indexes src.now one two) (both_written indexes one two) w out.old }
    ensures { PutsAt (BothStood indexes.entry src.now one two)
        (both_written indexes.entry one two) w out.old out.new result }
{
    let v = reproject_column_references_for_side(out, w, src, one, indexes);
    reproject_column_references_for_side(out, v, src, two, indexes)
}
