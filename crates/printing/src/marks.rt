// What is written of a node before its children, before each of them and after them.
ghost use Rattle.byte_writer.specs.Writing.{Room, PutsAt};
ghost use Rattle.printing.specs.Marks.{PhysicalAt, opening_of, before_of, closing_of};

use super::decimals::put_marked;
use super::fields::leading_number;
use super::openings::{put_column, put_literal, put_name};
use expression::fields::short_at;
use expression::kinds;

// Writes what stands before the children of the node at a place; all of it where it can have none. Inlined, since one of its callers has
// only leaves, and then little is left of it.
#[inline(always)]
pub fn put_opening(out: &mut [u8], w: usize, src: &[u8], at: usize) -> usize
    requires { Room (PhysicalAt src.now at) opening_of w out.old }
    ensures { PutsAt (PhysicalAt src.now at) opening_of w out.old out.new result }
{
    let number = leading_number(src, at);
    match src[at] {
        kinds::COLUMN => put_column(out, w, number, short_at(src, at + 3)),
        kinds::LITERAL => put_literal(out, w, number, &src[at + 2..at + 10]),
        kinds::BINARY => {
            out[w] = b'(';
            w + 1
        }
        kinds::CALL => put_name(out, w, &src[at + 2..at + 2 + number]),
        _ => put_marked(out, w, b'x', number, b'['),
    }
}

// Writes what stands before the child of that position, from 0, of the node at a place.
pub fn put_before(out: &mut [u8], w: usize, src: &[u8], at: usize, position: usize) -> usize
    requires { Room (PhysicalAt src.now at) (before_of position) w out.old }
    ensures { PutsAt (PhysicalAt src.now at) (before_of position) w out.old out.new result }
{
    if position == 0 {
        return w;
    }
    if src[at] == kinds::BINARY {
        let operator = leading_number(src, at);
        out[w] = b' ';
        return put_marked(out, w + 1, b'o', operator, b' ');
    }
    out[w] = b',';
    w + 1
}

// Writes what stands after the children of the node at a place.
pub fn put_closing(out: &mut [u8], w: usize, src: &[u8], at: usize) -> usize
    requires { Room (PhysicalAt src.now at) closing_of w out.old }
    ensures { PutsAt (PhysicalAt src.now at) closing_of w out.old out.new result }
{
    let mark = match src[at] {
        kinds::COLUMN | kinds::LITERAL => return w,
        kinds::BINARY => b')',
        _ => b']',
    };
    out[w] = mark;
    w + 1
}
