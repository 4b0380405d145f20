// The text of an expression.
ghost use Rattle.std.specs.Prelude.{◌<◌, slice_index};
ghost use Rattle.definitions.specs.Bytes.Printed as definitions;
ghost use Rattle.byte_writer.specs.Writing.{Room};
ghost use Rattle.printing.specs.Marks.{PhysicalAt};
ghost use Rattle.printing.specs.Texts.{NodePrinted, RowFits, RowPrinted};

use super::marks::{put_before, put_closing, put_opening};
use expression::heads::head_at;

// Where a print read up to and where its text ends.
#[derive(Clone, Copy)]
pub struct Printed {
    pub read: usize,
    pub wrote: usize,
}

// Writes the text of a column or a literal, which has no children and nothing after them.
fn print_leaf(out: &mut [u8], w: usize, src: &[u8], at: usize) -> Printed
    requires leaf { slice_index src.now at < 2 }
    requires room { Room (PhysicalAt src.now at) definitions.printed w out.old }
    ensures { NodePrinted src.now at w out.old out.new result }
{
    let wrote = put_opening(out, w, src, at);
    let head = head_at(src, at);
    Printed {
        read: head.next,
        wrote,
    }
}

// Writes the text of the expression at a place from w on.
#[cycle(print_children_print_node)]
pub fn print_node(out: &mut [u8], w: usize, src: &[u8], at: usize) -> Printed
    requires { Room (PhysicalAt src.now at) definitions.printed w out.old }
    ensures { NodePrinted src.now at w out.old out.new result }
{
    if src[at] < 2 {
        return print_leaf(out, w, src, at);
    }
    let first = put_opening(out, w, src, at);
    let head = head_at(src, at);
    let row = print_children(out, first, src, at, head.next, head.children);
    let wrote = put_closing(out, row.wrote, src, at);
    Printed {
        read: row.read,
        wrote,
    }
}

// The same of n expressions in a row, the children of the node at `parent`, with what stands before each of them.
#[cycle(print_children_print_node)]
fn print_children(
    out: &mut [u8],
    w: usize,
    src: &[u8],
    parent: usize,
    at: usize,
    n: usize,
) -> Printed
    requires { RowFits src.now parent at n 0 w out.old }
    ensures { RowPrinted src.now parent at n 0 w out.old out.new result }
{
    let mut read = at;
    let mut wrote = w;
    for position in 0..n {
        let v = put_before(out, wrote, src, parent, position);
        let one = print_node(out, v, src, read);
        read = one.read;
        wrote = one.wrote;
    }
    Printed { read, wrote }
}
