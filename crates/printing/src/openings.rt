// The texts of columns and literals, and the beginning of a function's.
ghost use Rattle.byte_writer.specs.Written.{WroteAt};
ghost use Rattle.printing.specs.Marks.{TextFits, column_text, literal_text, name_text};

use super::decimals::{put_decimal, put_marked};
use byte_writer::copies::copy_at;
use hexadecimal::hex::encode;

// Writes a column.
pub fn put_column(out: &mut [u8], w: usize, index: usize, tag: usize) -> usize
    requires { TextFits w (column_text index tag) out.old }
    ensures { WroteAt w (column_text index tag) out.old out.new result }
{
    let v = put_marked(out, w, b'c', index, b':');
    put_decimal(out, v, tag)
}

// Writes a literal of a type with these bytes.
pub fn put_literal(out: &mut [u8], w: usize, sort: usize, bytes: &[u8]) -> usize
    requires { TextFits w (literal_text sort bytes.now) out.old }
    ensures { WroteAt w (literal_text sort bytes.now) out.old out.new result }
{
    let v = put_marked(out, w, b'#', sort, b':');
    encode(out, v, bytes)
}

// Writes a function up to its arguments.
pub fn put_name(out: &mut [u8], w: usize, name: &[u8]) -> usize
    requires { TextFits w (name_text name.now) out.old }
    ensures { WroteAt w (name_text name.now) out.old out.new result }
{
    let v = put_marked(out, w, b'f', name.len(), b':');
    let end = copy_at(out, v, name, 0, name.len());
    out[end] = b'[';
    end + 1
}
