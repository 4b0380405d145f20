// The tables that give each column its new index: its index in its child, or its own raised by a count. Each entry is one expression, so
// that a function over both, which would take a closure, would be no shorter.
ghost use Rattle.std.specs.Prelude.{◌+◌, ◌≤◌, ◌≡◌, length, drop};
ghost use Rattle.definitions.specs.Words.Limits.{two_bytes};
ghost use Rattle.plan_writer.specs.Tables.{ChildTable, RaisedTable};

use super::records::Records;

// Each column's index in its child; the table is as it was past the last column.
pub fn child_indexes(to: &mut [u16], records: Records)
    requires { records.count ≤ length to.old }
    ensures child_table { ChildTable records.entry.src.now records.entry.rec records.entry.count to.new }
    ensures to_unchanged { drop records.entry.count to.new ≡ drop records.entry.count to.old }
{
    for (j, place) in to[..records.count].iter_mut().enumerate() {
        *place = records.child(j);
    }
}

// Each column's index raised by a count; the table is as it was past the last column.
pub fn raised_indexes(to: &mut [u16], by: usize, count: usize)
    requires count_in_bounds { count ≤ length to.old }
    requires count_bound { by + count ≤ two_bytes }
    ensures raised_table { RaisedTable by count to.new }
    ensures to_unchanged { drop count to.new ≡ drop count to.old }
{
    for (j, place) in to[..count].iter_mut().enumerate() {
        *place = (by + j) as u16;
    }
}
