// The frame of an expression that stands in other bytes: the records that its columns refer to, and the expression over them.
ghost use Rattle.std.specs.Prelude.{◌≤◌};
ghost use Rattle.remainder.specs.Pruned.{PrunedFits, PrunedPut, PrunedToEndFits, PrunedToEndPut};

use super::kept_records::put_records;
use super::record_keys::Marked;
use super::references::collect_column_references;
use expression::ends::end_node;
use plan_writer::arguments::reproject_column_references;
use plan_writer::records::Records;

// With rows for at most N records.
fn put_pruned_in<const N: usize>(out: &mut [u8], records: Records, from: &[u8], at: usize) -> usize
    requires pruned_fits { PrunedToEndFits records.src.now records.rec records.count from.now at out.old }
    requires count_bound { (records.count ≤ N) × (N ≤ 256) }
    ensures { PrunedToEndPut records.entry.src.now records.entry.rec records.entry.count from.now at
        out.old out.new result }
{
    let mut used = [0u8; N];
    let mut to = [0u16; N];
    let mut keys = [0u32; N];
    let end = from.len();
    collect_column_references(&mut used, from, at, end);
    let marked = Marked {
        records,
        used: &used,
    };
    let w = put_records(out, &mut to, &mut keys, marked);
    reproject_column_references(out, w, from, at, end, &to)
}

// Writes the frame of the expression at the end of `from` over the records that it refers to; answers its length. Most frames have few
// records, and need no longer rows cleared.
pub fn put_pruned_to_end(out: &mut [u8], records: Records, from: &[u8], at: usize) -> usize
    requires { PrunedToEndFits records.src.now records.rec records.count from.now at out.old }
    ensures { PrunedToEndPut records.entry.src.now records.entry.rec records.entry.count from.now at
        out.old out.new result }
{
    if records.count <= 16 {
        return put_pruned_in::<16>(out, records, from, at);
    }
    put_pruned_in::<256>(out, records, from, at)
}

// The same of an expression anywhere in `from`, with a look for its end.
pub fn put_pruned(out: &mut [u8], records: Records, from: &[u8], at: usize) -> usize
    requires { PrunedFits records.src.now records.rec records.count from.now at out.old }
    ensures { PrunedPut records.entry.src.now records.entry.rec records.entry.count from.now at
        out.old out.new result }
{
    let end = end_node(from, at);
    put_pruned_to_end(out, records, &from[..end], at)
}
