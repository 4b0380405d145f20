// The records of the columns that stay, and the columns' new indexes. A record whose own column is marked stays at once; any other is
// looked for by its key, which is in a row with those of all marked records, if its last byte is that of one of them.
ghost use Rattle.std.specs.Prelude.{◌≤◌, ◌<◌, length};
ghost use Rattle.remainder.specs.Records.{Referenced, OneFits, OneKept, AllFit, RowsFit, RecordsKept, RecordsPut};

use super::record_keys::{Keyed, Marked, among, marked_keys, record_key};
use byte_writer::copies::copy_bytes;
use plan_writer::frame_heads::put_frame_head;

// Whether the record j is equal, in side and child index, to that of a marked column.
fn is_referenced(keyed: Keyed, j: usize) -> bool
    requires { j < keyed.marked.records.count }
    ensures { Referenced keyed.entry.marked.records.src.now keyed.entry.marked.records.rec keyed.entry.marked.records.count
        keyed.entry.marked.used.now j result }
{
    if keyed.marked.used[j] == 1 {
        return true;
    }
    let key = record_key(keyed.marked.records, j);
    keyed.ends[(key % 256) as usize] && among(keyed.keys, key)
}

// Writes the record j if it stays, after those kept before it; answers how many are kept then.
fn keep_record(out: &mut [u8], kept: usize, keyed: Keyed, j: usize) -> usize
    requires { OneFits keyed.marked.records.src.now keyed.marked.records.rec keyed.marked.records.count
        keyed.marked.used.now j kept out.old }
    ensures { OneKept keyed.entry.marked.records.src.now keyed.entry.marked.records.rec keyed.entry.marked.records.count
        keyed.entry.marked.used.now j kept out.old out.new result }
{
    let records = keyed.marked.records;
    if is_referenced(keyed, j) {
        let w = 5 * kept;
        copy_bytes(&mut out[w..], records.src, records.rec + 5 * j, 5);
        return kept + 1;
    }
    kept
}

// Writes the records that stay, and each column's new index; answers how many stay.
fn keep_each(out: &mut [u8], to: &mut [u16], keyed: Keyed) -> usize
    requires all_fit { AllFit keyed.marked.records.src.now keyed.marked.records.rec keyed.marked.records.count
        keyed.marked.used.now 0 out.old }
    requires count_in_bounds { keyed.marked.records.count ≤ length to.old }
    ensures { RecordsKept keyed.entry.marked.records.src.now keyed.entry.marked.records.rec keyed.entry.marked.records.count
        keyed.entry.marked.used.now out.old out.new to.new result }
{
    let mut kept: usize = 0;
    for j in 0..keyed.marked.records.count {
        to[j] = kept as u16;
        kept = keep_record(out, kept, keyed, j);
    }
    kept
}

// The same, once the keys of the marked records are in their row.
fn keep_records(out: &mut [u8], to: &mut [u16], keys: &mut [u32], marked: Marked) -> usize
    requires all_fit { AllFit marked.records.src.now marked.records.rec marked.records.count marked.used.now 0 out.old }
    requires rows_fit { RowsFit marked.records.count to.old keys.old }
    ensures { RecordsKept marked.entry.records.src.now marked.entry.records.rec marked.entry.records.count marked.entry.used.now
        out.old out.new to.new result }
{
    let mut ends = [false; 256];
    let n = marked_keys(keys, &mut ends, marked);
    let keyed = Keyed {
        marked,
        keys: &keys[..n],
        ends: &ends,
    };
    keep_each(out, to, keyed)
}

// The same with a frame's first byte and their count before them; answers where they end.
pub fn put_records(out: &mut [u8], to: &mut [u16], keys: &mut [u32], marked: Marked) -> usize
    requires all_fit { AllFit marked.records.src.now marked.records.rec marked.records.count marked.used.now 3 out.old }
    requires rows_fit { RowsFit marked.records.count to.old keys.old }
    ensures { RecordsPut marked.entry.records.src.now marked.entry.records.rec marked.entry.records.count marked.entry.used.now
        out.old out.new to.new result }
{
    let kept = keep_records(&mut out[3..], to, keys, marked);
    put_frame_head(out, kept);
    3 + 5 * kept
}
