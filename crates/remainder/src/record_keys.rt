// The keys of records: side and child index as one number, those of marked columns in a row.
ghost use Rattle.std.specs.Prelude.{◌≡◌, ◌+◌, ◌*◌, ◌≤◌, ◌<◌, length};
ghost use Rattle.remainder.specs.Keys.{key_at, Ended, KeyRow, AmongIs};

use expression::fields::short_at;
use plan_writer::records::Records;

// The records of a frame, and a flag for each column: 1 where it is marked.
#[derive(Clone, Copy)]
pub struct Marked<'a> {
    pub records: Records<'a>,
    pub used: &'a [u8],
    pub ghost flagged: { records.count ≤ length used.now },
}

// The same with the keys of the marked columns' records in a row, and a flag for the last byte of each. Several records may have one key,
// and a ghost field takes what has one proof, so it keeps that there is a proof, not which record has which key.
#[derive(Clone, Copy)]
pub struct Keyed<'a> {
    pub marked: Marked<'a>,
    pub keys: &'a [u32],
    pub ends: &'a [bool],
    pub ghost row: { ∥ KeyRow marked.records.src.now marked.records.rec marked.records.count marked.used.now
        keys.now (length keys.now) ∥₁ },
    pub ghost ended: { Ended keys.now (length keys.now) ends.now },
}

// The side and child index of the record at a place, as one number. No more than these three bytes need stand there.
pub fn column_key(src: &[u8], at: usize) -> u32
    requires { at + 3 ≤ length src.now }
    ensures { result ≡ key_at src.now at }
{
    u32::from(src[at]) * 65536 + short_at(src, at + 1) as u32
}

// The same of the record j.
pub(crate) fn record_key(records: Records, j: usize) -> u32
    requires { j < records.count }
    ensures { result ≡ key_at records.entry.src.now (records.entry.rec + 5 * j) }
{
    column_key(records.src, records.rec + 5 * j)
}

// Writes the keys of the marked columns' records in a row, and sets the flags of their last bytes; answers how many keys there are.
pub fn marked_keys(keys: &mut [u32], ends: &mut [bool], marked: Marked) -> usize
    requires room { marked.records.count ≤ length keys.old }
    requires flags { length ends.old ≡ 256 }
    ensures row { KeyRow marked.entry.records.src.now marked.entry.records.rec marked.entry.records.count marked.entry.used.now
        keys.new result }
    ensures ended { Ended keys.new result ends.new }
{
    let mut n = 0;
    for i in 0..marked.records.count {
        if marked.used[i] == 1 {
            let key = record_key(marked.records, i);
            keys[n] = key;
            ends[(key % 256) as usize] = true;
            n += 1;
        }
    }
    n
}

// Whether a key is in a row. All are looked at, where `contains` stops, so that the compiler can compare several at once.
pub fn among(keys: &[u32], key: u32) -> bool
    ensures { AmongIs keys.now (length keys.now) key result }
{
    let mut found = false;
    for k in keys {
        found = found | (*k == key);
    }
    found
}
