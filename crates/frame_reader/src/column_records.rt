// The records of columns.
ghost use Rattle.std.specs.Prelude.{◌≤◌, length};
ghost use Rattle.definitions.specs.Bytes.Readers as readers;
ghost use Rattle.definitions.specs.Bytes.Decode as decode;
ghost use Rattle.node_reader.specs.Fields.{FieldIs, SkippedIs};

use node_reader::field_readers::number;
use node_reader::head_readers::cut_field;
use terms::refusals::Refusal;

// A column's record: side, child index, field tag.
#[inline(always)]
fn one_record(s: &[u8], at: usize) -> Result<usize, Refusal>
    requires { at ≤ length s.now }
    ensures { SkippedIs s.now at result decode.one_record }
{
    if s.len() - at < 5 {
        return Err(cut_field(s, at, 2));
    }
    if 2 < s[at] {
        return Err(Refusal::OutOfRange);
    }
    Ok(at + 5)
}

// So many records.
pub fn records(s: &[u8], at: usize, many: u64) -> Result<usize, Refusal>
    requires { at ≤ length s.now }
    ensures { SkippedIs s.now at result (readers.repeat many decode.one_record) }
{
    let mut next = at;
    for _ in 0..many {
        next = one_record(s, next)?;
    }
    Ok(next)
}

// How many records a frame has, at most 256.
#[tactic(auto, unfolding(definitions::specs::Bytes::Decode::record_count))]
pub fn record_count(s: &[u8], at: usize) -> Result<(u64, usize), Refusal>
    requires { at ≤ length s.now }
    ensures { FieldIs s.now at result decode.record_count }
{
    let (columns, first) = number(s, at, 2)?;
    if 256 < columns {
        return Err(Refusal::OutOfRange);
    }
    Ok((columns, first))
}
