// Fields: a byte, a number of some width, a byte in a range, a side. Each reader gives what it read and the place after it. That
// the place is within the bytes is a clause of each reader: with a ghost field of bytes and place, which was tried, each answer has to
// promise the same bytes again.
ghost use Rattle.std.specs.Prelude.{◌≡◌, ◌≤◌, ◌+◌, length};
ghost use Rattle.definitions.specs.Bytes.Decode as decode;
ghost use Rattle.definitions.specs.Bytes.Readers as readers;
ghost use Rattle.node_reader.specs.Fields.{FieldIs, SideIs, long_at};

use terms::refusals::Refusal;
use terms::sides::JoinSide;

// A number of `width` bytes.
pub fn number(s: &[u8], at: usize, width: usize) -> Result<(u64, usize), Refusal>
    requires { (at ≤ length s.now) × (width ≤ 8) }
    ensures { FieldIs s.now at result (readers.number width) }
{
    if s.len() - at < width {
        return Err(Refusal::EndsInsideField);
    }
    let end = at + width;
    let mut value = 0;
    for b in &s[at..end] {
        value = value * 256 + u64::from(*b);
    }
    Ok((value, end))
}

// The number in the eight bytes at a place.
#[inline(always)]
pub fn long_at(s: &[u8], at: usize) -> u64
    requires { at + 8 ≤ length s.now }
    ensures { result ≡ long_at s.now at }
{
    u64::from_be_bytes([
        s[at],
        s[at + 1],
        s[at + 2],
        s[at + 3],
        s[at + 4],
        s[at + 5],
        s[at + 6],
        s[at + 7],
    ])
}

// The byte at a place.
pub fn byte(s: &[u8], at: usize) -> Result<(u64, usize), Refusal>
    requires { at ≤ length s.now }
    ensures { FieldIs s.now at result readers.byte }
{
    if s.len() <= at {
        return Err(Refusal::EndsInsideField);
    }
    Ok((u64::from(s[at]), at + 1))
}

// A byte of at most `most`.
#[tactic(auto, unfolding(definitions::specs::Bytes::Readers::byte_up_to, definitions::specs::Bytes::Readers::byte_between))]
pub fn byte_up_to(s: &[u8], at: usize, most: u64) -> Result<(u64, usize), Refusal>
    requires { at ≤ length s.now }
    ensures { FieldIs s.now at result (readers.byte_up_to most) }
{
    byte_between(s, at, 0, most)
}

// A byte from `least` to `most`.
#[tactic(auto, unfolding(definitions::specs::Bytes::Readers::byte_between))]
pub fn byte_between(s: &[u8], at: usize, least: u64, most: u64) -> Result<(u64, usize), Refusal>
    requires { at ≤ length s.now }
    ensures { FieldIs s.now at result (readers.byte_between least most) }
{
    let (value, next) = byte(s, at)?;
    if value < least || most < value {
        return Err(Refusal::OutOfRange);
    }
    Ok((value, next))
}

// A side with a number of at most `most`.
#[tactic(auto, unfolding(definitions::specs::Bytes::Decode::side_up_to))]
pub fn side_up_to(s: &[u8], at: usize, most: u64) -> Result<(JoinSide, usize), Refusal>
    requires { at ≤ length s.now }
    ensures { SideIs s.now at result (decode.side_up_to most) }
{
    let (number, next) = byte_up_to(s, at, most)?;
    Ok((JoinSide::from(number), next))
}
