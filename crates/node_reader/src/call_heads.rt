// What a node's head says, and the head of a call.
ghost use Rattle.std.specs.Prelude.{◌<◌, ◌+◌, length};
ghost use Rattle.definitions.specs.Bytes.Decode as decode;
ghost use Rattle.node_reader.specs.Heads.{HeadIs};

use super::names::{cut_name, good_name};
use expression::heads::Head;
use terms::refusals::Refusal;

// Which columns an expression may have: those of a physical frame, below their count, or those of a logical one. Two sorts of frames, of
// which none lacks a bound.
#[derive(Clone, Copy)]
pub enum Columns {
    Below(u64),
    Fields,
}

// Bytes, and the bound of the columns that their expressions may have, if these are physical ones.
#[derive(Clone, Copy)]
pub struct Source<'a> {
    pub bytes: &'a [u8],
    pub bound: u64,
}

// A function call: its name, and its arguments to come. One test of the length where all is there.
#[inline(always)]
pub fn call_head(s: &[u8], at: usize) -> Result<Head, Refusal>
    requires { at < length s.now }
    ensures { HeadIs s.now (at + 1) result decode.call_node }
{
    let left = s.len() - at;
    if left < 2 {
        return Err(Refusal::EndsInsideField);
    }
    let size = usize::from(s[at + 1]);
    if size == 0 || 32 < size {
        return Err(Refusal::OutOfRange);
    }
    if left < size + 3 {
        return Err(cut_name(s, at + 2));
    }
    let many = at + 2 + size;
    let children = s[many];
    if !good_name(s, at + 2, size) || 16 < children {
        return Err(Refusal::OutOfRange);
    }
    Ok(Head {
        next: many + 1,
        children: usize::from(children),
    })
}
