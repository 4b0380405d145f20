// A node's head: its kind, and the fields before its children.
ghost use Rattle.std.specs.Prelude.{ℕ, ◌≡◌, ◌≤◌, ◌<◌, ◌+◌, length};
ghost use Rattle.definitions.specs.Bytes.Decode as decode;
ghost use Rattle.node_reader.specs.Heads.{HeadIs, CutFieldIs, BeyondIs, any_kind, OtherKind, columns_in};

use super::call_heads::{Source, call_head};
use super::field_readers::long_at;
use expression::fields::short_at;
use expression::heads::Head;
use expression::kinds;
use expression::literals::literal_in_range;
use terms::refusals::Refusal;

// Whether a node of this kind may stand in the frame.
fn allowed_kind<const COLUMN: u8>(kind: u8) -> bool
    ensures { (bound : ℕ) → result ≡ decode.allowed_kind (columns_in COLUMN bound) kind }
{
    if COLUMN == kinds::COLUMN {
        kind <= kinds::OTHER
    } else {
        kinds::LITERAL <= kind && kind <= kinds::FIELD
    }
}

// The refusal of a node that is beyond a limit: a kind that may not stand there comes first.
#[cold]
#[inline(never)]
pub fn limit_refusal<const COLUMN: u8>(s: &[u8], at: usize) -> Refusal
    requires { at < length s.now }
    ensures { (bound : ℕ) → BeyondIs s.now at (columns_in COLUMN bound) result }
{
    if allowed_kind::<COLUMN>(s[at]) {
        Refusal::TooManyOrTooDeep
    } else {
        Refusal::OutOfRange
    }
}

// The refusal of fields that run over the end: a first one of more than `most` comes first.
#[cold]
#[inline(never)]
pub fn cut_field(s: &[u8], at: usize, most: u8) -> Refusal
    requires { at ≤ length s.now }
    ensures { CutFieldIs s.now at most result }
{
    if at < s.len() && most < s[at] {
        return Refusal::OutOfRange;
    }
    Refusal::EndsInsideField
}

// A physical column: its index and its name's tag.
#[inline(always)]
fn column_head(s: &[u8], at: usize, bound: u64) -> Result<Head, Refusal>
    requires { at < length s.now }
    ensures { HeadIs s.now (at + 1) result (λ child. decode.column_node bound) }
{
    if s.len() - at < 5 {
        return Err(Refusal::EndsInsideField);
    }
    if bound <= short_at(s, at + 1) as u64 {
        return Err(Refusal::NoSuchColumn);
    }
    Ok(Head {
        next: at + 5,
        children: 0,
    })
}

// A logical column: which schemas have it, and its tag.
#[inline(always)]
fn field_head(s: &[u8], at: usize) -> Result<Head, Refusal>
    requires { at < length s.now }
    ensures { HeadIs s.now (at + 1) result (λ child. decode.field_node) }
{
    if s.len() - at < 4 {
        return Err(cut_field(s, at + 1, 3));
    }
    if 3 < s[at + 1] {
        return Err(Refusal::OutOfRange);
    }
    Ok(Head {
        next: at + 4,
        children: 0,
    })
}

// A column of the sort that the frame has, if it is one.
#[inline(always)]
fn any_column_head<const COLUMN: u8>(source: &Source, at: usize, kind: u8) -> Result<Head, Refusal>
    requires place { at < length source.now.bytes.now }
    requires other { OtherKind kind }
    ensures { HeadIs source.now.bytes.now (at + 1) result (any_kind (columns_in COLUMN source.now.bound) kind) }
{
    if COLUMN == kinds::COLUMN {
        if kind == kinds::COLUMN {
            return column_head(source.bytes, at, source.bound);
        }
    } else if kind == kinds::FIELD {
        return field_head(source.bytes, at);
    }
    Err(Refusal::OutOfRange)
}

// A literal: its type and eight bytes.
#[inline(always)]
fn literal_head(s: &[u8], at: usize) -> Result<Head, Refusal>
    requires { at < length s.now }
    ensures { HeadIs s.now (at + 1) result (λ child. decode.literal_node) }
{
    if s.len() - at < 10 {
        return Err(cut_field(s, at + 1, 6));
    }
    let kind = s[at + 1];
    if 6 < kind || !literal_in_range(u64::from(kind), long_at(s, at + 2)) {
        return Err(Refusal::OutOfRange);
    }
    Ok(Head {
        next: at + 10,
        children: 0,
    })
}

// A binary operator: And, a comparison or any other, with its two children to come.
#[inline(always)]
fn binary_head(s: &[u8], at: usize) -> Result<Head, Refusal>
    requires { at < length s.now }
    ensures { HeadIs s.now (at + 1) result decode.binary_node }
{
    if s.len() - at < 2 {
        return Err(Refusal::EndsInsideField);
    }
    if 63 < s[at + 1] {
        return Err(Refusal::OutOfRange);
    }
    Ok(Head {
        next: at + 2,
        children: 2,
    })
}

// Any other node: its tag, and its children to come.
#[inline(always)]
fn other_head(s: &[u8], at: usize) -> Result<Head, Refusal>
    requires { at < length s.now }
    ensures { HeadIs s.now (at + 1) result decode.other_node }
{
    if s.len() - at < 4 {
        return Err(Refusal::EndsInsideField);
    }
    let children = s[at + 3];
    if 16 < children {
        return Err(Refusal::OutOfRange);
    }
    Ok(Head {
        next: at + 4,
        children: usize::from(children),
    })
}

// The fields of a node of this kind, which may be one that may not stand in the frame. Which columns may, those of kind 0 or those of
// kind 5, is a parameter, so that it is not looked at for each node.
#[inline(always)]
pub fn head_of_kind<const COLUMN: u8>(source: &Source, at: usize, kind: u8) -> Result<Head, Refusal>
    requires { at < length source.now.bytes.now }
    ensures { HeadIs source.now.bytes.now (at + 1) result (any_kind (columns_in COLUMN source.now.bound) kind) }
{
    let s = source.bytes;
    match kind {
        kinds::LITERAL => literal_head(s, at),
        kinds::BINARY => binary_head(s, at),
        kinds::CALL => call_head(s, at),
        kinds::OTHER => other_head(s, at),
        _ => any_column_head::<COLUMN>(source, at, kind),
    }
}
