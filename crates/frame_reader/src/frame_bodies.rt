// A frame's parts, and what is said of a frame that was read.
ghost use Rattle.std.specs.Prelude.{◌≤◌, ◌<◌, ◌-◌, ◌≡◌, length};
ghost use Rattle.definitions.specs.Words.Limits.{two_bytes};
ghost use Rattle.definitions.specs.Bytes.Decode as decode;
ghost use Rattle.node_reader.specs.Fields.{FieldIs, SkippedIs};
ghost use Rattle.filter_tree.specs.Trees.{RecordedIfRoom};
ghost use Rattle.frame_reader.specs.Frames.{HeadIs, BodyIs, BodyHeld, first_of, opening};

use super::column_records::{record_count, records};
use filter_tree::lengths::MOST_BYTES;
use filter_tree::tree::Tree;
use node_reader::call_heads::Columns;
use node_reader::expressions::{fill_expression, held_expression};
use node_reader::field_readers::byte;
use node_reader::walk::Walked;
use node_table::NodeRecord;
use terms::refusals::Refusal;

// A physical frame: how many records it has, where they start, where its expression does, and how many nodes that has.
#[derive(Clone, Copy)]
pub struct Frame {
    pub columns: usize,
    pub records: usize,
    pub root: usize,
    pub nodes: usize,
}

// A frame that was read: where its parts stand in its bytes, and the tree of its nodes.
#[derive(Clone, Copy)]
pub struct FrameTree<'a> {
    pub parts: Frame,
    pub tree: Tree<'a>,
}

// What was read, the place after it, and how many nodes there were up to it.
#[derive(Clone, Copy)]
pub struct Counted<T> {
    pub read: T,
    pub next: usize,
    pub count: usize,
}

// What comes before a frame's expression: how many records it has, where they start, and where the expression does.
#[derive(Clone, Copy)]
pub struct FrameHead {
    pub columns: u64,
    pub records: usize,
    pub root: usize,
}

// The records of a physical frame after its first byte.
#[tactic(auto, unfolding(definitions::specs::Bytes::Decode::frame_body))]
fn frame_head(s: &[u8], at: usize) -> Result<FrameHead, Refusal>
    requires { at ≤ length s.now }
    ensures { HeadIs s.now at result }
{
    let (columns, first) = record_count(s, at)?;
    let root = records(s, first, columns)?;
    Ok(FrameHead {
        columns,
        records: first,
        root,
    })
}

// A frame with this head, whose expression was walked with so many nodes counted before it.
fn body_of(head: FrameHead, walked: Walked, before: usize) -> Counted<Frame>
    requires { before ≤ walked.count }
    ensures { result ≡ record {
      read = record { columns = head.columns; records = head.records; root = head.root; nodes = walked.count - before };
      next = walked.next;
      count = walked.count;
    } }
{
    let frame = Frame {
        columns: head.columns as usize,
        records: head.records,
        root: head.root,
        nodes: walked.count - before,
    };
    Counted {
        read: frame,
        next: walked.next,
        count: walked.count,
    }
}

// A physical frame after its first byte, with so many nodes counted before it; its own go into the row from there on, as far as this has
// places.
pub fn frame_body(
    row: &mut [NodeRecord],
    s: &[u8],
    at: usize,
    nodes: usize,
) -> Result<Counted<Frame>, Refusal>
    requires { (at ≤ length s.now) × (length s.now < two_bytes) }
    ensures { BodyIs s.now at nodes result decode.frame_body (RecordedIfRoom row.new) }
{
    let head = frame_head(s, at)?;
    let walked = fill_expression(row, s, head.root, nodes, Columns::Below(head.columns))?;
    Ok(body_of(head, walked, nodes))
}

// The same of a frame whose nodes are the table's first; one that has others is refused.
pub fn held_body(table: &[NodeRecord], s: &[u8], at: usize) -> Result<Counted<Frame>, Refusal>
    requires { at ≤ length s.now }
    ensures { BodyHeld s.now at table.now result }
{
    let head = frame_head(s, at)?;
    let walked = held_expression(table, s, head.root, 0, Columns::Below(head.columns))?;
    Ok(body_of(head, walked, 0))
}

// The first byte of a frame that is neither empty nor too long.
pub fn first_byte(s: &[u8]) -> Result<(u64, usize), Refusal>
    ensures { FieldIs s.now 0 result first_of }
{
    if s.is_empty() || MOST_BYTES < s.len() {
        return Err(Refusal::EmptyOrTooLong);
    }
    byte(s, 0)
}

// The length and the first byte of a frame of this sort, which is the document's first byte: the place after them.
#[tactic(auto, unfolding(crate::specs::Frames::opening))]
pub fn opened(s: &[u8], sort: u64) -> Result<usize, Refusal>
    ensures { SkippedIs s.now 0 result (opening sort) }
{
    let (first, next) = first_byte(s)?;
    if first != sort {
        return Err(Refusal::WrongFirstByte);
    }
    Ok(next)
}
