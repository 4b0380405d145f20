// Whole frames, physical and logical, the arity of AND-leaves included.
ghost use Rattle.std.specs.Prelude.{◌≤◌, ◌/◌, min, length};
ghost use Rattle.definitions.specs.Words.Limits.{most_nodes};
ghost use Rattle.definitions.specs.Bytes.Plans as plans;
ghost use Rattle.filter_tree.specs.Trees.{Recorded};
ghost use Rattle.node_reader.specs.Places.{NoClaim};
ghost use Rattle.frame_reader.specs.Frames.{Roomy, BodyRead, PhysicalIs, PhysicalHeld, LogicalIs};

use super::arity::all_have_arguments;
use super::frame_bodies::{Counted, Frame, frame_body, held_body, opened};
use filter_tree::lengths::{MIDDLE_BYTES, MIDDLE_NODES, MOST_NODES, SHORT_BYTES, SHORT_NODES};
use filter_tree::tree::Tree;
use node_reader::call_heads::Columns;
use node_reader::expressions::fill_expression;
use node_table::{NO_RECORD, NodeRecord};
use terms::refusals::Refusal;

// The frame of a body whose nodes are the first of these records, if the bytes end with it and its AND-leaves have their arguments.
fn whole_frame(s: &[u8], nodes: &[NodeRecord], body: Counted<Frame>) -> Result<Frame, Refusal>
    requires { BodyRead s.now nodes.now body }
    ensures { PhysicalIs s.now result (plans.frame_of s.now) (Recorded nodes.now) }
{
    if body.next != s.len() {
        return Err(Refusal::BytesAfterEnd);
    }
    let tree = Tree {
        bytes: s,
        nodes: &nodes[..body.count],
    };
    if !all_have_arguments(tree, 0) {
        return Err(Refusal::TooFewArguments);
    }
    Ok(body.read)
}

// A whole physical frame, whose nodes go into the row.
pub fn physical_frame_in(row: &mut [NodeRecord], s: &[u8]) -> Result<Frame, Refusal>
    requires { Roomy s.now row.old }
    ensures { PhysicalIs s.now result (plans.frame_of s.now) (Recorded row.new) }
{
    let at = opened(s, 1)?;
    let body = frame_body(row, s, at, 0)?;
    whole_frame(s, row, body)
}

// A whole physical frame whose nodes are the table's first; one that has others is refused.
pub fn physical_frame_held(table: &[NodeRecord], s: &[u8]) -> Result<Frame, Refusal>
    ensures { PhysicalHeld s.now table.now result (plans.frame_of s.now) }
{
    let at = opened(s, 1)?;
    let body = held_body(table, s, at)?;
    whole_frame(s, table, body)
}

// A whole physical frame, by a row of N places on the stack, of which its nodes need no more.
fn physical_frame_by<const N: usize>(s: &[u8]) -> Result<Frame, Refusal>
    requires { (min most_nodes (length s.now / 3) ≤ N) × (N ≤ most_nodes) }
    ensures { PhysicalIs s.now result (plans.frame_of s.now) NoClaim }
{
    physical_frame_in(&mut [NO_RECORD; N], s)
}

// A whole physical frame. A short row is enough for a short one, and the longer ones cost more to clear than such a frame to read. (No
// closure is generic in N, so that each call with a row of its own chooses, and each function of N says its bound.)
pub fn physical_frame(s: &[u8]) -> Result<Frame, Refusal>
    ensures { PhysicalIs s.now result (plans.frame_of s.now) NoClaim }
{
    if s.len() <= SHORT_BYTES {
        physical_frame_by::<SHORT_NODES>(s)
    } else if s.len() <= MIDDLE_BYTES {
        physical_frame_by::<MIDDLE_NODES>(s)
    } else {
        physical_frame_by::<MOST_NODES>(s)
    }
}

// A logical frame: where its expression starts, and how many nodes that has.
#[derive(Clone, Copy)]
pub struct LogicalFrame {
    pub root: usize,
    pub nodes: usize,
}

// A whole logical frame, whose nodes go into the row.
pub fn logical_frame_in(row: &mut [NodeRecord], s: &[u8]) -> Result<LogicalFrame, Refusal>
    requires { Roomy s.now row.old }
    ensures { LogicalIs s.now result (plans.logical_of s.now) (Recorded row.new) }
{
    let root = opened(s, 2)?;
    let walked = fill_expression(row, s, root, 0, Columns::Fields)?;
    if walked.next != s.len() {
        return Err(Refusal::BytesAfterEnd);
    }
    Ok(LogicalFrame {
        root,
        nodes: walked.count,
    })
}

// A whole logical frame, by a row of N places on the stack, of which its nodes need no more.
fn logical_frame_by<const N: usize>(s: &[u8]) -> Result<LogicalFrame, Refusal>
    requires { (min most_nodes (length s.now / 3) ≤ N) × (N ≤ most_nodes) }
    ensures { LogicalIs s.now result (plans.logical_of s.now) NoClaim }
{
    logical_frame_in(&mut [NO_RECORD; N], s)
}

// A whole logical frame.
pub fn logical_frame(s: &[u8]) -> Result<LogicalFrame, Refusal>
    ensures { LogicalIs s.now result (plans.logical_of s.now) NoClaim }
{
    if s.len() <= SHORT_BYTES {
        logical_frame_by::<SHORT_NODES>(s)
    } else if s.len() <= MIDDLE_BYTES {
        logical_frame_by::<MIDDLE_NODES>(s)
    } else {
        logical_frame_by::<MOST_NODES>(s)
    }
}
