// The walk over a node and the walk over its children, which call each other, whatever is done with the nodes. Nodes left to count fall.
ghost use Rattle.std.specs.Prelude.{ℕ, ◌≤◌, ◌≡◌, length};
ghost use Rattle.definitions.specs.Words.Limits.{most_nodes};
ghost use Rattle.definitions.specs.Bytes.Decode as decode;
ghost use Rattle.definitions.specs.Bytes.Decode.{repeat_exprs};
ghost use Rattle.node_reader.specs.Heads.{columns_in};
ghost use Rattle.node_reader.specs.Nodes.{most_at};
ghost use Rattle.node_reader.specs.Visits.{NodeOpened, NodeVisit, RowVisit, Counted, placed};

use super::call_heads::Source;
use super::head_readers::{head_of_kind, limit_refusal};
use super::visits::Visit;
use expression::heads::Head;
use filter_tree::lengths::MOST_NODES;
use terms::refusals::Refusal;

// The place after nodes, and how many nodes there were up to it.
#[derive(Clone, Copy)]
pub struct Walked {
    pub next: usize,
    pub count: usize,
}

// How many nodes may be counted before one with this many levels left.
#[inline(always)]
fn most_before(levels: usize) -> usize
    ensures { result ≡ most_at levels }
{
    if levels == 0 { 0 } else { MOST_NODES }
}

// A node's head is read, and the node is opened; a leaf is done with.
#[inline(always)]
fn open_node<V: Visit, const COLUMN: u8>(
    v: &mut V,
    source: &Source,
    here: Walked,
    most: usize,
) -> Result<Head, Refusal>
    requires place { here.next ≤ length source.now.bytes.now }
    requires places { (p : ℕ) → p ≤ length source.now.bytes.now → V.deeds.Place p }
    ensures { (levels : ℕ) → most ≡ most_at levels → NodeOpened V.deeds source.now.bytes.now here.next levels here.count
        (columns_in COLUMN source.now.bound) result v.old v.new }
{
    let at = here.next;
    let s = source.bytes;
    if s.len() <= at {
        return Err(Refusal::EndsInsideField);
    }
    if most <= here.count {
        return Err(limit_refusal::<COLUMN>(s, at));
    }
    let kind = s[at];
    let head = head_of_kind::<COLUMN>(source, at, kind)?;
    // Most nodes are leaves, and need no walk of children.
    if head.children == 0 {
        if !v.leaf(here.count, kind, at, head.next) {
            return Err(Refusal::NoGoodPlan);
        }
        return Ok(head);
    }
    if !v.open(here.count, kind, at) {
        return Err(Refusal::NoGoodPlan);
    }
    Ok(head)
}

// A node and all below it, with this many levels left. What is below it counts on in `reached`: one place for all levels, since a place of
// its own would be cleared for each node.
#[inline(always)]
#[cycle(walks)]
fn node<V: Visit, const COLUMN: u8>(
    v: &mut V,
    source: &Source,
    reached: &mut Walked,
    here: Walked,
    levels: usize,
    most: usize,
) -> Result<Walked, Refusal>
    requires place { here.next ≤ length source.now.bytes.now }
    requires limit { most ≡ most_at levels }
    requires places { (p : ℕ) → p ≤ length source.now.bytes.now → V.deeds.Place p }
    ensures read { NodeVisit V.deeds source.now.bytes.now here.next here.count result
        (decode.node (columns_in COLUMN source.now.bound) levels) v.old v.new }
    ensures counted { Counted here.count 0 result }
{
    let head = open_node::<V, COLUMN>(v, source, here, most)?;
    let first = Walked {
        next: head.next,
        count: here.count + 1,
    };
    if head.children == 0 {
        return Ok(first);
    }
    *reached = first;
    children::<V, COLUMN>(v, source, reached, head.children, levels - 1)?;
    let after = *reached;
    if !v.close(here.count, after.next) {
        return Err(Refusal::NoGoodPlan);
    }
    Ok(after)
}

// A node's children, one after the other, each with this many levels left. Each is held to the limit; where there is none, the caller says
// it. Only the refusal is returned: it stands in registers, and the place with it would not.
#[inline(never)]
#[cycle(walks)]
pub fn children<V: Visit, const COLUMN: u8>(
    v: &mut V,
    source: &Source,
    reached: &mut Walked,
    many: usize,
    levels: usize,
) -> Result<(), Refusal>
    requires place { (reached.old.next ≤ length source.now.bytes.now)
        × (many ≡ 0 → reached.old.count ≤ most_nodes) }
    requires places { (p : ℕ) → p ≤ length source.now.bytes.now → V.deeds.Place p }
    ensures read { RowVisit V.deeds source.now.bytes.now reached.old.next reached.old.count (placed result reached.new)
        (repeat_exprs many (decode.node (columns_in COLUMN source.now.bound) levels)) v.old v.new }
    ensures counted { Counted reached.old.count 1 (placed result reached.new) }
{
    let most = most_before(levels);
    let mut here = *reached;
    for _ in 0..many {
        here = node::<V, COLUMN>(v, source, reached, here, levels, most)?;
    }
    *reached = here;
    Ok(())
}
