// Expressions of depth at most 64, read by the two walks: into a row of records, against a lent table, or for their refusals alone.
ghost use Rattle.std.specs.Prelude.{ℕ, ◌≡◌, ◌≤◌, ◌<◌, length};
ghost use Rattle.definitions.specs.Words.Limits.{two_bytes};
ghost use Rattle.definitions.specs.Bytes.Decode as decode;
ghost use Rattle.node_reader.specs.Heads.{columns_of, columns_in};
ghost use Rattle.node_reader.specs.Visits.{NodeVisit, Counted};
ghost use Rattle.filter_tree.specs.Trees.{RecordedIfRoom};
ghost use Rattle.node_reader.specs.Places.{ExpressionIs, ExpressionHeld, NoClaim};

use super::call_heads::{Columns, Source};
use super::visitors::{Check, Fill, Nothing};
use super::visits::Visit;
use super::walk::{Walked, children};
use filter_tree::lengths::MOST_LEVELS;
use node_table::NodeRecord;
use terms::refusals::Refusal;

// The root is the one child of no node.
#[inline(always)]
fn only_child<V: Visit, const COLUMN: u8>(
    v: &mut V,
    source: &Source,
    at: usize,
    count: usize,
) -> Result<Walked, Refusal>
    requires place { at ≤ length source.now.bytes.now }
    requires places { (p : ℕ) → p ≤ length source.now.bytes.now → V.deeds.Place p }
    ensures read { NodeVisit V.deeds source.now.bytes.now at count result
        (decode.node (columns_in COLUMN source.now.bound) 64) v.old v.new }
    ensures counted { Counted count 1 result }
{
    let mut reached = Walked { next: at, count };
    children::<V, COLUMN>(v, source, &mut reached, 1, MOST_LEVELS)?;
    Ok(reached)
}

// The root, with the columns that the frame may have.
#[inline(always)]
pub fn root<V: Visit>(
    v: &mut V,
    s: &[u8],
    at: usize,
    count: usize,
    columns: Columns,
) -> Result<Walked, Refusal>
    requires place { at ≤ length s.now }
    requires places { (p : ℕ) → p ≤ length s.now → V.deeds.Place p }
    ensures read { NodeVisit V.deeds s.now at count result
        (decode.node (columns_of columns) 64) v.old v.new }
{
    match columns {
        Columns::Below(bound) => only_child::<V, 0>(v, &Source { bytes: s, bound }, at, count),
        Columns::Fields => only_child::<V, 5>(v, &Source { bytes: s, bound: 0 }, at, count),
    }
}

// An expression of depth at most 64, whose nodes go into the row from `count` on, as far as this has places.
pub fn fill_expression(
    row: &mut [NodeRecord],
    s: &[u8],
    at: usize,
    count: usize,
    columns: Columns,
) -> Result<Walked, Refusal>
    requires { (at ≤ length s.now) × (length s.now < two_bytes) }
    ensures { ExpressionIs s.now at count result (columns_of columns) (RecordedIfRoom row.new) }
{
    let mut fill = Fill { row };
    root(&mut fill, s, at, count, columns)
}

// An expression whose nodes are the table's from `count` on: if it is not there, or the table has other nodes, it is refused.
pub fn held_expression(
    table: &[NodeRecord],
    s: &[u8],
    at: usize,
    count: usize,
    columns: Columns,
) -> Result<Walked, Refusal>
    requires { at ≤ length s.now }
    ensures { ExpressionHeld s.now at count table.now result (columns_of columns) }
{
    let mut check = Check { table };
    root(&mut check, s, at, count, columns)
}

// An expression, for its refusals and its end.
pub fn expression(s: &[u8], at: usize, count: usize, columns: Columns) -> Result<Walked, Refusal>
    requires { at ≤ length s.now }
    ensures { ExpressionIs s.now at count result (columns_of columns) NoClaim }
{
    let mut nothing = Nothing {};
    root(&mut nothing, s, at, count, columns)
}
