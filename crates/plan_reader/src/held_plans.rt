// Held plans: nothing, a physical frame, or an extraction.
ghost use Rattle.std.specs.Prelude.{◌≡◌, ◌≤◌, ◌/◌, min, length, get_or};
ghost use Rattle.definitions.specs.Words.Limits.{most_nodes};
ghost use Rattle.definitions.specs.Bytes.Plans as plans;
ghost use Rattle.filter_tree.specs.Trees.{Recorded};
ghost use Rattle.frame_reader.specs.Frames.{Roomy};
ghost use Rattle.node_reader.specs.Places.{NoClaim};
ghost use Rattle.plan_reader.specs.Plans.{WholeIs, HeldIs, HeldByTable};

use super::extraction_bodies::{Extraction, Held, extraction_body};
use filter_tree::lengths::{MIDDLE_BYTES, MIDDLE_NODES, MOST_NODES, SHORT_BYTES, SHORT_NODES};
use frame_reader::frame_bodies::first_byte;
use frame_reader::frames::{physical_frame_held, physical_frame_in};
use node_table::{NO_RECORD, NodeRecord};
use terms::refusals::Refusal;

// A whole extraction; the nodes of its remainder go into the row.
fn whole_extraction(row: &mut [NodeRecord], s: &[u8]) -> Result<Extraction, Refusal>
    requires { Roomy s.now row.old }
    ensures { WholeIs s.now result (plans.extraction_of s.now) }
{
    let (first, at) = first_byte(s)?;
    let (extraction, end) = extraction_body(row, s, at, first)?;
    if end != s.len() {
        return Err(Refusal::BytesAfterEnd);
    }
    Ok(extraction)
}

// What the bytes of a plan hold that is no frame. (Here and below a `match`: by `map` and `map_err` each arm would be a closure.)
fn held_extraction(row: &mut [NodeRecord], s: &[u8]) -> Result<Held, Refusal>
    requires other { get_or s.now 0 0 ≡ 1 → ⊥ }
    requires roomy { Roomy s.now row.old }
    ensures { HeldIs s.now result (plans.plan_of s.now) (Recorded row.new) }
{
    if s.is_empty() {
        return Err(Refusal::PlanEmpty);
    }
    match whole_extraction(row, s) {
        Ok(extraction) => Ok(Held::Extraction(extraction)),
        Err(_) => Err(Refusal::NoGoodPlan),
    }
}

// What the bytes of a plan hold; no byte is the empty plan, and all else is no good one. The nodes of a frame go into the row.
pub fn held_plan_in(row: &mut [NodeRecord], s: &[u8]) -> Result<Held, Refusal>
    requires { Roomy s.now row.old }
    ensures { HeldIs s.now result (plans.plan_of s.now) (Recorded row.new) }
{
    if s.is_empty() || s[0] != 1 {
        return held_extraction(row, s);
    }
    match physical_frame_in(row, s) {
        Ok(frame) => Ok(Held::Frame(frame)),
        Err(_) => Err(Refusal::NoGoodPlan),
    }
}

// The same by a row of N places on the stack, of which its nodes need no more.
fn held_plan_by<const N: usize>(s: &[u8]) -> Result<Held, Refusal>
    requires { (min most_nodes (length s.now / 3) ≤ N) × (N ≤ most_nodes) }
    ensures { HeldIs s.now result (plans.plan_of s.now) NoClaim }
{
    held_plan_in(&mut [NO_RECORD; N], s)
}

// The same for those who look at no node of it. A short row is enough for a short plan.
pub fn held_plan(s: &[u8]) -> Result<Held, Refusal>
    ensures { HeldIs s.now result (plans.plan_of s.now) NoClaim }
{
    if s.len() <= SHORT_BYTES {
        held_plan_by::<SHORT_NODES>(s)
    } else if s.len() <= MIDDLE_BYTES {
        held_plan_by::<MIDDLE_NODES>(s)
    } else {
        held_plan_by::<MOST_NODES>(s)
    }
}

// The same where the nodes of a frame are the table's first; one that has others is no good plan.
pub fn held_plan_by_table(table: &[NodeRecord], s: &[u8]) -> Result<Held, Refusal>
    ensures { HeldByTable s.now table.now result (plans.plan_of s.now) }
{
    if s.is_empty() || s[0] != 1 {
        return held_plan(s);
    }
    match physical_frame_held(table, s) {
        Ok(frame) => Ok(Held::Frame(frame)),
        Err(_) => Err(Refusal::NoGoodPlan),
    }
}
