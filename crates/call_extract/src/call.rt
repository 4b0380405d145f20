// The call extract.
// A port of `transform_join_filter` of
// rust/sedona-query-planner/src/spatial_expr_utils.rs.
ghost use Rattle.std.specs.Prelude.{◌/◌, ◌≤◌, min, length, take, Ok};
ghost use Rattle.definitions.specs.Words.Limits.{most_nodes};
ghost use Rattle.definitions.specs.Bytes.Plans as plans;
ghost use Rattle.definitions.specs.Calls.Base as definitions;
ghost use Rattle.definitions.specs.Filter.Settings.{match_under};
ghost use Rattle.terms.specs.Settings.{settings_of};
ghost use Rattle.call_answers.specs.Outcomes.{ExtractIs};
ghost use Rattle.plan_reader.specs.Plans.{HeldIs};
ghost use Rattle.filter_tree.specs.Trees.{Recorded};
ghost use Rattle.node_table.specs.Records.{nodes_of};
ghost use Rattle.call_extract.specs.ExtractByTable.{ExtractsWith};
ghost use Rattle.call_extract.specs.Settled.{SettledBy, filled_under, walk_under};

use super::held_frame::{HeldFrame, extract_frame};
use call_answers::answers::Extracted;
use filter_tree::lengths::{MIDDLE_BYTES, MIDDLE_NODES, MOST_NODES, SHORT_BYTES, SHORT_NODES};
use node_table::{NO_RECORD, NodeRecord};
use plan_reader::extraction_bodies::Held;
use plan_reader::held_plans::{held_plan_by_table, held_plan_in};
use terms::checked::Checked;
use terms::refusals::Refusal;
use terms::settings::Settings;

// What was read, where the nodes of a frame are the first of these records.
fn extract_held(
    plan: &mut [u8],
    n: usize,
    scratch: &mut [u8],
    held: Held,
    nodes: &[NodeRecord],
    settings: Checked,
) -> Extracted
    requires n_in_bounds { n ≤ length plan.old }
    requires read { HeldIs (take n plan.old) (Ok held) (plans.plan_of (take n plan.old)) (Recorded nodes.now) }
    ensures { ExtractIs (definitions.extract_filled_by (match_under (settings_of settings.settings)) n plan.old scratch.old)
        (definitions.walk_filled_by (match_under (settings_of settings.settings)) n plan.old scratch.old) n plan.new
        scratch.new result }
{
    match held {
        Held::Extraction(_) => Extracted::refused(Refusal::AlreadyExtracted),
        Held::Frame(frame) => {
            let nodes = &nodes[..frame.nodes];
            extract_frame(plan, n, scratch, HeldFrame { frame, nodes }, settings)
        }
    }
}

// Its nodes go into a row of N places if it is a frame: it has no more.
fn extract_by_row<const N: usize>(
    plan: &mut [u8],
    n: usize,
    scratch: &mut [u8],
    settings: Checked,
) -> Extracted
    requires n_in_bounds { n ≤ length plan.old }
    requires row_length { (min most_nodes (n / 3) ≤ N) × (N ≤ most_nodes) }
    ensures { ExtractIs (definitions.extract_filled_by (match_under (settings_of settings.settings)) n plan.old scratch.old)
        (definitions.walk_filled_by (match_under (settings_of settings.settings)) n plan.old scratch.old) n plan.new
        scratch.new result }
{
    let mut row = [NO_RECORD; N];
    match held_plan_in(&mut row, &plan[..n]) {
        Err(why) => Extracted::refused(why),
        Ok(held) => extract_held(plan, n, scratch, held, &row, settings),
    }
}

// A frame that is held has the lent table's first records.
fn extract_lent(
    plan: &mut [u8],
    n: usize,
    scratch: &mut [u8],
    table: &[NodeRecord],
    settings: Checked,
) -> Extracted
    requires { n ≤ length plan.old }
    ensures { ExtractsWith (match_under (settings_of settings.settings)) n plan.old scratch.old (nodes_of table.now)
        plan.new scratch.new result }
{
    match held_plan_by_table(table, &plan[..n]) {
        Err(why) => Extracted::refused(why),
        Ok(held) => extract_held(plan, n, scratch, held, table, settings),
    }
}

// 24 before every other check. Short rows are enough for a short plan, and the longer ones cost more to clear than such a frame to read.
pub(crate) fn extract_settled(
    plan: &mut [u8],
    n: usize,
    scratch: &mut [u8],
    table: Option<&[NodeRecord]>,
    settings: Settings,
) -> Extracted
    ensures { SettledBy (settings_of settings) n table.entry plan.old scratch.old plan.new scratch.new result }
{
    let settings = match settings.checked() {
        Ok(checked) => checked,
        Err(bad) => return Extracted::refused(bad),
    };
    if plan.len() < n {
        return Extracted::refused(Refusal::NoGoodPlan);
    }
    match table {
        Some(table) => extract_lent(plan, n, scratch, table, settings),
        None if n <= SHORT_BYTES => extract_by_row::<SHORT_NODES>(plan, n, scratch, settings),
        None if n <= MIDDLE_BYTES => extract_by_row::<MIDDLE_NODES>(plan, n, scratch, settings),
        None => extract_by_row::<MOST_NODES>(plan, n, scratch, settings),
    }
}

// The frame's own nodes are its table.
pub fn extract(plan: &mut [u8], n: usize, scratch: &mut [u8], settings: Settings) -> Extracted
    ensures { ExtractIs (filled_under (settings_of settings) n plan.old scratch.old)
        (walk_under (settings_of settings) n plan.old scratch.old) n plan.new scratch.new result }
{
    extract_settled(plan, n, scratch, None, settings)
}
