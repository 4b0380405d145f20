// What C and Rust hosts call: the crate `spatialjoin_c_c` exports each of these functions under its name, and include/spatialjoin.h
// declares it. Each answer is a number of 64 bits; the buffers are as the definitions' calls leave them.
#![tactic(auto)]

ghost use Rattle.std.specs.Prelude.{◌+◌, ◌/◌, ◌≤◌, ◌≡◌, min, length, pos};
ghost use Rattle.definitions.specs.Words.Limits.{most_nodes};
ghost use Rattle.definitions.specs.Calls.Base as definitions;
ghost use Rattle.host_calls.specs.Hosts.{hosted_names};
ghost use Rattle.definitions.specs.Calls.Logical as logicals;
ghost use Rattle.definitions.specs.Calls.Merge as merges;
ghost use Rattle.definitions.specs.Calls.Project as projects;
ghost use Rattle.definitions.specs.Calls.QueueBytes as queued;
ghost use Rattle.definitions.specs.Calls.Settings as settled;
ghost use Rattle.definitions.specs.Calls.Explain as explaining;
ghost use Rattle.spatialjoin_c.specs.Version.{version};
ghost use Rattle.node_table.specs.Records.{nodes_of};
ghost use Rattle.host_calls.specs.Hosted.{LoadHosted, CallHosted, settings_by, ExtractHosted, MergeHosted, PrintHosted, PutHosted, ServeHosted, AllHosted, ExplainHosted};

use filter_tree::lengths::{
    FEW_BYTES, FEW_NODES, FEWEST_BYTES, FEWEST_NODES, MANY_BYTES, MANY_NODES, MIDDLE_BYTES,
    MIDDLE_NODES, MOST_NODES, SHORT_BYTES, SHORT_NODES,
};
use host_calls::exchange::exchange_number;
use host_calls::explain::explain_number;
use host_calls::extract::extract_number;
use host_calls::extract_all::all_number;
use host_calls::load::load_core;
use host_calls::logical::logical_number;
use host_calls::merge::merge_row_core;
use host_calls::print::print_number;
use host_calls::project::project_number;
use host_calls::put::put_call_number;
use host_calls::serve::serve_number;
use host_calls::settings::host_settings;
use node_table::{NO_RECORD, NodeRecord, put_nodes};

// A load with a row of N places for the frame's nodes, which are no more.
fn load_by<const N: usize>(frame: &[u8], plan: &mut [u8], table: &mut [NodeRecord]) -> i64
    requires { (min most_nodes (length frame.now / 3) ≤ N) × (N ≤ most_nodes) }
    ensures { LoadHosted frame.now plan.old plan.new (nodes_of table.old)
        (nodes_of table.new) result }
{
    let mut row = [NO_RECORD; N];
    let loaded = load_core(&mut row, frame, plan, table.len());
    put_nodes(table, &row[..loaded.count]);
    loaded.answer
}

// Loads a frame as the new plan and fills the table with its nodes; reads nothing of what both held. Short rows are
// enough for a short frame, and the longer ones cost more to clear than such a frame to read.
pub fn spatialjoin_load(frame: &[u8], plan: &mut [u8], table: &mut [NodeRecord]) -> i64
    ensures { LoadHosted frame.now plan.old plan.new (nodes_of table.old)
        (nodes_of table.new) result }
{
    if frame.len() <= SHORT_BYTES {
        load_by::<SHORT_NODES>(frame, plan, table)
    } else if frame.len() <= MIDDLE_BYTES {
        load_by::<MIDDLE_NODES>(frame, plan, table)
    } else {
        load_by::<MOST_NODES>(frame, plan, table)
    }
}

// Pulls the predicate out of the plan in the first n bytes, by the table of the nodes of the frame that is held. The settings are the kinds
// allowed (bit 0 relation, bit 1 distance, bit 2 KNN), the default k and the greatest k. (Seven parameters are the C interface.)
pub fn spatialjoin_extract(
    plan: &mut [u8],
    n: usize,
    scratch: &mut [u8],
    table: &[NodeRecord],
    kinds: u8,
    default_k: u32,
    greatest_k: u32,
) -> i64
    ensures { ExtractHosted plan.old
        (settled.extract_under (settings_by kinds default_k greatest_k) n plan.old scratch.old
        (nodes_of table.now))
        (settled.extract_walk_under (settings_by kinds default_k greatest_k) n plan.old scratch.old
        (nodes_of table.now))
        plan.new scratch.new result }
{
    let settings = host_settings(kinds, default_k, greatest_k);
    extract_number(plan, n, scratch, table, settings)
}

// Exchanges the join's children in the plan in the first n bytes.
pub fn spatialjoin_exchange(plan: &mut [u8], n: usize, scratch: &mut [u8]) -> i64
    ensures { CallHosted plan.old (definitions.exchange n plan.old scratch.old)
        plan.new scratch.new result }
{
    exchange_number(plan, n, scratch)
}

// The spatial names of a logical frame, how many they are, and its KNN query side.
pub fn spatialjoin_logical(frame: &[u8]) -> i64
    ensures { result ≡ hosted_names (logicals.logical frame.now) }
{
    logical_number(frame)
}

// Writes the expression of a frame as text.
pub fn spatialjoin_print(frame: &[u8], text: &mut [u8]) -> i64
    ensures { PrintHosted frame.now text.old text.new result }
{
    print_number(frame, text)
}

// A merge with rows of N places for both frames' nodes and the merged frame's, which are no more.
fn merge_by<const N: usize>(
    frame: &[u8],
    plan: &mut [u8],
    n: usize,
    scratch: &mut [u8],
    table: &mut [NodeRecord],
) -> i64
    requires { (min most_nodes ((n + length frame.now) / 3) ≤ N) × (N ≤ most_nodes) }
    ensures { MergeHosted frame.now plan.old
        (merges.merge frame.now n plan.old scratch.old
        (nodes_of table.old)) plan.new scratch.new (nodes_of table.new) result }
{
    let mut row = [NO_RECORD; N];
    let merged = merge_row_core::<N>(&mut row, frame, plan, n, scratch, table.len());
    put_nodes(table, &row[..merged.count]);
    merged.answer
}

// Joins a frame's filter to that of the plan in the first n bytes, and fills the table with the new plan's nodes.
pub fn spatialjoin_merge(
    frame: &[u8],
    plan: &mut [u8],
    n: usize,
    scratch: &mut [u8],
    table: &mut [NodeRecord],
) -> i64
    ensures { MergeHosted frame.now plan.old
        (merges.merge frame.now n plan.old scratch.old
        (nodes_of table.old)) plan.new scratch.new (nodes_of table.new) result }
{
    let both = n.saturating_add(frame.len());
    if both <= FEWEST_BYTES {
        merge_by::<FEWEST_NODES>(frame, plan, n, scratch, table)
    } else if both <= FEW_BYTES {
        merge_by::<FEW_NODES>(frame, plan, n, scratch, table)
    } else if both <= MIDDLE_BYTES {
        merge_by::<MIDDLE_NODES>(frame, plan, n, scratch, table)
    } else if both <= MANY_BYTES {
        merge_by::<MANY_NODES>(frame, plan, n, scratch, table)
    } else {
        merge_by::<MOST_NODES>(frame, plan, n, scratch, table)
    }
}

// Puts the plan's extraction, in the first n bytes, on children narrowed to lists of their columns.
pub fn spatialjoin_project(
    plan: &mut [u8],
    n: usize,
    scratch: &mut [u8],
    left: &[u16],
    right: &[u16],
) -> i64
    ensures { CallHosted plan.old
        (projects.project n plan.old scratch.old left.now right.now)
        plan.new scratch.new result }
{
    project_number(plan, n, scratch, left, right)
}

// The version of this archive: major · 65,536 + minor · 256 + patch. The header and the cargo package have the same.
pub fn spatialjoin_version() -> i64
    ensures { result ≡ pos version }
{
    0 * 65536 + 15 * 256 + 1
}

// Adds a frame at the end of a queue of two that share a buffer; nothing looks into the frame.
pub fn spatialjoin_put(queues: &mut [u8], queue: u8, frame: &[u8]) -> i64
    ensures { PutHosted (queued.put queues.old queue frame.now) queues.new result }
{
    put_call_number(queues, queue, frame)
}

// Gives the frame that is due: the oldest of the queue that was not served last, or of the other where that one is empty.
pub fn spatialjoin_serve(queues: &mut [u8], out: &mut [u8]) -> i64
    ensures { ServeHosted (queued.serve queues.old out.old) queues.new
        out.new result }
{
    serve_number(queues, out)
}

// Writes all indexable conjuncts of a frame under settings: rounds · 65,536 + length.
pub fn spatialjoin_extract_all(
    frame: &[u8],
    out: &mut [u8],
    kinds: u8,
    default_k: u32,
    greatest_k: u32,
) -> i64
    ensures { AllHosted frame.now (settled.extract_all_under (settings_by kinds default_k greatest_k) frame.now
        out.old) out.new result }
{
    all_number(frame, out, host_settings(kinds, default_k, greatest_k))
}

// Writes the verdict of each conjunct of a frame under settings: (line · 65,536 + position) · 65,536 + count.
pub fn spatialjoin_explain(
    frame: &[u8],
    verdicts: &mut [u8],
    kinds: u8,
    default_k: u32,
    greatest_k: u32,
) -> i64
    ensures { ExplainHosted frame.now (explaining.explain (settings_by kinds default_k greatest_k) frame.now
        verdicts.old) verdicts.new result }
{
    explain_number(frame, verdicts, host_settings(kinds, default_k, greatest_k))
}
