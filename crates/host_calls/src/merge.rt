// All of merge but the table, the answer as a host gets it. Public for `spatialjoin_c`.
ghost use Rattle.std.specs.Prelude.{◌+◌, ◌/◌, ◌≤◌, ◌≡◌, min, length};
ghost use Rattle.definitions.specs.Words.Limits.{most_nodes};
ghost use Rattle.node_table.specs.Records.{RowHas};
ghost use Rattle.host_calls.specs.Cores.{MergeLeft};

use super::cores::{HostLoaded, left_by};
use call_merge::call::{merge, merge_row};
use node_table::NodeRecord;

// The new plan's nodes are then the row's first.
pub fn merge_row_core<const N: usize>(
    row: &mut [NodeRecord],
    frame: &[u8],
    plan: &mut [u8],
    n: usize,
    scratch: &mut [u8],
    held: usize,
) -> HostLoaded
    requires row_length { length row.old ≡ N }
    requires places { (min most_nodes ((n + length frame.now) / 3) ≤ N) × (N ≤ most_nodes) }
    ensures { MergeLeft frame.now n plan.old scratch.old plan.new scratch.new held result
        × RowHas plan.new result.root result.count row.new }
{
    left_by(merge_row::<N>(row, plan, n, scratch, frame, held))
}

// The same without a row.
pub fn merge_core(
    frame: &[u8],
    plan: &mut [u8],
    n: usize,
    scratch: &mut [u8],
    held: usize,
) -> HostLoaded
    ensures { MergeLeft frame.now n plan.old scratch.old plan.new scratch.new held result }
{
    left_by(merge(plan, n, scratch, frame, held))
}
