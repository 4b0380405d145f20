// All of load but the table, the answer as a host gets it. Public for `spatialjoin_c`.
ghost use Rattle.frame_reader.specs.Frames.{Roomy};
ghost use Rattle.node_table.specs.Records.{RowHas};
ghost use Rattle.host_calls.specs.Cores.{LoadLeft};

use super::cores::{HostLoaded, left_by};
use call_load::load_row;
use node_table::NodeRecord;

// These nodes are then the row's first.
pub fn load_core(row: &mut [NodeRecord], frame: &[u8], plan: &mut [u8], held: usize) -> HostLoaded
    requires { Roomy frame.now row.old }
    ensures { LoadLeft frame.now plan.old plan.new held result
        × RowHas frame.now result.root result.count row.new }
{
    left_by(load_row(row, plan, frame, held))
}
