// The call load.
#![tactic(auto)]

ghost use Rattle.frame_reader.specs.Frames.{Roomy};
ghost use Rattle.call_load.specs.Loads.{LoadedIs, LoadedRow};

use byte_writer::copies::copy_bytes;
use call_answers::answers::Loaded;
use filter_tree::lengths::MOST_NODES;
use frame_reader::frames::physical_frame_in;
use node_table::{NO_RECORD, NodeRecord};
use terms::refusals::Refusal;

// Copies a good frame to the plan's start and gives its length; reads nothing of the old plan. `held` is how many records the table
// has; its caller fills it with the row's first records, as many as the answer says.
pub fn load_row(
    row: &mut [NodeRecord],
    plan: &mut [u8],
    frame: &[u8],
    held: usize,
) -> Result<Loaded, Refusal>
    requires { Roomy frame.now row.old }
    ensures { LoadedIs frame.now plan.old plan.new held result × LoadedRow frame.now result row.new }
{
    let f = physical_frame_in(row, frame)?;
    let length = frame.len();
    let count = f.nodes;
    if plan.len() < length {
        return Err(Refusal::BufferTooShort);
    }
    if held < count {
        return Err(Refusal::TableTooShort);
    }
    copy_bytes(plan, frame, 0, length);
    Ok(Loaded {
        length,
        root: f.root,
        count,
    })
}

// The same with a row of its own, for the program, which has no table.
pub fn load(plan: &mut [u8], frame: &[u8], held: usize) -> Result<Loaded, Refusal>
    ensures { LoadedIs frame.now plan.old plan.new held result }
{
    load_row(&mut [NO_RECORD; MOST_NODES], plan, frame, held)
}
