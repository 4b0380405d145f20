// Merge of a frame with a held one.
ghost use Rattle.std.specs.Prelude.{length};
ghost use Rattle.call_merge.specs.Given.{BothFrames};
ghost use Rattle.call_merge.specs.Merges.{MergedIs};
ghost use Rattle.call_merge.specs.MergedNodes.{MergedAt};

use super::given::{Frames, PlacedFrame, TwoFrames};
use super::limits::over_limits;
use super::merged_frames::put_merged;
use byte_writer::copies::copy_bytes;
use call_answers::answers::Loaded;
use terms::refusals::Refusal;

// A held frame: copies it to the scratch, then writes the merged frame over the plan's start.
pub fn merge_held(
    plan: &mut [u8],
    n: usize,
    scratch: &mut [u8],
    frame: &[u8],
    parts: Frames,
    held: usize,
) -> Result<Loaded, Refusal>
    requires { BothFrames n plan.old frame.now parts }
    ensures { MergedIs frame.now n plan.old scratch.old plan.new scratch.new held result
        × ((b : BothFrames n plan.old frame.now parts)
        → MergedAt b.held.frame b.given.frame parts.old parts.new n (length frame.now) plan.new result) }
{
    let old = parts.old;
    let new = parts.new;
    let m = frame.len();
    let over = over_limits(n, m, parts);
    if over {
        return Err(Refusal::MergedTooLarge);
    }
    if scratch.len() < n {
        return Err(Refusal::BufferTooShort); // for the old plan
    }
    if plan.len() < n + m - 1 {
        return Err(Refusal::BufferTooShort); // for the merged frame
    }
    let count = old.nodes + new.nodes + 1;
    if held < count {
        return Err(Refusal::TableTooShort);
    }
    let root = old.root + new.root - 3; // after one head and both tables of records
    copy_bytes(scratch, plan, 0, n);
    let two = TwoFrames {
        old: PlacedFrame {
            bytes: &scratch[..n],
            parts: old,
        },
        new: PlacedFrame {
            bytes: frame,
            parts: new,
        },
    };
    let length = put_merged(plan, two);
    Ok(Loaded {
        length,
        root,
        count,
    })
}
