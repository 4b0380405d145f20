// Whether a buffer holds two queues.
ghost use Rattle.std.specs.Prelude.{◌≡◌, length};
ghost use Rattle.definitions.specs.Calls.QueueBytes.{queue_of};
ghost use Rattle.queues.specs.Held.{GoodIs, GoodQueuesIs};

use crate::parts::{FIRST, LENGTHS, LONGEST, MOST, PLACES, SECOND, WHOLE};
use expression::fields::short_at;
use terms::refusals::Refusal;

// Whether the bytes of one queue are good: its count, and the length of each frame that it holds.
fn good_queue(part: &[u8]) -> bool
    requires { length part.now ≡ 16417 }
    ensures { GoodIs result (queue_of part.now) }
{
    let count = usize::from(part[0]);
    if MOST < count {
        return false;
    }
    let (lengths, _) = part[LENGTHS..PLACES].as_chunks::<2>();
    for length in &lengths[..count] {
        let n = short_at(length, 0);
        if n < 1 || LONGEST < n {
            return false;
        }
    }
    true
}

// 10 unless a whole buffer is good: its length, its mark and both queues.
pub(crate) fn good_queues(queues: &[u8]) -> Result<(), Refusal>
    ensures { GoodQueuesIs queues.now result }
{
    if queues.len() != WHOLE || 2 < queues[0] {
        return Err(Refusal::NoGoodPlan);
    }
    if good_queue(&queues[FIRST..SECOND]) && good_queue(&queues[SECOND..WHOLE]) {
        Ok(())
    } else {
        Err(Refusal::NoGoodPlan)
    }
}
