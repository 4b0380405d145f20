// The call put.
ghost use Rattle.definitions.specs.Calls.QueueBytes as definitions;
ghost use Rattle.queues.specs.Outcomes.{PutIs};

use crate::answers::Queue;
use crate::held::good_queues;
use crate::parts::{LONGEST, MOST, PART, add_frame, queue_start};
use call_answers::answers::Answer;
use terms::refusals::Refusal;

// Adds a frame at the end of the queue of a number; nothing looks into the frame.
pub fn put(queues: &mut [u8], queue: u8, frame: &[u8]) -> Answer
    ensures { PutIs (definitions.put queues.old queue frame.now) queues.new result }
{
    let queue = Queue::try_from(queue)?;
    good_queues(queues)?;
    let n = frame.len();
    if n < 1 {
        return Err(Refusal::EmptyOrTooLong);
    }
    if LONGEST < n {
        return Err(Refusal::QueuedFrameTooLong);
    }
    let at = queue_start(queue);
    let count = usize::from(queues[at]);
    if MOST <= count {
        return Err(Refusal::QueueFull);
    }
    add_frame(&mut queues[at..at + PART], count, frame);
    Ok(n)
}
