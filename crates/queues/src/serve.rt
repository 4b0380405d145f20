// The call serve.
ghost use Rattle.definitions.specs.Calls.QueueBytes as definitions;
ghost use Rattle.queues.specs.Outcomes.{queue_is, ServeIs};
ghost use Rattle.queues.specs.Held.{Held, FirstOf, DueIs, HoldsQueued, ServedFrom};

use crate::answers::{Queue, ServeAnswer};
use crate::held::good_queues;
use crate::parts::{LENGTHS, PART, PLACES, queue_start, take_first};
use byte_writer::copies::copy_over;
use expression::fields::short_at;
use terms::refusals::Refusal;

// The first of two queues that holds a frame.
fn first_of(queues: &[u8], first: Queue, second: Queue) -> Option<Queue>
    requires { Held queues.now }
    ensures { FirstOf queues.now (queue_is first) (queue_is second) result }
{
    if 0 < queues[queue_start(first)] {
        return Some(first);
    }
    if 0 < queues[queue_start(second)] {
        return Some(second);
    }
    None
}

// The queue that is due: the one that was not served last, if it holds a frame.
fn find_due(queues: &[u8]) -> Option<Queue>
    requires { Held queues.now }
    ensures { DueIs queues.now result }
{
    if queues[0] == Queue::Chassis.mark_byte() {
        first_of(queues, Queue::FixedUnit, Queue::Chassis)
    } else {
        first_of(queues, Queue::Chassis, Queue::FixedUnit)
    }
}

// Gives the oldest frame of a queue that holds one.
fn serve_from(queues: &mut [u8], queue: Queue, out: &mut [u8]) -> ServeAnswer
    requires { HoldsQueued queues.old (queue_is queue) }
    ensures { ServedFrom queues.old (queue_is queue) out.old queues.new
        out.new result }
{
    let at = queue_start(queue);
    let part = &queues[at..at + PART];
    let n = short_at(part, LENGTHS);
    if out.len() < n {
        return Err(Refusal::BufferTooShort);
    }
    copy_over(&mut out[..n], &part[PLACES..PLACES + n]);
    take_first(&mut queues[at..at + PART]);
    queues[0] = queue.mark_byte();
    Ok(Some((queue, n)))
}

// Gives the frame that is due at the output's start.
pub fn serve(queues: &mut [u8], out: &mut [u8]) -> ServeAnswer
    ensures { ServeIs (definitions.serve queues.old out.old) queues.new
        out.new result }
{
    good_queues(queues)?;
    match find_due(queues) {
        None => Ok(None),
        Some(queue) => serve_from(queues, queue, out),
    }
}
