// Put, with the answer as a host gets it (request 12). Public for the crate `spatialjoin_c`.
ghost use Rattle.definitions.specs.Calls.QueueBytes as definitions;
ghost use Rattle.host_calls.specs.Hosted.{PutHosted};

use super::answers::answer_number;
use queues::put::put;

pub fn put_call_number(queues: &mut [u8], queue: u8, frame: &[u8]) -> i64
    ensures { PutHosted (definitions.put queues.old queue frame.now) queues.new result }
{
    answer_number(put(queues, queue, frame))
}
