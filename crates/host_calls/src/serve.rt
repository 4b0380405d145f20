// Serve, with the answer as a host gets it (request 12). Public for the crate `spatialjoin_c`.
ghost use Rattle.std.specs.Prelude.{◌≡◌};
ghost use Rattle.host_calls.specs.Hosts.{hosted_serve};
ghost use Rattle.definitions.specs.Calls.QueueBytes as definitions;
ghost use Rattle.queues.specs.Outcomes.{serve_answer_of};
ghost use Rattle.host_calls.specs.Short.{ServeShort};
ghost use Rattle.host_calls.specs.Hosted.{ServeHosted};

use super::answers::{length_number, minus_refusal};
use queues::answers::ServeAnswer;
use queues::serve::serve;

// Queue and length in one number, 0 with both queues empty.
fn served_number(answer: ServeAnswer) -> i64
    requires { ServeShort answer }
    ensures { result ≡ hosted_serve (serve_answer_of answer) }
{
    match answer {
        Ok(Some((queue, n))) => {
            let number = usize::from(u8::from(queue));
            length_number(number * 65536 + n)
        }
        Ok(None) => length_number(0),
        Err(why) => minus_refusal(why),
    }
}

pub fn serve_number(queues: &mut [u8], out: &mut [u8]) -> i64
    ensures { ServeHosted (definitions.serve queues.old out.old) queues.new
        out.new result }
{
    served_number(serve(queues, out))
}
