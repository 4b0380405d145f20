// Print, with the answer as a host gets it. Public for the crate `spatialjoin_c`.
ghost use Rattle.host_calls.specs.Hosted.{PrintHosted};

use super::answers::answer_number;
use call_print::print;

pub fn print_number(frame: &[u8], text: &mut [u8]) -> i64
    ensures { PrintHosted frame.now text.old text.new result }
{
    answer_number(print(text, frame))
}
