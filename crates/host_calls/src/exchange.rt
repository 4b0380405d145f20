// Exchange, with the answer as a host gets it. Public for the crate `spatialjoin_c`.
ghost use Rattle.definitions.specs.Calls.Base as definitions;
ghost use Rattle.host_calls.specs.Hosted.{CallHosted};

use super::answers::answer_number;
use call_exchange::call::exchange;

pub fn exchange_number(plan: &mut [u8], n: usize, scratch: &mut [u8]) -> i64
    ensures { CallHosted plan.old (definitions.exchange n plan.old scratch.old)
        plan.new scratch.new result }
{
    answer_number(exchange(plan, n, scratch))
}
