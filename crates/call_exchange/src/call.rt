// The call exchange.
ghost use Rattle.definitions.specs.Calls.Base as definitions;
ghost use Rattle.call_answers.specs.Outcomes.{OutcomeIs};

use super::exchanged_plans::exchange_plan;
use byte_writer::copies::copy_bytes;
use call_answers::answers::Answer;
use plan_reader::held_plans::held_plan;
use terms::refusals::Refusal;

// Copies a held frame or extraction to the scratch, then exchanges it where it stands.
pub fn exchange(plan: &mut [u8], n: usize, scratch: &mut [u8]) -> Answer
    ensures { OutcomeIs (definitions.exchange n plan.old scratch.old) n plan.new
        scratch.new result }
{
    if plan.len() < n {
        return Err(Refusal::NoGoodPlan);
    }
    let held = held_plan(&plan[..n])?;
    if scratch.len() < n {
        return Err(Refusal::BufferTooShort);
    }
    copy_bytes(scratch, plan, 0, n);
    exchange_plan(plan, &scratch[..n], held);
    Ok(n)
}
