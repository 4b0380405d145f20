// The call project (request 7).
ghost use Rattle.definitions.specs.Calls.Project as definitions;
ghost use Rattle.call_answers.specs.Outcomes.{OutcomeIs};
ghost use Rattle.call_project.specs.Holding.{HoldsExtraction};

use super::by_row::project_by;
use call_answers::answers::Answer;
use plan_reader::extraction_bodies::{Extraction, Held};
use plan_reader::held_plans::held_plan;
use terms::refusals::Refusal;

// A held extraction.
fn project_held(
    plan: &mut [u8],
    n: usize,
    scratch: &mut [u8],
    x: Extraction,
    left: &[u16],
    right: &[u16],
) -> Answer
    requires { HoldsExtraction n plan.old x }
    ensures { OutcomeIs (definitions.project n plan.old scratch.old left.now right.now) n
        plan.new scratch.new result }
{
    if 4096 < left.len() || 4096 < right.len() {
        return Err(Refusal::ListTooLong);
    }
    if scratch.len() < n {
        return Err(Refusal::BufferTooShort);
    }
    // A child index comes with five bytes, so a short plan needs no long row cleared; and with a node or a record, so no plan a longer one.
    match n {
        0..=320 => project_by::<64>(plan, n, scratch, x, left, right),
        321..=1280 => project_by::<256>(plan, n, scratch, x, left, right),
        _ => project_by::<1280>(plan, n, scratch, x, left, right),
    }
}

pub fn project(plan: &mut [u8], n: usize, scratch: &mut [u8], left: &[u16], right: &[u16]) -> Answer
    ensures { OutcomeIs (definitions.project n plan.old scratch.old left.now right.now) n
        plan.new scratch.new result }
{
    if plan.len() < n {
        return Err(Refusal::NoGoodPlan);
    }
    match held_plan(&plan[..n])? {
        Held::Frame(_) => Err(Refusal::NotExtracted),
        Held::Extraction(x) => project_held(plan, n, scratch, x, left, right),
    }
}
