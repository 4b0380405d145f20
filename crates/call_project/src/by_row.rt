// Project with a row for the child indexes.
ghost use Rattle.definitions.specs.Calls.Project as definitions;
ghost use Rattle.call_answers.specs.Outcomes.{OutcomeIs};
ghost use Rattle.call_project.specs.Holding.{Ready};

use byte_writer::copies::copy_bytes;
use call_answers::answers::Answer;
use plan_reader::extraction_bodies::Extraction;
use projection::projecting::{project_spots, put_indexes};
use terms::refusals::Refusal;

// With a row of N child indexes on the stack, of which the extraction has no more: where the lists have them all, the old plan is copied
// to the scratch, and only then is it changed.
pub fn project_by<const N: usize>(
    plan: &mut [u8],
    n: usize,
    scratch: &mut [u8],
    x: Extraction,
    left: &[u16],
    right: &[u16],
) -> Answer
    requires { Ready n plan.old scratch.old x left.now right.now N }
    ensures { OutcomeIs (definitions.project n plan.old scratch.old left.now right.now) n
        plan.new scratch.new result }
{
    let mut row = [0u32; N];
    // With `ok_or` and `?` it would be no shorter.
    let Some(count) = project_spots(&mut row, &plan[..n], x, left, right) else {
        return Err(Refusal::NoSuchChild);
    };
    copy_bytes(scratch, plan, 0, n);
    put_indexes(plan, &row[..count]);
    Ok(n)
}
