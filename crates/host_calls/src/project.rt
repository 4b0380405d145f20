// Project, with the answer as a host gets it. Public for the crate `spatialjoin_c`.
ghost use Rattle.definitions.specs.Calls.Project as projects;
ghost use Rattle.host_calls.specs.Hosted.{CallHosted};

use super::answers::answer_number;
use call_project::call::project;

pub fn project_number(
    plan: &mut [u8],
    n: usize,
    scratch: &mut [u8],
    left: &[u16],
    right: &[u16],
) -> i64
    ensures { CallHosted plan.old
        (projects.project n plan.old scratch.old left.now right.now)
        plan.new scratch.new result }
{
    answer_number(project(plan, n, scratch, left, right))
}
