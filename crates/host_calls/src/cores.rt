// What a call leaves for the table that a host lends. Public for the crates of the calls with a table.
ghost use Rattle.host_calls.specs.Short.{ShortLoaded};
ghost use Rattle.host_calls.specs.Cores.{LeftBy};

use super::answers::{length_number, minus_refusal};
use call_answers::answers;
use terms::refusals::Refusal;

// The answer, and what the table is to be filled with: the nodes of the expression that begins at `root`, `count` of them. None after a
// refusal, which where the table is filled is no case of its own.
#[derive(Clone, Copy)]
pub struct HostLoaded {
    pub answer: i64,
    pub root: usize,
    pub count: usize,
}

// What a load or a merge leaves; a refused one fills no record.
pub(crate) fn left_by(loaded: Result<answers::Loaded, Refusal>) -> HostLoaded
    requires { ShortLoaded loaded }
    ensures { LeftBy loaded result }
{
    match loaded {
        Ok(loaded) => HostLoaded {
            answer: length_number(loaded.length),
            root: loaded.root,
            count: loaded.count,
        },
        Err(why) => HostLoaded {
            answer: minus_refusal(why),
            root: 0,
            count: 0,
        },
    }
}
