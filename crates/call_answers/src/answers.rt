// What the calls answer.
ghost use Rattle.std.specs.Prelude.{◌≡◌};
ghost use Rattle.call_answers.specs.Outcomes.{unwalked};

use terms::refusals::Refusal;

// The length of the new plan, of the text or of the frame that waits, or why the call is refused. A call takes the plan's buffer, its
// length and the scratch one by one, as the C interface does, and an answer may be longer than what the plan held.
pub type Answer = Result<usize, Refusal>;

// What extract answers, and how many And nodes and AND-leaves it read: 0 but with a length and with 13 (request 10 of document 02).
// With the walk once, in the `Ok` of a `Result`, a 13 would be no refusal like the others.
#[derive(Clone, Copy)]
pub struct Extracted {
    pub answer: Answer,
    pub walk: usize,
}

impl Extracted {
    // Refused before the leaves are read.
    pub fn refused(why: Refusal) -> Self
        ensures { result ≡ unwalked why }
    {
        Extracted {
            answer: Err(why),
            walk: 0,
        }
    }
}

// What load and merge give: the new plan's length, and what the table is to be filled with, the nodes of the expression that begins at
// `root`, `count` of them. After an Err the table stays as it is.
#[derive(Clone, Copy)]
pub struct Loaded {
    pub length: usize,
    pub root: usize,
    pub count: usize,
}
