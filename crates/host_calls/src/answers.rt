// A call's answer as one number for a host: a length, or minus the number of the refusal.
ghost use Rattle.std.specs.Prelude.{◌≡◌, ◌≤◌, pos, neg_ℤ};
ghost use Rattle.host_calls.specs.Hosts.{hosted, hosted_walk};
ghost use Rattle.terms.specs.Refusals.{number_of};
ghost use Rattle.call_answers.specs.Outcomes.{answer_of};
ghost use Rattle.host_calls.specs.Short.{ShortLength, ShortWalk};

use call_answers::answers::{Answer, Extracted};
use terms::refusals::Refusal;

// A length, or a walk or a queue and a length in one number.
pub(crate) fn length_number(n: usize) -> i64
    requires { n ≤ 4294967295 }
    ensures { result ≡ pos n }
{
    n as i64
}

// The negative number of a refusal that carries a walk, or of one alone.
fn minus_number(n: usize) -> i64
    requires { n ≤ 4294967295 }
    ensures { result ≡ neg_ℤ (pos n) }
{
    0 - n as i64
}

// A refusal's number, negative.
pub fn minus_refusal(why: Refusal) -> i64
    ensures { result ≡ neg_ℤ (pos (number_of why)) }
{
    minus_number(usize::from(u8::from(why)))
}

// Extract's: the walk that it carries is at most 2,047.
pub fn walk_number(extracted: Extracted) -> i64
    requires { ShortWalk extracted }
    ensures { result ≡ hosted_walk extracted.walk (answer_of extracted.answer) }
{
    let walk = extracted.walk;
    match extracted.answer {
        Ok(n) => length_number(walk * 65536 + n),
        Err(why) => minus_number(walk * 256 + usize::from(u8::from(why))),
    }
}

// The length of a plan is at most 16,384, that of a text at most 26,620.
pub fn answer_number(answer: Answer) -> i64
    requires { ShortLength answer }
    ensures { result ≡ hosted (answer_of answer) }
{
    match answer {
        Ok(n) => length_number(n),
        Err(why) => minus_refusal(why),
    }
}
