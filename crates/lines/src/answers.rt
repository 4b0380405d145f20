// What a line gives, and how it is written.
ghost use Rattle.std.specs.Prelude.{◌≡◌, ◌+◌, ◌*◌, ◌≤◌, length};
ghost use Rattle.definitions.specs.Lists.Program.{written_line};
ghost use Rattle.byte_writer.specs.Written.{WroteAt};
ghost use Rattle.lines.specs.Answers.{answer_bytes, plan_length, length_after};

use hexadecimal::digit_lines::put_line;
use terms::refusals::Refusal;

// What a line that is accepted gives: the length of the new plan, or the four bytes of the logical call, one by one, since contracts name
// them.
#[derive(Clone, Copy)]
pub enum LineGiven {
    Plan(usize),
    Logical(u8, u8, u8, u8),
}

pub type LineAnswer = Result<LineGiven, Refusal>;

// The line out for an answer, from a place on; gives where it ends.
pub fn put_answer(out: &mut [u8], at: usize, plan: &[u8], answer: LineAnswer) -> usize
    requires { (plan_length answer ≤ length plan.now) × (at + 2 * length plan.now + 11 ≤ length out.old) }
    ensures { WroteAt at (written_line (answer_bytes plan.now answer)) out.old out.new result }
{
    match answer {
        Ok(LineGiven::Plan(n)) => put_line(out, at, 0, &plan[..n]),
        Ok(LineGiven::Logical(high, low, names, side)) => {
            put_line(out, at, 0, &[high, low, names, side])
        }
        Err(why) => put_line(out, at, u8::from(why), &[]),
    }
}

// The plan's length after an answer.
pub fn length_after(n: usize, answer: LineAnswer) -> usize
    ensures { result ≡ length_after n answer }
{
    match answer {
        Ok(LineGiven::Plan(size)) => size,
        _ => n,
    }
}
