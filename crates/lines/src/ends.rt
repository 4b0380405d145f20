// The end of a line: what it gives is written, and the state goes on.
ghost use Rattle.std.specs.Prelude.{◌≡◌, List, ℕ, ◌+◌, ◌*◌, ◌≤◌, length};
ghost use Rattle.definitions.specs.Words.Limits.{most_bytes, most_digits};
ghost use Rattle.definitions.specs.Lists.Program.{line_outcome};
ghost use Rattle.lines.specs.Answers.{plan_length, kept_as, AnswerIs};
ghost use Rattle.lines.specs.Collecting.{Begun};
ghost use Rattle.lines.specs.Sessions.{begun_scratch, EndedIs};

use super::answers::{LineAnswer, length_after, put_answer};
use super::calls::answer_line;
use super::states::State;
use terms::refusals::Refusal;

// What the line that has begun gives; one that the buffer does not hold is too long.
fn answer_begun(
    plan: &mut [u8],
    scratch: &mut [u8],
    line: &[u8],
    count: usize,
    n: usize,
) -> LineAnswer
    requires { (length scratch.old ≡ most_bytes) × (length line.now ≡ most_digits) }
    ensures result_in_bounds { plan_length result ≤ length plan.old }
    ensures by_index { (begun : List ℕ) → Begun line.now count begun
        → AnswerIs (line_outcome begun (kept_as n plan.old)) n plan.new result }
    ensures scratch_after { scratch.new ≡ begun_scratch line.now count n plan.old scratch.old }
{
    if line.len() < count {
        return Err(Refusal::NotHexadecimal);
    }
    answer_line(plan, scratch, &line[..count], n)
}

// The line that has begun is at its end. The buffers are slices of any length that the clauses allow: `Buffers` would ask for more.
pub fn end_line(
    out: &mut [u8],
    plan: &mut [u8],
    scratch: &mut [u8],
    line: &[u8],
    state: State,
) -> State
    requires scratch_len { (length scratch.old ≡ most_bytes) × (length line.now ≡ most_digits) }
    requires plan_in_bounds { state.filled + 2 * length plan.old + 11 ≤ length out.old }
    ensures { EndedIs (record { out = out.old; plan = plan.old; scratch = scratch.old; line = line.now }) state
        (record { out = out.new; plan = plan.new; scratch = scratch.new; line = line.now }) result }
{
    let n = state.n;
    let answer = answer_begun(plan, scratch, line, state.count, n);
    let filled = put_answer(out, state.filled, plan, answer);
    State {
        n: length_after(n, answer),
        count: 0,
        filled,
    }
}
