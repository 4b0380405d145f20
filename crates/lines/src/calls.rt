// The call that a line of the program's input asks for.
ghost use Rattle.std.specs.Prelude.{◌≡◌, List, ℕ, ◌<◌, ◌≤◌, length, take, MatchResult};
ghost use Rattle.definitions.specs.Words.Limits.{most_bytes};
ghost use Rattle.definitions.specs.Lists.Program as program;
ghost use Rattle.terms.specs.declared.refusals.Refusal.TheVariants.{BytesAfterEnd};
ghost use Rattle.lines.specs.Answers.{kept_as, AnswerIs};
ghost use Rattle.lines.specs.Calling.{line_answer};
ghost use Rattle.lines.specs.Scratch.{bytes_scratch, line_scratch};

use super::answers::{LineAnswer, LineGiven};
use call_answers::answers;
use call_exchange::call::exchange;
use call_extract::call::extract;
use call_load::load;
use hexadecimal::hex::decode;
use logical_filter::call::logical;
use terms::refusals::Refusal;
use terms::settings::default_settings;

// A call's answer as that of its line.
fn of_call(answer: answers::Answer) -> LineAnswer
    ensures { result ≡ line_answer answer }
{
    answer.map(LineGiven::Plan)
}

// `02..`: logical.
fn logical_line(bytes: &[u8]) -> LineAnswer
    ensures { (n : ℕ) (plan : List ℕ) → AnswerIs (program.logical_line bytes.now (kept_as n plan)) n plan result }
{
    let names = logical(bytes)?;
    let [high, low] = names.found.mask.to_be_bytes();
    let side = u8::from(names.side);
    Ok(LineGiven::Logical(high, low, names.found.names as u8, side))
}

// Nothing follows the one byte that asks for an extract or an exchange; else 7.
fn alone(size: usize) -> Result<(), Refusal>
    ensures { MatchResult result (λ _. size ≤ 1) (λ why. (why ≡ BytesAfterEnd) × (1 < size)) }
{
    if 1 < size {
        return Err(Refusal::BytesAfterEnd);
    }
    Ok(())
}

// The call that a line's bytes ask for; they are the first `size` of the scratch, a slice of 16,384 bytes as a call takes one. A load is as
// with a table of 1,024 records, which none needs here: extract finds the nodes again.
fn call_line(plan: &mut [u8], scratch: &mut [u8], size: usize, n: usize) -> LineAnswer
    requires { (size ≤ length scratch.old) × (length scratch.old ≡ most_bytes) }
    ensures answer_is { AnswerIs (program.line_of (take size scratch.old) (kept_as n plan.old)) n plan.new result }
    ensures scratch_after { scratch.new
        ≡ bytes_scratch (take size scratch.old) (kept_as n plan.old) scratch.old }
{
    if size == 0 {
        return Err(Refusal::EmptyOrTooLong);
    }
    match scratch[0] {
        0x01 => {
            let loaded = load(plan, &scratch[..size], 1024)?;
            Ok(LineGiven::Plan(loaded.length))
        }
        0x02 => logical_line(&scratch[..size]),
        0x21 => {
            alone(size)?;
            of_call(extract(plan, n, scratch, default_settings()).answer)
        }
        0x22 => {
            alone(size)?;
            of_call(exchange(plan, n, scratch))
        }
        _ => Err(Refusal::WrongFirstByte),
    }
}

// What a line of characters gives. (With `ok_or` and `?` it would be no shorter.)
pub fn answer_line(plan: &mut [u8], scratch: &mut [u8], line: &[u8], n: usize) -> LineAnswer
    requires { length scratch.old ≡ most_bytes }
    ensures answer_is { AnswerIs (program.line_outcome line.now (kept_as n plan.old)) n plan.new result }
    ensures scratch_after { scratch.new ≡ line_scratch line.now (kept_as n plan.old) scratch.old }
{
    match decode(scratch, line) {
        Some(size) => call_line(plan, scratch, size, n),
        None => Err(Refusal::NotHexadecimal),
    }
}
