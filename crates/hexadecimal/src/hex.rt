// Bytes from hexadecimal digits, and back.
ghost use Rattle.std.specs.Prelude.{◌≡◌, [], ◌+◌, ◌*◌, ◌≤◌, ◌<◌, length};
ghost use Rattle.definitions.specs.Words.Limits.{most_bytes};
ghost use Rattle.std.proofs.Math.Option.{some};
ghost use Rattle.definitions.specs.Lists.Program as program;
ghost use Rattle.definitions.specs.Words.Basics as basics;
ghost use Rattle.hexadecimal.specs.Hex.{value_of, bytes_of, DecodedIs};
ghost use Rattle.byte_writer.specs.Written.{WroteAt};

// The value of a digit 0-9 or a-f.
#[tactic(auto, unfolding(definitions::specs::Lists::Program::digit_value))]
fn digit_value(c: u8) -> Option<u8>
    ensures { value_of result ≡ program.digit_value c }
{
    match c {
        b'0'..=b'9' => Some(c - b'0'),
        b'a'..=b'f' => Some(c - b'a' + 10),
        _ => None,
    }
}

// The byte of two digits.
#[tactic(auto, using(crate::proofs::DigitLaws::digit_laws), unfolding(definitions::specs::Lists::Program::pair_bytes))]
fn digit_pair(high: u8, low: u8) -> Option<u8>
    ensures { bytes_of result ≡ program.pair_bytes (program.digit_value high) (program.digit_value low) (some []) }
{
    let high = digit_value(high)?;
    let low = digit_value(low)?;
    Some(high * 16 + low)
}

// The bytes of a line's digits go to the start of `out`, also those before a character that is no digit; gives how many there are, or
// none where the line is refused, with 14. Public for the crate that answers lines.
pub fn decode(out: &mut [u8], line: &[u8]) -> Option<usize>
    requires { most_bytes ≤ length out.old }
    ensures { DecodedIs line.now out.old out.new result }
{
    if 32768 < line.len() {
        return None;
    }
    let (pairs, single) = line.as_chunks::<2>();
    if !single.is_empty() {
        return None;
    }
    for (i, &[high, low]) in pairs.iter().enumerate() {
        out[i] = digit_pair(high, low)?;
    }
    Some(pairs.len())
}

const DIGITS: [u8; 16] = *b"0123456789abcdef";

// The digit of a value below 16. From a table, since a test for each costs more.
fn digit(value: u8) -> u8
    requires { value < 16 }
    ensures { result ≡ basics.digit value }
{
    DIGITS[usize::from(value)]
}

// The digits of bytes go to `out` from a place on; gives where they end. Public for the crate that prints literals.
pub fn encode(out: &mut [u8], at: usize, bytes: &[u8]) -> usize
    requires { at + 2 * length bytes.now ≤ length out.old }
    ensures { WroteAt at (basics.digits bytes.now) out.old out.new result }
{
    // By index: `chunks_exact_mut(2)` with a zip was tried and the proof did not close.
    let mut next = at;
    for byte in bytes {
        out[next] = digit(byte / 16);
        out[next + 1] = digit(byte % 16);
        next += 2;
    }
    next
}
