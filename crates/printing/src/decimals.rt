// Numbers in decimal.
ghost use Rattle.std.specs.Prelude.{◌≡◌};
ghost use Rattle.definitions.specs.Bytes.Printed.{decimal_width, decimal};
ghost use Rattle.byte_writer.specs.Written.{WroteAt};
ghost use Rattle.printing.specs.Marks.{TextFits, marked_number};

use byte_writer::numbers::put_figures;

// How many digits a number below 100,000 has.
#[tactic(auto, unfolding(definitions::specs::Bytes::Printed::decimal_width))]
pub fn decimal_width(n: usize) -> usize
    ensures { result ≡ decimal_width n }
{
    match n {
        0..=9 => 1,
        10..=99 => 2,
        100..=999 => 3,
        1000..=9999 => 4,
        _ => 5,
    }
}

// Writes a number from w on; answers where it ends, as all writers here. Most numbers of a frame have one or two digits.
pub fn put_decimal(out: &mut [u8], w: usize, n: usize) -> usize
    requires { TextFits w (decimal n) out.old }
    ensures { WroteAt w (decimal n) out.old out.new result }
{
    match n {
        0..=9 => {
            out[w] = n as u8 + 48;
            w + 1
        }
        10..=99 => {
            out[w] = (n / 10) as u8 + 48;
            out[w + 1] = (n % 10) as u8 + 48;
            w + 2
        }
        _ => {
            let width = decimal_width(n);
            put_figures(out, w, width, n)
        }
    }
}

// Writes a number between two characters.
pub fn put_marked(out: &mut [u8], w: usize, first: u8, n: usize, last: u8) -> usize
    requires { TextFits w (marked_number first n last) out.old }
    ensures { WroteAt w (marked_number first n last) out.old out.new result }
{
    out[w] = first;
    let v = put_decimal(out, w + 1, n);
    out[v] = last;
    v + 1
}
