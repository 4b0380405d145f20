// Numbers of any width, as bytes and as decimal digits.
ghost use Rattle.std.specs.Prelude.{◌+◌, ◌<◌, ◌≤◌, length};
ghost use Rattle.definitions.specs.Words.Basics.{big_endian};
ghost use Rattle.definitions.specs.Bytes.Printed.{figures};
ghost use Rattle.byte_writer.specs.Numerals.{places};
ghost use Rattle.byte_writer.specs.Written.{WroteAt};

// Writes the last `width` places of a number to a base from w on, the most significant first, `ZERO` standing for 0; answers where they
// ended.
fn put_places<const BASE: usize, const ZERO: u8>(
    out: &mut [u8],
    w: usize,
    width: usize,
    value: usize,
) -> usize
    requires base { (0 < BASE) × (BASE + ZERO ≤ 256) }
    requires room { w + width ≤ length out.old }
    ensures { WroteAt w (places BASE (λ d. d + ZERO) width value) out.old out.new result }
{
    let mut rest = value;
    // By index: `iter_mut().rev()` was tried and the proof did not close.
    for i in (0..width).rev() {
        out[w + i] = (rest % BASE) as u8 + ZERO;
        rest /= BASE;
    }
    w + width
}

// Writes a number as `width` bytes from w on, the most significant first; answers where it ended. No conversion: it goes to a place.
pub fn put_number(out: &mut [u8], w: usize, width: usize, value: usize) -> usize
    requires { w + width ≤ length out.old }
    ensures { WroteAt w (big_endian width value) out.old out.new result }
{
    put_places::<256, 0>(out, w, width, value)
}

// Writes the last `width` decimal digits of a number from w on, the most significant first; answers where they ended.
pub fn put_figures(out: &mut [u8], w: usize, width: usize, value: usize) -> usize
    requires { w + width ≤ length out.old }
    ensures { WroteAt w (figures width value) out.old out.new result }
{
    put_places::<10, 48>(out, w, width, value)
}
