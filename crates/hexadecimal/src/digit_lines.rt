// Lines out.
ghost use Rattle.std.specs.Prelude.{[], ◌∷◌, ◌++◌, ◌+◌, ◌*◌, ◌≤◌, length};
ghost use Rattle.definitions.specs.Words.Basics.{digits};
ghost use Rattle.byte_writer.specs.Written.{WroteAt};

use super::hex::encode;

// The digits of a byte and of more, and a line feed; gives where they end. Public for the crate that answers lines.
pub fn put_line(out: &mut [u8], at: usize, first: u8, more: &[u8]) -> usize
    requires { at + 2 * length more.now + 3 ≤ length out.old }
    ensures { WroteAt at (digits (first ∷ more.now) ++ (10 ∷ [])) out.old out.new result }
{
    let head = [first];
    let middle = encode(out, at, &head);
    let end = encode(out, middle, more);
    out[end] = 10;
    end + 1
}
