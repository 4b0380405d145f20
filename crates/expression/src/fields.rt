// Fields of a node.
ghost use Rattle.std.specs.Prelude.{◌≡◌, ◌+◌, ◌≤◌, length};
ghost use Rattle.expression.specs.Places.{short_at};

// The number in the two bytes at a place.
pub fn short_at(s: &[u8], at: usize) -> usize
    requires { at + 2 ≤ length s.now }
    ensures { result ≡ short_at s.now at }
{
    usize::from(u16::from_be_bytes([s[at], s[at + 1]]))
}
