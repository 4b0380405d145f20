// The number that a node's text begins with.
ghost use Rattle.std.specs.Prelude.{◌≡◌};
ghost use Rattle.printing.specs.Marks.{Physical, OfPhysical, leading_of};

use expression::fields::short_at;
use expression::kinds;

// A column's index, a literal's type, an operator, the length of a name or a tag: what the node at a place has after its kind.
pub fn leading_number(src: &[u8], at: usize) -> usize
    requires { Physical src.now at }
    ensures { OfPhysical src.now at (λ t. result ≡ leading_of t) }
{
    match src[at] {
        kinds::LITERAL..=kinds::CALL => usize::from(src[at + 1]),
        _ => short_at(src, at + 1),
    }
}
