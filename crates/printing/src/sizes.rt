// How many characters a node has of its own.
ghost use Rattle.std.specs.Prelude.{◌≡◌};
ghost use Rattle.printing.specs.Marks.{PhysicalWith, OfPhysicalWith, own_size};

use super::decimals::decimal_width;
use super::fields::leading_number;
use expression::fields::short_at;
use expression::kinds;

// How many characters the node at a place, of so many children, has besides theirs.
#[tactic(auto, using(crate::proofs::SizeLaws::width_small))]
pub fn own_size(src: &[u8], at: usize, children: usize) -> usize
    requires { PhysicalWith src.now at children }
    ensures { OfPhysicalWith src.now at children (λ t. result ≡ own_size t) }
{
    let number = leading_number(src, at);
    let width = decimal_width(number);
    let commas = children.saturating_sub(1);
    match src[at] {
        kinds::COLUMN => 2 + width + decimal_width(short_at(src, at + 3)),
        kinds::LITERAL => 18 + width,
        kinds::BINARY => 5 + width,
        kinds::CALL => 4 + width + number + commas,
        _ => 3 + width + commas,
    }
}
