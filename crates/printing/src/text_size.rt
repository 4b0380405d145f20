// The length of an expression's text.
ghost use Rattle.std.specs.Prelude.{◌≡◌, length};
ghost use Rattle.definitions.specs.Bytes.Printed.{printed};
ghost use Rattle.printing.specs.Texts.{TextThere, OfText};

use super::sizes::own_size;
use expression::heads::head_at;

// How many characters the expression has that stands from a place up to the end: those of its nodes, one after another.
pub fn text_size(src: &[u8], at: usize) -> usize
    requires { TextThere src.now at }
    ensures { OfText src.now at (λ t. result ≡ length (printed t)) }
{
    let mut next = at;
    let mut size = 0;
    // A step is as long as the node's head says.
    while next < src.len() {
        let head = head_at(src, next);
        size += own_size(src, next, head.children);
        next = head.next;
    }
    size
}
