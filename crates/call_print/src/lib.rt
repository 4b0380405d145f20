// The call print.
#![tactic(auto)]

ghost use Rattle.std.specs.Prelude.{◌≤◌, ◌↔◌, length, IsTrue};
ghost use Rattle.definitions.specs.Bytes.Printed.{printed};
ghost use Rattle.call_answers.specs.Outcomes.{PrintIs};
ghost use Rattle.printing.specs.Texts.{TextThere, OfText};

use call_answers::answers::Answer;
use frame_reader::frames::physical_frame;
use printing::text_size::text_size;
use printing::texts::print_node;
use terms::refusals::Refusal;

// Whether the text has room in so many bytes. No text is longer than 26,620, so for so many it is not counted.
fn has_room(room: usize, frame: &[u8], root: usize) -> bool
    requires { TextThere frame.now root }
    ensures { OfText frame.now root (λ t. length (printed t) ≤ 26620 → IsTrue result ↔ (length (printed t) ≤ room)) }
{
    26620 <= room || text_size(frame, root) <= room
}

// Writes the expression of a good frame as text at the buffer's start and gives the text's length.
pub fn print(text: &mut [u8], frame: &[u8]) -> Answer
    ensures { PrintIs frame.now text.old text.new result }
{
    let f = physical_frame(frame)?;
    if !has_room(text.len(), frame, f.root) {
        return Err(Refusal::TextBufferTooShort);
    }
    let put = print_node(text, 0, frame, f.root);
    Ok(put.wrote)
}
