// The call extract all: all indexable conjuncts of a frame at once.
ghost use Rattle.std.specs.Prelude.{◌/◌, ◌≤◌, min, length};
ghost use Rattle.definitions.specs.Words.Limits.{most_bytes, most_nodes};
ghost use Rattle.definitions.specs.Calls.Settings as definitions;
ghost use Rattle.terms.specs.Settings.{settings_of};
ghost use Rattle.call_extract_all.specs.AllAnswers.{AllOutcomeIs};

use super::conjuncts::{Taken, put_all};
use byte_writer::copies::copy_apart;
use filter_tree::lengths::{
    LONG_BYTES, MIDDLE_BYTES, MIDDLE_NODES, MOST_BYTES, MOST_NODES, SHORT_BYTES, SHORT_NODES,
};
use filter_tree::tree::Tree;
use frame_reader::frame_bodies::FrameTree;
use frame_reader::frames::physical_frame_in;
use node_table::NO_RECORD;
use terms::checked::Checked;
use terms::refusals::Refusal;
use terms::settings::Settings;

// Of a frame of at most BYTES bytes and NODES nodes, if it is good. A buffer as long as the frame has room for its conjuncts; else they are
// written to `own` first, so that nothing is written where 9 is the answer.
fn extract_all_by<const BYTES: usize, const NODES: usize>(
    out: &mut [u8],
    frame: &[u8],
    settings: Checked,
) -> Result<Taken, Refusal>
    requires bytes { (min most_bytes (length frame.now) ≤ BYTES) × (BYTES ≤ most_bytes) }
    requires nodes { (min most_nodes (length frame.now / 3) ≤ NODES) × (NODES ≤ most_nodes) }
    ensures { AllOutcomeIs (definitions.extract_all_under (settings_of settings.settings) frame.now out.old) out.new result }
{
    let mut nodes = [NO_RECORD; NODES];
    let parts = physical_frame_in(&mut nodes, frame)?;
    let tree = Tree {
        bytes: frame,
        nodes: &nodes[..parts.nodes],
    };
    let given = FrameTree { parts, tree };
    let mut row = [0u8; BYTES];
    let mut gone = [0u8; NODES];
    if frame.len() <= out.len() {
        return Ok(put_all(out, &mut row, &mut gone, given, settings));
    }
    let mut own = [0u8; BYTES];
    let taken = put_all(&mut own, &mut row, &mut gone, given, settings);
    if out.len() < taken.length {
        return Err(Refusal::BufferTooShort);
    }
    copy_apart(&mut out[..taken.length], &own[..taken.length]);
    Ok(taken)
}

// Writes all indexable conjuncts of a frame to the buffer's start. Under settings that get 24 nothing else is looked at. Short rows are
// enough for a short frame, and the longer ones cost more to clear than such a frame to read.
pub fn extract_all(out: &mut [u8], frame: &[u8], settings: Settings) -> Result<Taken, Refusal>
    ensures { AllOutcomeIs (definitions.extract_all_under (settings_of settings) frame.now out.old)
        out.new result }
{
    let settings = settings.checked()?;
    if frame.len() <= SHORT_BYTES {
        extract_all_by::<SHORT_BYTES, SHORT_NODES>(out, frame, settings)
    } else if frame.len() <= MIDDLE_BYTES {
        extract_all_by::<MIDDLE_BYTES, MIDDLE_NODES>(out, frame, settings)
    } else if frame.len() <= LONG_BYTES {
        extract_all_by::<LONG_BYTES, MOST_NODES>(out, frame, settings)
    } else {
        extract_all_by::<MOST_BYTES, MOST_NODES>(out, frame, settings)
    }
}
