// The call explain: a verdict of each conjunct.
ghost use Rattle.std.specs.Prelude.{◌/◌, ◌≤◌, min, length};
ghost use Rattle.definitions.specs.Words.Limits.{most_nodes};
ghost use Rattle.definitions.specs.Calls.Explain as definitions;
ghost use Rattle.terms.specs.Settings.{settings_of};
ghost use Rattle.call_explain.specs.Answers.{ExplainedIs};

use byte_writer::copies::copy_apart;
use filter_tree::lengths::{MIDDLE_BYTES, MIDDLE_NODES, MOST_NODES, SHORT_BYTES, SHORT_NODES};
use filter_tree::tree::Tree;
use frame_reader::frames::physical_frame_in;
use leaf_verdicts::taken::{TakenLeaf, named_by};
use leaf_verdicts::walk::put_verdicts;
use node_table::NO_RECORD;
use terms::checked::Checked;
use terms::refusals::Refusal;
use terms::settings::Settings;

// How many verdicts there are, and the AND-leaf that is taken, if one is.
#[derive(Clone, Copy)]
pub struct Explained {
    pub count: usize,
    pub taken: Option<TakenLeaf>,
}

// Of a frame of at most NODES nodes, if it is good. The verdicts are written to a row of this call's own first, so that nothing is written
// where 9 is the answer; each is of a node.
fn explain_by<const NODES: usize>(
    out: &mut [u8],
    frame: &[u8],
    settings: Checked,
) -> Result<Explained, Refusal>
    requires { (min most_nodes (length frame.now / 3) ≤ NODES) × (NODES ≤ most_nodes) }
    ensures { ExplainedIs (definitions.explain (settings_of settings.settings) frame.now out.old) out.new result }
{
    let mut row = [NO_RECORD; NODES];
    let parts = physical_frame_in(&mut row, frame)?;
    let tree = Tree {
        bytes: frame,
        nodes: &row[..parts.nodes],
    };
    let mut verdicts = [0u8; NODES];
    let count = put_verdicts(&mut verdicts, tree, parts.records, settings.settings);
    if out.len() < count {
        return Err(Refusal::BufferTooShort);
    }
    copy_apart(&mut out[..count], &verdicts[..count]);
    Ok(Explained {
        count,
        taken: named_by(&verdicts[..count]),
    })
}

// Writes the verdict of each AND-leaf of a frame to the buffer's start. A short row is enough for a short frame, and the longer ones cost
// more to clear than such a frame to read.
pub fn explain(out: &mut [u8], frame: &[u8], settings: Settings) -> Result<Explained, Refusal>
    ensures { ExplainedIs (definitions.explain (settings_of settings) frame.now out.old) out.new result }
{
    let settings = settings.checked()?;
    if frame.len() <= SHORT_BYTES {
        explain_by::<SHORT_NODES>(out, frame, settings)
    } else if frame.len() <= MIDDLE_BYTES {
        explain_by::<MIDDLE_NODES>(out, frame, settings)
    } else {
        explain_by::<MOST_NODES>(out, frame, settings)
    }
}
