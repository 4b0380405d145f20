// The extract of a held frame.
ghost use Rattle.definitions.specs.Calls.Base as definitions;
ghost use Rattle.definitions.specs.Filter.Settings.{match_under};
ghost use Rattle.terms.specs.Settings.{settings_of};
ghost use Rattle.call_answers.specs.Outcomes.{ExtractIs};
ghost use Rattle.plan_reader.specs.Plans.{HoldsFrame};
ghost use Rattle.call_extract.specs.FrameNodes.{Indexed};

use super::extraction::put_extraction;
use byte_writer::copies::copy_bytes;
use call_answers::answers::Extracted;
use filter_tree::tree::Tree;
use frame_reader::frame_bodies::Frame;
use leaf_matching::filter::Filter;
use leaf_pick::one_walk::extract_in_one_walk;
use node_table::NodeRecord;
use terms::checked::Checked;
use terms::refusals::Refusal;

// A held frame, and the records of its nodes.
#[derive(Clone, Copy)]
pub struct HeldFrame<'a> {
    pub frame: Frame,
    pub nodes: &'a [NodeRecord],
}

// Copies it to the scratch, then writes its extraction over the plan's start. The answer carries the length of the walk over its leaves.
pub fn extract_frame(
    plan: &mut [u8],
    n: usize,
    scratch: &mut [u8],
    held: HeldFrame,
    settings: Checked,
) -> Extracted
    requires holds_frame { HoldsFrame n plan.old held.frame }
    requires indexed { Indexed n plan.old held.frame held.nodes.now }
    ensures { ExtractIs (definitions.extract_filled_by (match_under (settings_of settings.settings)) n plan.old scratch.old)
        (definitions.walk_filled_by (match_under (settings_of settings.settings)) n plan.old scratch.old) n plan.new
        scratch.new result }
{
    if scratch.len() < n {
        return Extracted::refused(Refusal::BufferTooShort);
    }
    let filter = Filter {
        tree: Tree {
            bytes: &plan[..n],
            nodes: held.nodes,
        },
        rec: held.frame.records,
    };
    let walked = extract_in_one_walk(filter, held.frame.root, settings.settings);
    let walk = walked.read;
    match walked.found {
        None => Extracted {
            answer: Err(Refusal::NoLeafMatches),
            walk,
        },
        Some(pick) => {
            copy_bytes(scratch, plan, 0, n);
            let tree = Tree {
                bytes: &scratch[..n],
                nodes: held.nodes,
            };
            let length = put_extraction(plan, tree, held.frame, pick);
            Extracted {
                answer: Ok(length),
                walk,
            }
        }
    }
}
