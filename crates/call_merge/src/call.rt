// The call merge.
ghost use Rattle.std.specs.Prelude.{suc, ◌+◌, ◌/◌, ◌≤◌, ◌≡◌, min, max, length};
ghost use Rattle.definitions.specs.Bytes.Good.{depth};
ghost use Rattle.definitions.specs.Words.Limits.{most_nodes};
ghost use Rattle.filter_tree.specs.Trees.{Node, OfNode};
ghost use Rattle.call_merge.specs.Given.{GivenNodes};
ghost use Rattle.call_merge.specs.Merges.{MergedIs};
ghost use Rattle.call_merge.specs.MergedNodes.{MergedRow};

use super::given::Frames;
use super::held_frame::merge_held;
use super::merged_nodes::{TwoRows, put_joined};
use call_answers::answers::Loaded;
use filter_tree::lengths::MOST_NODES;
use filter_tree::tree::Tree;
use frame_reader::frame_bodies::FrameTree;
use frame_reader::frames::physical_frame_in;
use node_table::{NO_RECORD, NodeRecord};
use plan_reader::extraction_bodies::Held;
use plan_reader::held_plans::held_plan_in;
use terms::refusals::Refusal;

// How many levels the And of two filters has.
fn joined_depth(old: Tree, new: Tree) -> usize
    requires { Node old.nodes.now 0 × Node new.nodes.now 0 }
    ensures { OfNode old.entry.nodes.now 0 (λ p t. OfNode new.entry.nodes.now 0 (λ q u.
        result ≡ suc (max (depth t) (depth u)))) }
{
    1 + old.depth(0).max(new.depth(0))
}

// A good frame: the held plan must be one too.
fn merge_good<const N: usize>(
    row: &mut [NodeRecord],
    plan: &mut [u8],
    n: usize,
    scratch: &mut [u8],
    new: FrameTree,
    held: usize,
) -> Result<Loaded, Refusal>
    requires given { GivenNodes new.tree.bytes.now new.tree.nodes.now new.parts }
    requires row_length { length row.old ≡ N }
    requires places { (min most_nodes ((n + length new.tree.bytes.now) / 3) ≤ N)
        × (N ≤ most_nodes) }
    ensures { MergedIs new.entry.tree.bytes.now n plan.old scratch.old plan.new scratch.new held result
        × MergedRow plan.new result row.new }
{
    if plan.len() < n {
        return Err(Refusal::NoGoodPlan);
    }
    let mut records = [NO_RECORD; N];
    match held_plan_in(&mut records, &plan[..n])? {
        Held::Extraction(_) => Err(Refusal::AlreadyExtracted),
        Held::Frame(old) => {
            let rows = TwoRows {
                old: &records[..old.nodes],
                new: new.tree.nodes,
            };
            let tree = Tree {
                bytes: &plan[..n],
                nodes: rows.old,
            };
            let parts = Frames {
                old,
                new: new.parts,
                depth: joined_depth(tree, new.tree),
            };
            let merged = merge_held(plan, n, scratch, new.tree.bytes, parts, held)?;
            put_joined(row, rows, n, new.parts, merged);
            Ok(merged)
        }
    }
}

// Joins a frame's filter to the held one. `held` is how many records the table has; its caller fills it with the row's first, as many as
// the answer says. The row is lent, of N places, of which the merged frame's nodes need no more.
pub fn merge_row<const N: usize>(
    row: &mut [NodeRecord],
    plan: &mut [u8],
    n: usize,
    scratch: &mut [u8],
    frame: &[u8],
    held: usize,
) -> Result<Loaded, Refusal>
    requires row_length { length row.old ≡ N }
    requires places { (min most_nodes ((n + length frame.now) / 3) ≤ N) × (N ≤ most_nodes) }
    ensures { MergedIs frame.now n plan.old scratch.old plan.new scratch.new held result
        × MergedRow plan.new result row.new }
{
    let mut records = [NO_RECORD; N];
    let parts = physical_frame_in(&mut records, frame)?;
    let tree = Tree {
        bytes: frame,
        nodes: &records[..parts.nodes],
    };
    merge_good::<N>(row, plan, n, scratch, FrameTree { parts, tree }, held)
}

// The same with a row of its own, which is long enough for every frame.
pub fn merge(
    plan: &mut [u8],
    n: usize,
    scratch: &mut [u8],
    frame: &[u8],
    held: usize,
) -> Result<Loaded, Refusal>
    ensures { MergedIs frame.now n plan.old scratch.old plan.new scratch.new held result }
{
    merge_row::<MOST_NODES>(&mut [NO_RECORD; MOST_NODES], plan, n, scratch, frame, held)
}
