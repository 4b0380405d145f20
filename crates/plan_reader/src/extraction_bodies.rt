// An extraction's parts, and what is said of a plan that was read.
ghost use Rattle.std.specs.Prelude.{◌≤◌, ◌<◌, length};
ghost use Rattle.definitions.specs.Words.Limits.{two_bytes};
ghost use Rattle.definitions.specs.Bytes.Decode as decode;
ghost use Rattle.frame_reader.specs.Frames.{Roomy};
ghost use Rattle.plan_reader.specs.Plans.{RemainderIs, ExtractionIs};
ghost use Rattle.plan_reader.specs.Predicates.{Few};

use super::held_predicates::predicate_of_kind;
use filter_tree::tree::Tree;
use frame_reader::arity::all_have_arguments;
use frame_reader::frame_bodies::{Frame, frame_body};
use node_reader::field_readers::{byte, number};
use node_table::NodeRecord;
use sedona_query_planner::spatial_predicate::SpatialPredicate;
use terms::refusals::Refusal;

// An extraction: the position that it holds, its predicate, and what is left of the frame that this was taken from.
#[derive(Clone, Copy)]
pub struct Extraction {
    pub position: usize,
    pub predicate: SpatialPredicate,
    pub remainder: Option<Frame>,
}

// What a plan's bytes hold.
#[derive(Clone, Copy)]
pub enum Held {
    Frame(Frame),
    Extraction(Extraction),
}

// A physical frame after its first byte, with its arity, so many nodes being counted before it; and the place after it. Its own nodes go
// into the row from there on.
#[tactic(auto, unfolding(definitions::specs::Bytes::Decode::some_remainder))]
pub fn some_remainder(
    row: &mut [NodeRecord],
    s: &[u8],
    at: usize,
    nodes: usize,
) -> Result<(Option<Frame>, usize), Refusal>
    requires few { Few s.now at nodes }
    requires roomy { Roomy s.now row.old }
    ensures { RemainderIs s.now at nodes result decode.some_remainder }
{
    let body = frame_body(row, s, at, nodes)?;
    let tree = Tree {
        bytes: s,
        nodes: &row[..body.count],
    };
    if !all_have_arguments(tree, nodes) {
        return Err(Refusal::TooFewArguments);
    }
    Ok((Some(body.read), body.next))
}

// Nothing, or a physical frame, with so many nodes counted before it; and the place after it.
#[tactic(auto, unfolding(definitions::specs::Bytes::Decode::remainder))]
pub fn remainder_at(
    row: &mut [NodeRecord],
    s: &[u8],
    at: usize,
    nodes: usize,
) -> Result<(Option<Frame>, usize), Refusal>
    requires few { Few s.now at nodes }
    requires roomy { Roomy s.now row.old }
    ensures { RemainderIs s.now at nodes result decode.remainder }
{
    let (kind, next) = byte(s, at)?;
    match kind {
        0 => Ok((None, next)),
        1 => some_remainder(row, s, next, nodes),
        _ => Err(Refusal::OutOfRange),
    }
}

// An extraction after its first byte, and the place after it; its position may be any. The nodes of its remainder go into the row.
#[tactic(auto, unfolding(definitions::specs::Bytes::Decode::extraction_body))]
pub fn extraction_body(
    row: &mut [NodeRecord],
    s: &[u8],
    at: usize,
    first: u64,
) -> Result<(Extraction, usize), Refusal>
    requires place { (at ≤ length s.now) × (length s.now < two_bytes) }
    requires roomy { Roomy s.now row.old }
    ensures { ExtractionIs s.now at result (decode.extraction_body first) }
{
    let (position, start) = number(s, at, 2)?;
    let predicated = predicate_of_kind(s, start, first)?;
    let (remainder, end) = remainder_at(row, s, predicated.next, predicated.count)?;
    let extraction = Extraction {
        position: position as usize,
        predicate: predicated.read,
        remainder,
    };
    Ok((extraction, end))
}
