// The predicate of a held extraction: which it is, and where its arguments stand.
ghost use Rattle.std.specs.Prelude.{◌≤◌, length};
ghost use Rattle.definitions.specs.Words.Limits.{two_bytes};
ghost use Rattle.definitions.specs.Bytes.Decode as decode;
ghost use Rattle.terms.specs.Sides.{join_side};
ghost use Rattle.node_reader.specs.Places.{ExpressionIs, NoClaim};
ghost use Rattle.plan_reader.specs.Predicates.{PairIs, PredicateIs, distance_arguments};

use super::knn_fields::{k_field, knn_flags};
use frame_reader::frame_bodies::Counted;
use node_reader::call_heads::Columns;
use node_reader::expressions::expression;
use node_reader::field_readers::{byte, byte_up_to, side_up_to};
use node_reader::walk::Walked;
use sedona_query_planner::spatial_predicate::{
    DistancePredicate, KNNPredicate, RelationPredicate, SpatialPredicate, SpatialRelationType,
};
use terms::forms::DistanceForm;
use terms::refusals::Refusal;
use terms::sides::JoinSide;

// Two arguments: where the second starts, where it ends, and how many nodes there were up to it.
#[derive(Clone, Copy)]
pub struct Pair {
    pub right: usize,
    pub end: usize,
    pub count: usize,
}

// An argument, whose columns have no bound but their width.
fn argument(s: &[u8], at: usize, count: usize) -> Result<Walked, Refusal>
    requires { at ≤ length s.now }
    ensures { ExpressionIs s.now at count result (decode.index_below two_bytes) NoClaim }
{
    expression(s, at, count, Columns::Below(65536))
}

// The left and the right argument, with no node counted before them.
#[tactic(auto, unfolding(definitions::specs::Bytes::Decode::argument))]
fn both(s: &[u8], at: usize) -> Result<Pair, Refusal>
    requires { at ≤ length s.now }
    ensures { PairIs s.now at result }
{
    let left = argument(s, at, 0)?;
    let right = argument(s, left.next, left.count)?;
    Ok(Pair {
        right: left.next,
        end: right.next,
        count: right.count,
    })
}

// A relation: type, left, right.
#[tactic(auto, unfolding(definitions::specs::Bytes::Decode::relation_predicate))]
fn relation_predicate(s: &[u8], at: usize) -> Result<Counted<SpatialPredicate>, Refusal>
    requires { at ≤ length s.now }
    ensures { PredicateIs s.now at result decode.relation_predicate }
{
    let (number, left) = byte_up_to(s, at, 8)?;
    let pair = both(s, left)?;
    let relation = RelationPredicate {
        left,
        left_end: pair.right,
        right: pair.right,
        right_end: pair.end,
        relation_type: SpatialRelationType::from(number),
    };
    Ok(Counted {
        read: SpatialPredicate::Relation(relation),
        next: pair.end,
        count: pair.count,
    })
}

// The left, the right and the distance of a distance predicate.
fn distance_arguments(
    s: &[u8],
    left: usize,
    form: u8,
    distance_side: JoinSide,
) -> Result<Counted<SpatialPredicate>, Refusal>
    requires { left ≤ length s.now }
    ensures { PredicateIs s.now left result (distance_arguments form (join_side distance_side)) }
{
    let pair = both(s, left)?;
    let bound = argument(s, pair.end, pair.count)?;
    let distance = DistancePredicate {
        left,
        left_end: pair.right,
        right: pair.right,
        right_end: pair.end,
        distance: pair.end,
        distance_end: bound.next,
        distance_side,
        form,
    };
    Ok(Counted {
        read: SpatialPredicate::Distance(distance),
        next: bound.next,
        count: bound.count,
    })
}

// A distance: form, side, left, right, distance.
#[tactic(auto, unfolding(definitions::specs::Bytes::Decode::distance_predicate, definitions::specs::Bytes::Readers::byte_up_to))]
fn distance_predicate(s: &[u8], at: usize) -> Result<Counted<SpatialPredicate>, Refusal>
    requires { at ≤ length s.now }
    ensures { PredicateIs s.now at result decode.distance_predicate }
{
    let (number, next) = byte(s, at)?;
    let form = DistanceForm::try_from(number)?;
    let (side, left) = side_up_to(s, next, 2)?;
    distance_arguments(s, left, u8::from(form), side)
}

// KNN: k, spheroid, probe side, ties, left, right.
#[tactic(auto, unfolding(definitions::specs::Bytes::Decode::knn_predicate))]
fn knn_predicate(s: &[u8], at: usize) -> Result<Counted<SpatialPredicate>, Refusal>
    requires { at ≤ length s.now }
    ensures { PredicateIs s.now at result decode.knn_predicate }
{
    let (k, next) = k_field(s, at)?;
    let (flags, left) = knn_flags(s, next)?;
    let pair = both(s, left)?;
    let knn = KNNPredicate {
        left,
        left_end: pair.right,
        right: pair.right,
        right_end: pair.end,
        k: k as u32,
        use_spheroid: flags.use_spheroid,
        probe_side: flags.probe_side,
        include_tie_breakers: flags.ties,
    };
    Ok(Counted {
        read: SpatialPredicate::KNearestNeighbors(knn),
        next: pair.end,
        count: pair.count,
    })
}

// The predicate that a first byte announces.
#[tactic(auto, unfolding(definitions::specs::Bytes::Decode::predicate_of_kind))]
pub fn predicate_of_kind(
    s: &[u8],
    at: usize,
    kind: u64,
) -> Result<Counted<SpatialPredicate>, Refusal>
    requires { at ≤ length s.now }
    ensures { PredicateIs s.now at result (decode.predicate_of_kind kind) }
{
    match kind {
        0x11 => relation_predicate(s, at),
        0x12 => distance_predicate(s, at),
        0x13 => knn_predicate(s, at),
        _ => Err(Refusal::WrongFirstByte),
    }
}
