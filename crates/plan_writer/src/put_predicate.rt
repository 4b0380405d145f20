// The one writer of predicates: the first byte and the position, then the fields into the part after them.
ghost use Rattle.std.specs.Prelude.{◌≡◌, ◌≤◌, length};
ghost use Rattle.definitions.specs.Bytes.Encode.{predicate_fields};
ghost use Rattle.sedona_query_planner.specs.Predicates.{RelationAt, DistanceAt, KnnAt, PredicateAt};
ghost use Rattle.byte_writer.specs.Written.{WroteAt};
ghost use Rattle.byte_writer.specs.Writing.{Room, Puts};
ghost use Rattle.plan_writer.specs.Arguments.{change_of};
ghost use Rattle.plan_writer.specs.Predicates.{predicate_bytes, kind_of, knn_head};

use super::arguments::{Argument, put_both, reproject_column_references_for_side};
use super::frame_heads::put_head;
use byte_writer::numbers::put_number;
use sedona_query_planner::spatial_predicate::{
    DistancePredicate, KNNPredicate, RelationPredicate, SpatialPredicate, ties_number,
};
use terms::sides::JoinSide;

// Type, left, right. An `Argument` is written out here and below: made by a function, each proof would have to open it first.
fn put_relation(out: &mut [u8], src: &[u8], p: RelationPredicate, indexes: Option<&[u16]>) -> usize
    requires { Room (RelationAt (change_of indexes) src.now p) predicate_fields 0 out.old }
    ensures { Puts (RelationAt (change_of indexes.entry) src.now p) predicate_fields out.old
        out.new result }
{
    let left = Argument {
        start: p.left,
        end: p.left_end,
        side: JoinSide::Left,
    };
    let right = Argument {
        start: p.right,
        end: p.right_end,
        side: JoinSide::Right,
    };
    out[0] = u8::from(p.relation_type);
    put_both(out, 1, src, left, right, indexes)
}

// Form, side, left, right, distance.
fn put_distance(out: &mut [u8], src: &[u8], p: DistancePredicate, indexes: Option<&[u16]>) -> usize
    requires { Room (DistanceAt (change_of indexes) src.now p) predicate_fields 0 out.old }
    ensures { Puts (DistanceAt (change_of indexes.entry) src.now p) predicate_fields out.old
        out.new result }
{
    let left = Argument {
        start: p.left,
        end: p.left_end,
        side: JoinSide::Left,
    };
    let right = Argument {
        start: p.right,
        end: p.right_end,
        side: JoinSide::Right,
    };
    let distance = Argument {
        start: p.distance,
        end: p.distance_end,
        side: p.distance_side,
    };
    out[0] = p.form;
    out[1] = u8::from(p.distance_side);
    let w = put_both(out, 2, src, left, right, indexes);
    reproject_column_references_for_side(out, w, src, distance, indexes)
}

// k, spheroid, probe side, ties; answers where they end.
fn put_knn_head(out: &mut [u8], p: KNNPredicate) -> usize
    requires { 7 ≤ length out.old }
    ensures { WroteAt 0 (knn_head p) out.old out.new result }
{
    put_number(out, 0, 4, p.k as usize);
    out[4] = u8::from(p.use_spheroid);
    out[5] = u8::from(p.probe_side);
    out[6] = ties_number(p.include_tie_breakers);
    7
}

// Its head, left, right.
fn put_knn(out: &mut [u8], src: &[u8], p: KNNPredicate, indexes: Option<&[u16]>) -> usize
    requires { Room (KnnAt (change_of indexes) src.now p) predicate_fields 0 out.old }
    ensures { Puts (KnnAt (change_of indexes.entry) src.now p) predicate_fields out.old
        out.new result }
{
    let left = Argument {
        start: p.left,
        end: p.left_end,
        side: p.probe_side,
    };
    let right = Argument {
        start: p.right,
        end: p.right_end,
        side: p.probe_side.negate(),
    };
    let w = put_knn_head(out, p);
    put_both(out, w, src, left, right, indexes)
}

// A predicate after its first byte and its position.
fn put_fields(out: &mut [u8], src: &[u8], p: SpatialPredicate, indexes: Option<&[u16]>) -> usize
    requires { Room (PredicateAt (change_of indexes) src.now p) predicate_fields 0 out.old }
    ensures { Puts (PredicateAt (change_of indexes.entry) src.now p) predicate_fields out.old
        out.new result }
{
    match p {
        SpatialPredicate::Relation(q) => put_relation(out, src, q, indexes),
        SpatialPredicate::Distance(q) => put_distance(out, src, q, indexes),
        SpatialPredicate::KNearestNeighbors(q) => put_knn(out, src, q, indexes),
    }
}

// The first byte of a predicate.
fn predicate_kind(p: SpatialPredicate) -> u8
    ensures { result ≡ kind_of p }
{
    match p {
        SpatialPredicate::Relation(_) => 0x11,
        SpatialPredicate::Distance(_) => 0x12,
        SpatialPredicate::KNearestNeighbors(_) => 0x13,
    }
}

// Writes a predicate to the start of `out`, with the position of its leaf, its columns' indexes kept (`None`) or changed by a table;
// answers its length.
pub fn put_predicate(
    out: &mut [u8],
    src: &[u8],
    p: SpatialPredicate,
    position: usize,
    indexes: Option<&[u16]>,
) -> usize
    requires { Room (PredicateAt (change_of indexes) src.now p) (predicate_bytes position) 0 out.old }
    ensures { Puts (PredicateAt (change_of indexes.entry) src.now p) (predicate_bytes position)
        out.old out.new result }
{
    let kind = predicate_kind(p);
    let w = put_head(out, kind, position);
    w + put_fields(&mut out[w..], src, p, indexes)
}
