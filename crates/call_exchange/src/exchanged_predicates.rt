// Predicates at a plan's start, exchanged where they stand: what an exchange changes of each, the arguments of which come from a copy of
// the old plan. Before them stand the first byte and the position's two, which stay.
ghost use Rattle.definitions.specs.Bytes.Encode.{predicate_fields};
ghost use Rattle.sedona_query_planner.specs.Predicates.{unchanged, RelationAt, DistanceAt, PredicateAt};
ghost use Rattle.byte_writer.specs.Writing.{Room};
ghost use Rattle.call_exchange.specs.Exchanged.{PredicateExchanged};

use byte_writer::copies::copy_at;
use sedona_query_planner::spatial_predicate::{
    DistancePredicate, RelationPredicate, SpatialPredicate,
};

// Its type, then its geometries in their new order.
fn put_relation(plan: &mut [u8], src: &[u8], p: RelationPredicate)
    requires { Room (RelationAt unchanged src.now p) predicate_fields 3 plan.old }
    ensures { PredicateExchanged (RelationAt unchanged src.now p) plan.old plan.new }
{
    plan[3] = u8::from(p.relation_type);
    let w = copy_at(plan, 4, src, p.left, p.left_end);
    copy_at(plan, w, src, p.right, p.right_end);
}

// Its side, then its geometries in their new order; form and bound stay.
fn put_distance(plan: &mut [u8], src: &[u8], p: DistancePredicate)
    requires { Room (DistanceAt unchanged src.now p) predicate_fields 3 plan.old }
    ensures { PredicateExchanged (DistanceAt unchanged src.now p) plan.old plan.new }
{
    plan[4] = u8::from(p.distance_side);
    let w = copy_at(plan, 5, src, p.left, p.left_end);
    copy_at(plan, w, src, p.right, p.right_end);
}

// The predicate that is already swapped, over that which it was swapped from. Of KNN the probe side changes, after k and the spheroid.
pub fn put_swapped(plan: &mut [u8], src: &[u8], swapped: SpatialPredicate)
    requires { Room (PredicateAt unchanged src.now swapped) predicate_fields 3 plan.old }
    ensures { PredicateExchanged (PredicateAt unchanged src.now swapped) plan.old plan.new }
{
    match swapped {
        SpatialPredicate::Relation(p) => put_relation(plan, src, p),
        SpatialPredicate::Distance(p) => put_distance(plan, src, p),
        SpatialPredicate::KNearestNeighbors(p) => plan[8] = u8::from(p.probe_side),
    }
}
