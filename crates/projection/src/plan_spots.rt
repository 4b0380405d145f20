// Every child index of an extraction, in the order of its bytes: those of the predicate's columns by the side of their argument, then those
// of the remainder's records. What is not projected, of side none, is put into the row as well, and stays.
ghost use Rattle.terms.specs.Sides.{join_side};
ghost use Rattle.projection.specs.Arguments.{BothFit, BothCollected, ArgumentsFit, ArgumentsCollected};
ghost use Rattle.projection.specs.Extractions.{ExtractionFits, ExtractionCollected};

use super::spots::{Spotted, collect_columns, collect_records};
use plan_reader::extraction_bodies::Extraction;
use plan_writer::records::Records;
use sedona_query_planner::spatial_predicate::SpatialPredicate;
use terms::sides::JoinSide;

// Two arguments, the second where the first ended.
fn collect_both(row: &mut [u32], src: &[u8], at: usize, one: JoinSide, two: JoinSide) -> Spotted
    requires { BothFit src.now at (join_side one) (join_side two) row.old }
    ensures { BothCollected src.now at (join_side one) (join_side two) row.old row.new result }
{
    let first = collect_columns(row, src, at, one, 0);
    collect_columns(row, src, first.end, two, first.index)
}

// The arguments of the predicate, which stand in a row after its other fields.
fn collect_arguments(row: &mut [u32], src: &[u8], p: SpatialPredicate) -> Spotted
    requires { ArgumentsFit src.now p row.old }
    ensures { ArgumentsCollected src.now p row.old row.new result }
{
    match p {
        SpatialPredicate::Relation(q) => {
            collect_both(row, src, q.left, JoinSide::Left, JoinSide::Right)
        }
        SpatialPredicate::Distance(q) => {
            let both = collect_both(row, src, q.left, JoinSide::Left, JoinSide::Right);
            collect_columns(row, src, both.end, q.distance_side, both.index)
        }
        SpatialPredicate::KNearestNeighbors(q) => {
            collect_both(row, src, q.left, q.probe_side, q.probe_side.negate())
        }
    }
}

// All of the extraction; answers how many there are.
pub fn collect_extraction(row: &mut [u32], src: &[u8], x: Extraction) -> usize
    requires { ExtractionFits src.now x row.old }
    ensures { ExtractionCollected src.now x row.old row.new result }
{
    let passed = collect_arguments(row, src, x.predicate);
    match x.remainder {
        None => passed.index,
        Some(f) => {
            let records = Records {
                src,
                rec: passed.end + 3,
                count: f.columns,
            };
            collect_records(row, records, passed.index)
        }
    }
}
