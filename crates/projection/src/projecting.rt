// Child indexes replaced by their places: in a row of numbers, then in the plan.
ghost use Rattle.projection.specs.Extractions.{ExtractionFits};
ghost use Rattle.projection.specs.Patches.{PlacesWithin, PatchedBy};
ghost use Rattle.projection.specs.Projected.{ListsFit, ProjectedIs};

use super::plan_spots::collect_extraction;
use super::spot_places::find_places;
use byte_writer::numbers::put_number;
use plan_reader::extraction_bodies::Extraction;
use terms::sides::JoinSide;

// Fills the row's start with the child indexes of the extraction, each replaced by its place in the list of its side; answers how many
// there are, or none where a list lacks one.
pub fn project_spots(
    row: &mut [u32],
    src: &[u8],
    x: Extraction,
    left: &[u16],
    right: &[u16],
) -> Option<usize>
    requires extraction_fits { ExtractionFits src.now x row.old }
    requires lists_fit { ListsFit left.now right.now }
    ensures { ProjectedIs src.now x left.now right.now row.new result }
{
    let count = collect_extraction(row, src, x);
    let spots = &mut row[..count];
    if !find_places(spots, JoinSide::Left, left) {
        return None;
    }
    if !find_places(spots, JoinSide::Right, right) {
        return None;
    }
    Some(count)
}

// Puts the child index of each of the row's numbers at its place in the plan.
pub fn put_indexes(plan: &mut [u8], row: &[u32])
    requires { PlacesWithin row.now plan.old }
    ensures { PatchedBy row.now plan.old plan.new }
{
    for number in row {
        let spot = *number as usize;
        put_number(plan, spot / 262144, 2, spot % 65536);
    }
}
