// The call logical.
ghost use Rattle.std.specs.Prelude.{◌≡◌, ◌≤◌, ◌/◌, min, length};
ghost use Rattle.definitions.specs.Words.Limits.{most_nodes};
ghost use Rattle.definitions.specs.Calls.Logical as definitions;
ghost use Rattle.frame_reader.specs.Frames.{Roomy};
ghost use Rattle.logical_filter.specs.Found.{names_of};

use super::knn_query_side::{KNNJoinQuerySide, find_knn_query_side};
use super::predicate_names::{PredicateNames, collect_spatial_predicate_names};
use filter_tree::lengths::{MIDDLE_BYTES, MIDDLE_NODES, MOST_NODES, SHORT_BYTES, SHORT_NODES};
use filter_tree::tree::Tree;
use frame_reader::frame_bodies::opened;
use frame_reader::frames::logical_frame_in;
use node_table::{NO_RECORD, NodeRecord};
use terms::refusals::Refusal;

// The names of a logical filter and its KNN query side.
#[derive(Clone, Copy)]
pub struct Names {
    pub found: PredicateNames,
    pub side: KNNJoinQuerySide,
}

// The names and the query side of a frame whose nodes go into the row.
fn logical_in(row: &mut [NodeRecord], frame: &[u8]) -> Result<Names, Refusal>
    requires { Roomy frame.now row.old }
    ensures { names_of result ≡ definitions.logical frame.now }
{
    let read = logical_frame_in(row, frame)?;
    let tree = Tree {
        bytes: frame,
        nodes: &row[..read.nodes],
    };
    let all = collect_spatial_predicate_names(tree);
    let found = PredicateNames {
        mask: all.mask,
        names: all.mask.count_ones(),
    };
    let side = find_knn_query_side(tree, all.knn);
    Ok(Names { found, side })
}

// The same by a row of N places on the stack, of which the frame's nodes need no more.
fn logical_by<const N: usize>(frame: &[u8]) -> Result<Names, Refusal>
    requires { (min most_nodes (length frame.now / 3) ≤ N) × (N ≤ most_nodes) }
    ensures { names_of result ≡ definitions.logical frame.now }
{
    logical_in(&mut [NO_RECORD; N], frame)
}

// Reads a logical frame; there is no plan and nothing is written. A short row is enough for a short frame, and what is none by its length or
// its first byte needs no row.
pub fn logical(frame: &[u8]) -> Result<Names, Refusal>
    ensures { names_of result ≡ definitions.logical frame.now }
{
    opened(frame, 2)?;
    if frame.len() <= SHORT_BYTES {
        logical_by::<SHORT_NODES>(frame)
    } else if frame.len() <= MIDDLE_BYTES {
        logical_by::<MIDDLE_NODES>(frame)
    } else {
        logical_by::<MOST_NODES>(frame)
    }
}
