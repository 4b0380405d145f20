// The records of a merged frame's nodes: that of the And, then those of both frames, moved to where their filters stand now.
ghost use Rattle.std.specs.Prelude.{◌+◌, ◌<◌, ◌≤◌, ◌≡◌, ◌++◌, length, map, drop};
ghost use Rattle.definitions.specs.Words.Limits.{two_bytes};
ghost use Rattle.call_merge.specs.MergedNodes.{Joinable, Movable, joined_nodes, moved};

use call_answers::answers::Loaded;
use expression::kinds;
use frame_reader::frame_bodies::Frame;
use node_table::NodeRecord;

// The records of both frames' nodes.
#[derive(Clone, Copy)]
pub struct TwoRows<'a> {
    pub old: &'a [NodeRecord],
    pub new: &'a [NodeRecord],
}

// The record of a node that stands so many bytes further on.
fn moved(node: NodeRecord, by: u16) -> NodeRecord
    requires { (node.start + by < two_bytes) × (node.end + by < two_bytes) }
    ensures { result ≡ moved by node }
{
    NodeRecord {
        kind: node.kind,
        start: node.start + by,
        end: node.end + by,
    }
}

// Puts these records at the row's start, each so many bytes further on.
fn put_moved(row: &mut [NodeRecord], nodes: &[NodeRecord], by: u16)
    requires { (length nodes.now ≤ length row.old) × Movable by nodes.now }
    ensures { row.new ≡ map (moved by) nodes.now ++ drop (length nodes.now) row.old }
{
    for (i, place) in row[..nodes.len()].iter_mut().enumerate() {
        *place = moved(nodes[i], by);
    }
}

// Puts all records at the row's start. The held filter stands further on by the new frame's head and records less a byte, the new one by
// the held frame less a byte.
pub fn put_joined(row: &mut [NodeRecord], rows: TwoRows, n: usize, new: Frame, merged: Loaded)
    requires { Joinable (length row.old) rows.old.now rows.new.now n new merged }
    ensures { let x = joined_nodes rows.entry.old.now rows.entry.new.now n new merged in
        row.new ≡ x ++ drop (length x) row.old }
{
    let held = rows.old.len();
    row[0] = NodeRecord {
        kind: kinds::BINARY,
        start: merged.root as u16,
        end: merged.length as u16,
    };
    put_moved(&mut row[1..], rows.old, (new.root - 1) as u16);
    put_moved(&mut row[1 + held..], rows.new, (n - 1) as u16);
}
