// The records of nodes, as a host lends a table of them. Only `put_nodes` writes into a lent table.
#![tactic(auto)]

ghost use Rattle.std.specs.Prelude.{◌≡◌, ◌++◌, ◌<◌, ◌≤◌, length, drop};

// A node's kind, where it starts, and where it and all below it end.
#[repr(C)]
#[derive(Clone, Copy, Debug, PartialEq, Eq)]
pub struct NodeRecord {
    pub kind: u8,
    pub start: u16,
    pub end: u16,
}

// What stands in a row before it is filled.
pub const NO_RECORD: NodeRecord = NodeRecord {
    kind: 0,
    start: 0,
    end: 0,
};

// The record at a place of a table becomes this one. It is written field by field, so that its byte of no field stays as the host left it.
fn put_record(place: &mut NodeRecord, node: NodeRecord)
    ensures { place.new ≡ node }
{
    place.kind = node.kind;
    place.start = node.start;
    place.end = node.end;
}

// The one function that fills a lent table: its first records become these, the others stay.
pub fn put_nodes(table: &mut [NodeRecord], nodes: &[NodeRecord])
    requires { length nodes.now ≤ length table.old }
    ensures { table.new ≡ nodes.now ++ drop (length nodes.now) table.old }
{
    let count = nodes.len();
    for (i, place) in table[..count].iter_mut().enumerate() {
        put_record(place, nodes[i]);
    }
}
