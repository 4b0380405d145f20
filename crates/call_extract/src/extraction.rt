// Writes the extraction that takes a pick: its predicate with the pick's position, then its remainder where the predicate ended.
ghost use Rattle.expression.specs.Nodes.{OfTree};
ghost use Rattle.filter_tree.specs.Trees.{Noded};
ghost use Rattle.call_extract.specs.Extractions.{ExtractionFits, ExtractionPut};

use filter_tree::tree::Tree;
use frame_reader::frame_bodies::Frame;
use leaf_pick::first_match::Pick;
use plan_writer::column_tables::child_indexes;
use plan_writer::put_predicate::put_predicate;
use plan_writer::records::Records;
use remainder::remainder::put_remainder;

// Writes the extraction of the frame in the tree's bytes; answers its length.
pub(crate) fn put_extraction(out: &mut [u8], tree: Tree, f: Frame, pick: Pick) -> usize
    requires extraction_fits { ExtractionFits tree.bytes.now f pick out.old }
    requires of_tree { OfTree tree.bytes.now f.root (Noded tree.nodes.now f.root 0) }
    ensures { ExtractionPut tree.entry.bytes.now f pick out.old out.new result }
{
    let records = Records {
        src: tree.bytes,
        rec: f.records,
        count: f.columns,
    };
    let mut to = [0u16; 256];
    child_indexes(&mut to, records);
    let w = put_predicate(out, tree.bytes, pick.predicate, pick.position, Some(&to));
    w + put_remainder(&mut out[w..], records, f.root, tree, pick.cut)
}
