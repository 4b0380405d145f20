// The predicates of all matching AND-leaves, the KNN ones first, then the last remainder.
ghost use Rattle.definitions.specs.Filter.Settings.{match_under};
ghost use Rattle.terms.specs.Settings.{settings_of};
ghost use Rattle.expression.specs.Nodes.{OfTree};
ghost use Rattle.filter_tree.specs.Trees.{Noded};
ghost use Rattle.call_extract_all.specs.Conjuncts.{LeftFits, LeftPut, AllFits, AllPut};

use super::listing::{Listing, list_matches};
use byte_writer::copies::copy_bytes;
use frame_reader::frame_bodies::FrameTree;
use leaf_matching::filter::Filter;
use leaf_pick::first_match::Stop;
use plan_writer::column_tables::child_indexes;
use plan_writer::records::Records;
use remainder::last::put_last;
use terms::checked::Checked;

// How many leaves were taken, and how many bytes were written.
#[derive(Clone, Copy)]
pub struct Taken {
    pub rounds: usize,
    pub length: usize,
}

// The last remainder: without a match the frame as it is, else what is left of it, pruned, or `00`; answers its length.
fn put_left(out: &mut [u8], row: &mut [u8], given: FrameTree, gone: &[u8], rounds: usize) -> usize
    requires left_fits { LeftFits given.tree.bytes.now given.parts gone.now rounds row.old out.old }
    requires of_tree { OfTree given.tree.bytes.now given.parts.root
        (Noded given.tree.nodes.now given.parts.root 0) }
    ensures { LeftPut given.entry.tree.bytes.now given.entry.parts gone.now rounds
        out.old out.new result }
{
    let src = given.tree.bytes;
    if rounds == 0 {
        let n = src.len();
        copy_bytes(out, src, 0, n);
        return n;
    }
    let f = given.parts;
    let records = Records {
        src,
        rec: f.records,
        count: f.columns,
    };
    put_last(out, row, records, f.root, given.tree, gone)
}

// Writes all indexable conjuncts of a frame. The lent row first holds the matches that are not KNN, then what stays.
pub fn put_all(
    out: &mut [u8],
    row: &mut [u8],
    gone: &mut [u8],
    given: FrameTree,
    settings: Checked,
) -> Taken
    requires all_fits { AllFits (settings_of settings.settings) given.tree.bytes.now given.parts
        row.old gone.old out.old }
    requires of_tree { OfTree given.tree.bytes.now given.parts.root
        (Noded given.tree.nodes.now given.parts.root 0) }
    ensures { AllPut (match_under (settings_of settings.settings))
        given.entry.tree.bytes.now given.entry.parts out.old out.new result }
{
    let f = given.parts;
    let records = Records {
        src: given.tree.bytes,
        rec: f.records,
        count: f.columns,
    };
    let mut to = [0u16; 256];
    child_indexes(&mut to, records);
    let filter = Filter {
        tree: given.tree,
        rec: f.records,
    };
    let listing = Listing {
        filter,
        count: records.count,
        to: &to,
        settings: settings.settings,
    };
    let root = Stop {
        at: f.root,
        index: 0,
        position: 0,
    };
    let listed = list_matches(out, row, gone, listing, root);
    let k = listed.knn;
    let o = listed.other;
    copy_bytes(&mut out[k..], row, 0, o);
    let w = k + o;
    let flags = &gone[..listed.position];
    let rest = put_left(&mut out[w..], row, given, flags, listed.rounds);
    Taken {
        rounds: listed.rounds,
        length: w + rest,
    }
}
