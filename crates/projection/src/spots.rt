// The child indexes of an expression's columns and of records.
ghost use Rattle.std.specs.Prelude.{◌<◌, ◌≡◌};
ghost use Rattle.terms.specs.Sides.{join_side};
ghost use Rattle.projection.specs.Spots.{spot_number};
ghost use Rattle.projection.specs.Rows.{ColumnsFit, ColumnsCollected, RecordsFit, RecordsCollected};

use expression::fields::short_at;
use expression::heads::head_at;
use expression::kinds;
use plan_writer::records::Records;
use terms::sides::JoinSide;

// Where the expression ends, and the place of the row that comes after its own.
#[derive(Clone, Copy)]
pub struct Spotted {
    pub end: usize,
    pub index: usize,
}

// A child index, its place in the plan and the side that it is of as one number: memory is fixed, and a struct of the three takes more.
fn spot_number(side: JoinSide, at: usize, child: usize) -> u32
    requires { (at < 16384) × (child < 65536) }
    ensures { result ≡ spot_number (record { side = join_side side; at = at; child = child }) }
{
    ((at * 4 + usize::from(u8::from(side))) * 65536 + child) as u32
}

// Puts the columns of the expression at a place, an argument's of a side, into the row from index i on. Its nodes stand one after another:
// a step passes one, and then its children are the first that are left.
pub fn collect_columns(row: &mut [u32], src: &[u8], at: usize, side: JoinSide, i: usize) -> Spotted
    requires { ColumnsFit src.now at (join_side side) i row.old }
    ensures { ColumnsCollected src.now at (join_side side) i row.old row.new result }
{
    let mut end = at;
    let mut index = i;
    let mut left: usize = 1;
    while 0 < left {
        if src[end] == kinds::COLUMN {
            row[index] = spot_number(side, end + 1, short_at(src, end + 1));
            index += 1;
            end += 5;
            left -= 1;
        } else {
            let head = head_at(src, end);
            end = head.next;
            left = left - 1 + head.children;
        }
    }
    Spotted { end, index }
}

// Puts the child indexes of the records into the row from index i on; answers the index after them.
pub fn collect_records(row: &mut [u32], records: Records, i: usize) -> usize
    requires { RecordsFit records.rec records.count i row.old }
    ensures { RecordsCollected records.entry.src.now records.entry.rec records.entry.count i
        row.old row.new result }
{
    for k in 0..records.count {
        let at = records.rec + 5 * k;
        let side = JoinSide::from(u64::from(records.side(k)));
        row[i + k] = spot_number(side, at + 1, usize::from(records.child(k)));
    }
    i + records.count
}
