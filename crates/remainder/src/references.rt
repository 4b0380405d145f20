// Which columns an expression references.
// A port of `collect_column_references` of
// rust/sedona-query-planner/src/spatial_expr_utils.rs.
ghost use Rattle.remainder.specs.References.{Flagged, Collected};

use expression::fields::short_at;
use expression::heads::head_at;
use expression::kinds;

// Marks the columns of the expression that stands from one place up to another. Its nodes stand one after another, so that a step is as
// long as a node's head.
pub fn collect_column_references(used: &mut [u8], src: &[u8], at: usize, end: usize)
    requires { Flagged src.now at end used.old }
    ensures { Collected src.now at end used.old used.new }
{
    let mut next = at;
    while next < end {
        if src[next] == kinds::COLUMN {
            used[short_at(src, next + 1)] = 1;
            next += 5;
        } else {
            next = head_at(src, next).next;
        }
    }
}
