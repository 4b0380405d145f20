// The limits of a merged frame, by what reading both frames counted.
ghost use Rattle.std.specs.Prelude.{◌≡◌};
ghost use Rattle.call_merge.specs.Together.{Counts, over_together};

use super::given::Frames;
use filter_tree::lengths::{MOST_BYTES, MOST_LEVELS, MOST_NODES, MOST_RECORDS};

// Whether frames of n and m bytes are over a limit once merged: one byte shorter than both, one node more.
pub fn over_limits(n: usize, m: usize, parts: Frames) -> bool
    requires { Counts n m parts.old parts.new }
    ensures { result ≡ over_together n m parts }
{
    if MOST_BYTES + 1 < n + m {
        return true;
    }
    if MOST_NODES < parts.old.nodes + parts.new.nodes + 1 {
        return true;
    }
    if MOST_LEVELS < parts.depth {
        return true;
    }
    MOST_RECORDS < parts.old.columns + parts.new.columns
}
