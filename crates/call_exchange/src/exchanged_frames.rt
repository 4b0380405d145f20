// Records whose sides are negated where they stand.
ghost use Rattle.std.specs.Prelude.{◌+◌, ◌*◌, ◌≤◌, length};
ghost use Rattle.call_exchange.specs.Exchanged.{SidesNegated, WithinBuffer, RemainderNegated};

use frame_reader::frame_bodies::Frame;
use terms::sides::negated_number;

// Negates the side of each of so many records from a place on.
pub fn negate_sides(plan: &mut [u8], records: usize, count: usize)
    requires { records + 5 * count ≤ length plan.old }
    ensures { SidesNegated records count plan.old plan.new }
{
    // By index: of a record's five bytes one changes.
    for i in 0..count {
        let at = records + 5 * i;
        let side = plan[at];
        let other = negated_number(side);
        plan[at] = other;
    }
}

// The same of a remainder's records, where there is one.
pub fn negate_remainder(plan: &mut [u8], rest: Option<Frame>)
    requires { WithinBuffer rest plan.old }
    ensures { RemainderNegated rest plan.old plan.new }
{
    match rest {
        Some(f) => negate_sides(plan, f.records, f.columns),
        None => {}
    }
}
