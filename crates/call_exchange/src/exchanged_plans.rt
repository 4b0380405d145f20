// A held plan exchanged where it stands, beside a copy of the old one.
ghost use Rattle.call_exchange.specs.Exchanged.{HeldPlan, ExchangedPlan};

use super::exchanged_frames::{negate_remainder, negate_sides};
use super::exchanged_predicates::put_swapped;
use plan_reader::extraction_bodies::Held;

// Of a frame and of a remainder the records' sides are negated; a predicate is swapped, and no longer than it was.
pub fn exchange_plan(plan: &mut [u8], src: &[u8], held: Held)
    requires { HeldPlan src.now held plan.old }
    ensures { ExchangedPlan src.now held plan.old plan.new }
{
    match held {
        Held::Frame(f) => negate_sides(plan, f.records, f.columns),
        Held::Extraction(x) => {
            let swapped = x.predicate.swap_for_swapped_children();
            put_swapped(plan, src, swapped);
            negate_remainder(plan, x.remainder);
        }
    }
}
