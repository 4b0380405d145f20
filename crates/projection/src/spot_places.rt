// Each child index of a side becomes its place in the list of that side.
ghost use Rattle.std.specs.Prelude.{◌≤◌, ◌≡◌, length};
ghost use Rattle.definitions.specs.Words.Limits.{most_items};
ghost use Rattle.definitions.specs.Bytes.Encode.{side_number};
ghost use Rattle.terms.specs.Sides.{join_side};
ghost use Rattle.projection.specs.Placing.{PlacedIs};
ghost use Rattle.projection.specs.Seeking.{AllMarked, AllSought};

use super::places::{Chains, fill_places, place_in};
use terms::sides::JoinSide;

// Puts the place of its child index into each of the row's numbers that is of the side; answers whether the list has them all, a question
// that two sides are asked. Where it lacks one, what the row then has is of no use.
#[inline(always)]
fn put_child_places(row: &mut [u32], side: JoinSide, items: &[u16], chains: Option<Chains>) -> bool
    requires items_bound { length items.now ≤ most_items }
    requires sought { AllSought (side_number (join_side side)) items.now row.old chains }
    ensures { PlacedIs (side_number (join_side side)) items.now row.old row.new result }
{
    let wanted = u32::from(u8::from(side));
    for number in row.iter_mut() {
        // The parts of the number are those that the definition of a spot joins.
        let spot = *number;
        let child = spot % 65536;
        if spot / 65536 % 4 == wanted {
            match place_in(items, chains, child as u16) {
                Some(place) => *number = spot - child + place as u32,
                None => return false,
            }
        }
    }
    true
}

// Marks the last twelve bits of the child index of each of the row's numbers that is of the side.
fn mark_sought(sought: &mut [bool], row: &[u32], side: JoinSide)
    requires { length sought.old ≡ 4096 }
    ensures { AllMarked (side_number (join_side side)) row.now sought.new }
{
    let wanted = u32::from(u8::from(side));
    for number in row {
        if *number / 65536 % 4 == wanted {
            sought[(*number % 4096) as usize] = true;
        }
    }
}

// By chains, which are first filled with what is sought, with a link for each of at most N items. A function of its own, so that a short
// list needs none of their memory.
#[inline(never)]
fn find_by_chains<const N: usize>(row: &mut [u32], side: JoinSide, items: &[u16]) -> bool
    requires { (length items.now ≤ N) × (N ≤ most_items) }
    ensures { PlacedIs (side_number (join_side side)) items.now row.old row.new result }
{
    let mut heads = [0u16; 1024];
    let mut nexts = [0u16; N];
    let mut sought = [false; 4096];
    mark_sought(&mut sought, row, side);
    fill_places(&mut heads, &mut nexts, &sought, items);
    let chains = Chains {
        heads: &heads,
        nexts: &nexts,
    };
    put_child_places(row, side, items, Some(chains))
}

// Where few places are sought or the list is short, the list is searched for each.
pub fn find_places(row: &mut [u32], side: JoinSide, items: &[u16]) -> bool
    requires { length items.now ≤ most_items }
    ensures { PlacedIs (side_number (join_side side)) items.now row.old row.new result }
{
    if row.len() <= 16 || items.len() <= 16 {
        return put_child_places(row, side, items, None);
    }
    if items.len() <= 256 {
        return find_by_chains::<256>(row, side, items);
    }
    find_by_chains::<4096>(row, side, items)
}
