// The place of a child index in a list: by a search of the list, or of a chain of the places whose items have its last ten bits.
// `heads` has for each of 1,024 such chains the place and one of its last item, `nexts` for each item that of the one before it, 0
// standing for none, since memory is fixed and an `Option` takes twice as much. Only the first of equal items is in a chain, so none has
// over 64, and only an item that may be sought is: `sought` has a flag for each twelve last bits.
ghost use Rattle.std.specs.Prelude.{◌≡◌, ◌==◌, ◌≤◌, ℕ, length, take, position};
ghost use Rattle.std.proofs.Math.Option.{Option, none};
ghost use Rattle.definitions.specs.Filter.Project.{place_in, is_place};
ghost use Rattle.projection.specs.Chains.{place_of, link_of, Walk, Chain, Chained, Unfilled, Sought};

#[derive(Clone, Copy)]
pub struct Chains<'a> {
    pub heads: &'a [u16],
    pub nexts: &'a [u16],
}

// Whether a list has a child index. All are looked at, where `contains` stops, so that the compiler can compare several at once.
fn has(items: &[u16], index: u16) -> bool
    ensures { result ≡ is_place (place_in items.now index) }
{
    let mut found = false;
    for item in items {
        found = found | (*item == index);
    }
    found
}

// How many items are at the list's start in blocks of sixteen without the child index.
fn passed_over(items: &[u16], index: u16) -> usize
    ensures within { result ≤ length items.now }
    ensures none { place_in (take result items.now) index ≡ none }
{
    let mut start = 0;
    while start + 16 <= items.len() && !has(&items[start..start + 16], index) {
        start += 16;
    }
    start
}

// By a search item by item.
fn position_in(items: &[u16], index: u16) -> Option<usize>
    ensures { result ≡ position (λ item. item == index) items.now }
{
    items.iter().position(|item| *item == index)
}

// By a search of the list: block by block, and then of what is left. Inlined, for lists that are shorter than a block.
#[inline(always)]
fn first_place(items: &[u16], index: u16) -> Option<usize>
    ensures { place_of result ≡ place_in items.now index }
{
    let start = passed_over(items, index);
    let k = position_in(&items[start..], index)?;
    Some(start + k)
}

// By a search of its chain. Its links fall, but one by one they are no row to go over.
fn chain_place(items: &[u16], chains: Chains, index: u16) -> Option<usize>
    requires { Chain items.now chains.heads.now chains.nexts.now index }
    ensures { (place : Option ℕ) → Walk items.now chains.entry.nexts.now index (link_of chains.entry.heads.now index) place
        → place_of result ≡ place }
{
    let mut link = usize::from(chains.heads[usize::from(index) % 1024]);
    while 0 < link {
        let k = link - 1;
        if items[k] == index {
            return Some(k);
        }
        link = usize::from(chains.nexts[k]);
    }
    None
}

// Fills the chains with what may be sought of a list: two rows, which are no `Chains` until they are filled.
pub fn fill_places(heads: &mut [u16], nexts: &mut [u16], sought: &[bool], items: &[u16])
    requires unfilled { Unfilled items.now heads.old nexts.old }
    requires flags { length sought.now ≡ 4096 }
    ensures { Chained items.now heads.new nexts.new sought.now (length items.now) }
{
    for (k, index) in items.iter().enumerate() {
        if sought[usize::from(*index) % 4096]
            && chain_place(items, Chains { heads, nexts }, *index).is_none()
        {
            let chain = usize::from(*index) % 1024;
            nexts[k] = heads[chain];
            heads[chain] = (k + 1) as u16;
        }
    }
}

// By the chains, or where there are none of the list itself. (As a closure that its callers take, the clause would be said at each.)
// Inlined, since it is asked for every child index, and its caller says which of the two it is.
#[inline(always)]
pub fn place_in(items: &[u16], chains: Option<Chains>, index: u16) -> Option<usize>
    requires { Sought items.now chains index }
    ensures { place_of result ≡ place_in items.now index }
{
    match chains {
        Some(chains) => chain_place(items, chains, index),
        None => first_place(items, index),
    }
}
