// Layer 1: a slot is taken from the idle chain, or released to it and wiped (000: `Node`, `PPtr::new`, `into_inner`). The stored count of
// the free slots stays as it is: the calls count. Links and values stay two slices here and above: C lends them so, and a struct of two
// `&mut` slices would need a twin of two `&` ones for all that only reads.
#![tactic(auto)]

ghost use Rattle.std.specs.Prelude.{◌≡◌};
ghost use Rattle.xor.specs.Slot.{in_pool};
ghost use Rattle.books.specs.Outcome.{outcome};
ghost use Rattle.shapes.specs.Records.{released_by};
ghost use Rattle.xor.specs.Slots.{said_by, take_of, release_of};

use books::{Book, Free};

// Is `slot` from 1 to N-1, so that both of its cells are there?
#[tactic(auto, unfolding(xor::specs::Slot::in_pool))]
pub fn in_pool(links: &[u16], values: &[u64], slot: u16) -> bool
    ensures { result ≡ in_pool links.now values.now slot }
{
    let i = usize::from(slot);
    slot != Book::NULL && i < links.len() && i < values.len()
}

// The slot at the free head, or none where that is no slot. Its cells stay as they are: who takes it stores what it holds.
#[tactic(auto, using(xor::proofs::Slot::in_pool_lem), unfolding(xor::specs::Slots::take_of))]
pub fn take(links: &[u16], values: &[u64], free: Free) -> Option<(u16, Free)>
    ensures { said_by free result ≡ take_of links.now values.now free }
{
    let slot = free.head;
    if !in_pool(links, values, slot) {
        return None;
    }
    let head = links[usize::from(slot)];
    Some((slot, Free { head, ..free }))
}

// The slot's own value is wiped, and the slot becomes the free head, its link the old one.
// A number that is no slot is refused, and nothing changes.
#[tactic(auto, using(xor::proofs::Slot::in_pool_lem), unfolding(xor::specs::Slots::release_of))]
pub fn release(links: &mut [u16], values: &mut [u64], slot: u16, free: Free) -> Option<Free>
    ensures { outcome (released_by free result) links.new values.new ≡ release_of links.old values.old slot free }
{
    if !in_pool(links, values, slot) {
        return None;
    }
    let i = usize::from(slot);
    links[i] = free.head;
    values[i] = Book::WIPE;
    Some(Free { head: slot, ..free })
}
