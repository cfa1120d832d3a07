// Layer 2: upstream's list over a lent pool, as total steps under upstream's names and in its order (000: `DListXor`). The
// stored length stays as it is: the calls count. Every step answers with the list and the idle chain as it leaves them, or with none where it is
// refused; nothing changes then.
#![tactic(auto)]

ghost use Rattle.std.specs.Prelude.{◌≡◌};
ghost use Rattle.books.specs.Outcome.{outcome};
ghost use Rattle.shapes.specs.Ends.{new_of, near_of, with_near, with_both, emptied};
ghost use Rattle.shapes.specs.Records.{push_step_by, pop_step_by};
ghost use Rattle.xor.specs.Steps.{is_beside, push_empty_of, push_beside_of, push_of, pop_of};

use books::{Book, Entry};
use shapes::{Chains, End};

// The empty list.
pub fn new(share: u16, limit: u16) -> Entry
    ensures { result ≡ new_of share limit }
{
    Entry {
        head: Book::NULL,
        tail: Book::NULL,
        share,
        limit,
        length: 0,
    }
}

// The first value of an empty list: its slot has link 0 and is both ends.
// Refused on a list that has a tail, or where no slot can be taken.
#[tactic(auto, using(xor::proofs::Slot::in_pool_lem), unfolding(xor::specs::Steps::push_empty_of, xor::specs::Slots::take_of))]
pub fn push_empty_case(
    links: &mut [u16],
    values: &mut [u64],
    chains: Chains,
    value: u64,
) -> Option<Chains>
    ensures { outcome (push_step_by chains result) links.new values.new ≡ push_empty_of links.old values.old chains.list chains.idle value }
{
    if chains.list.tail != Book::NULL {
        return None;
    }
    let Some((slot, idle)) = slots::take(links, values, chains.idle) else {
        return None;
    };
    let i = usize::from(slot);
    links[i] = Book::NULL;
    values[i] = value;
    Some(Chains {
        list: with_both(slot, chains.list),
        idle,
    })
}

// Refused where no slot can be taken, or where the end slot is no slot or is the taken one.
pub fn push_back(
    links: &mut [u16],
    values: &mut [u64],
    chains: Chains,
    value: u64,
) -> Option<Chains>
    ensures { outcome (push_step_by chains result) links.new values.new ≡ push_of End.Back links.old values.old chains.list chains.idle value }
{
    push(links, values, End::Back, chains, value)
}

// Refused where the end slot is no slot, or where its neighbour is neither null nor another slot.
pub fn pop_back(links: &mut [u16], values: &mut [u64], chains: Chains) -> Option<(u64, Chains)>
    ensures { outcome (pop_step_by chains result) links.new values.new ≡ pop_of End.Back links.old values.old chains.list chains.idle }
{
    pop(links, values, End::Back, chains)
}

// Refused as `pop_back` is, at the other end.
pub fn pop_front(links: &mut [u16], values: &mut [u64], chains: Chains) -> Option<(u64, Chains)>
    ensures { outcome (pop_step_by chains result) links.new values.new ≡ pop_of End.Front links.old values.old chains.list chains.idle }
{
    pop(links, values, End::Front, chains)
}

// Refused as `push_back` is, at the other end.
pub fn push_front(
    links: &mut [u16],
    values: &mut [u64],
    chains: Chains,
    value: u64,
) -> Option<Chains>
    ensures { outcome (push_step_by chains result) links.new values.new ≡ push_of End.Front links.old values.old chains.list chains.idle value }
{
    push(links, values, End::Front, chains, value)
}

// The slot at an end.
#[tactic(auto, unfolding(shapes::specs::Ends::near_of))]
pub fn near_of(end: End, list: Entry) -> u16
    ensures { result ≡ near_of end list }
{
    match end {
        End::Front => list.head,
        End::Back => list.tail,
    }
}

// The list with another slot at an end.
#[tactic(auto, unfolding(shapes::specs::Ends::with_near))]
fn with_near(end: End, slot: u16, list: Entry) -> Entry
    ensures { result ≡ with_near end slot list }
{
    match end {
        End::Front => Entry { head: slot, ..list },
        End::Back => Entry { tail: slot, ..list },
    }
}

// The list with one slot at both ends.
fn with_both(both: u16, list: Entry) -> Entry
    ensures { result ≡ with_both both list }
{
    Entry {
        head: both,
        tail: both,
        ..list
    }
}

// The list with no slot at either end.
fn emptied(list: Entry) -> Entry
    ensures { result ≡ emptied list }
{
    with_both(Book::NULL, list)
}

// Is `near` a slot of the pool other than `slot`?
#[tactic(auto, unfolding(xor::specs::Steps::is_beside))]
fn is_beside(links: &[u16], values: &[u64], near: u16, slot: u16) -> bool
    ensures { result ≡ is_beside links.now values.now near slot }
{
    near != slot && slots::in_pool(links, values, near)
}

// A value at an end. Both ends test the tail alone.
#[tactic(auto, unfolding(xor::specs::Steps::push_of))]
pub fn push(
    links: &mut [u16],
    values: &mut [u64],
    end: End,
    chains: Chains,
    value: u64,
) -> Option<Chains>
    ensures { outcome (push_step_by chains result) links.new values.new ≡ push_of end links.old values.old chains.list chains.idle value }
{
    if chains.list.tail == Book::NULL {
        push_empty_case(links, values, chains, value)
    } else {
        push_beside(links, values, end, chains, value)
    }
}

// A value beside the slot at an end of a list that has one.
#[tactic(auto, using(xor::proofs::Slot::in_pool_lem), unfolding(xor::specs::Steps::push_beside_of, xor::specs::Slots::take_of, xor::specs::Steps::is_beside))]
fn push_beside(
    links: &mut [u16],
    values: &mut [u64],
    end: End,
    chains: Chains,
    value: u64,
) -> Option<Chains>
    ensures { outcome (push_step_by chains result) links.new values.new ≡ push_beside_of end links.old values.old chains.list chains.idle value }
{
    let Some((slot, idle)) = slots::take(links, values, chains.idle) else {
        return None;
    };
    let near = near_of(end, chains.list);
    if !is_beside(links, values, near, slot) {
        return None;
    }
    let i = usize::from(slot);
    links[usize::from(near)] ^= slot;
    links[i] = near;
    values[i] = value;
    Some(Chains {
        list: with_near(end, slot, chains.list),
        idle,
    })
}

// The slot at an end leaves the list. All tests stand before the first store. It is always inlined: a call would hand the value over in
// memory, and leave it in the dead stack.
#[inline(always)]
#[tactic(auto, using(xor::proofs::Slot::in_pool_lem), unfolding(xor::specs::Steps::pop_of, xor::specs::Slots::release_of, xor::specs::Steps::is_beside))]
pub fn pop(links: &mut [u16], values: &mut [u64], end: End, chains: Chains) -> Option<(u64, Chains)>
    ensures { outcome (pop_step_by chains result) links.new values.new ≡ pop_of end links.old values.old chains.list chains.idle }
{
    let gone = near_of(end, chains.list);
    if !slots::in_pool(links, values, gone) {
        return None;
    }
    let i = usize::from(gone);
    let near = links[i];
    let value = values[i];
    if near == Book::NULL {
        let idle = slots::release(links, values, gone, chains.idle)?;
        let list = emptied(chains.list);
        return Some((value, Chains { list, idle }));
    }
    if !is_beside(links, values, near, gone) {
        return None;
    }
    let idle = slots::release(links, values, gone, chains.idle)?;
    links[rules::wide(near)] ^= gone;
    let list = with_near(end, near, chains.list);
    Some((value, Chains { list, idle }))
}
