// The walk along a list's chain from its head: each slot that it passes is marked, and the last one is handed out, for the caller to
// hold against the list's tail.
// And the walk along the idle chain and the record of slots met, handed up.
ghost use Rattle.std.specs.Prelude.{◌≡◌, ◌<◌, eqb, length};
ghost use Rattle.std.specs.Int.Bits.{bit_xor};
ghost use Rattle.books.specs.Book.{null_slot};
ghost use Rattle.chains.specs.Chain.{cell};
ghost use Rattle.shapes.specs.Met.{is_met_of, mark_of, unmarked, HasPlace};
ghost use Rattle.engines.specs.Walked.{IdleWalked, LiveWalked};
ghost use Rattle.xor.specs.Engine.{xor};

use books::{Book, Free};
use shapes::{IdleWalk, LiveWalk};

// The slots of the list are passed and marked. A slot of N or more, or one that was met, ends the walk before it is passed.
// Refused, and nothing changes, where the record is not walkable. An empty list is told by its head: most lists are empty most of the
// time.
pub fn walk_live(links: &[u16], met: &mut [u8], head: u16) -> LiveWalk
    ensures { LiveWalked xor links.now met.old head result met.new }
{
    if head == Book::NULL {
        return LiveWalk {
            ok: crate::met::walkable(links, met),
            last: 0,
            length: 0,
        };
    }
    walk_along(links, met, head)
}

// The null slot is marked while the walk goes, so that one test sees all three: the record has no place for a slot of N or more.
// Two slots are passed in a turn, since the slot and the one before it then change places and nothing is moved; this loop is most of
// what a call costs. For the same reason a slot is kept as an index, widened when it is read.
fn walk_along(links: &[u16], met: &mut [u8], head: u16) -> LiveWalk
    ensures { LiveWalked xor links.now met.old head result met.new }
{
    if !crate::met::walkable(links, met) {
        return LiveWalk {
            ok: false,
            last: 0,
            length: 0,
        };
    }
    crate::met::mark_null(met);
    let mut slot = rules::wide(head);
    let mut last: usize = 0;
    let mut length: usize = 0;
    while !crate::met::is_met(met, slot) {
        let next = pass(links, met, slot, last);
        if crate::met::is_met(met, next) {
            return ended(met, next, slot, length + 1);
        }
        last = next;
        slot = pass(links, met, next, slot);
        length += 2;
    }
    ended(met, slot, last, length)
}

// A slot is passed: it is marked, and the one after it is its link XORed with the one before it.
fn pass(links: &[u16], met: &mut [u8], slot: usize, before: usize) -> usize
    requires { (slot < length links.now) × HasPlace met.old slot }
    ensures { (result ≡ bit_xor (cell links.now slot) before) × (met.new ≡ mark_of met.old slot) }
{
    crate::met::mark(met, slot);
    rules::wide(links[slot]) ^ before
}

// The walk stopped at `slot`, after `many` slots, of which `last` was the last. The null slot's mark is taken away.
fn ended(met: &mut [u8], slot: usize, last: usize, many: usize) -> LiveWalk
    requires { HasPlace met.old null_slot }
    ensures { (met.new ≡ unmarked met.old) × (result ≡ record { ok = eqb slot null_slot; last = last; length = many }) }
{
    crate::met::unmark_null(met);
    LiveWalk {
        ok: slot == 0,
        last,
        length: many,
    }
}

// The walk along the idle chain, each slot of which is marked too.
pub fn walk_idle(links: &[u16], values: &[u64], met: &mut [u8], free: Free) -> IdleWalk
    ensures { IdleWalked xor links.now values.now met.old free result met.new }
{
    crate::idle::walk_idle(links, values, met, free)
}

// Was the slot met?
pub fn is_met(met: &[u8], slot: usize) -> bool
    ensures { result ≡ is_met_of met.now slot }
{
    crate::met::is_met(met, slot)
}
