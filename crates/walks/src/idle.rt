// The walk along the idle chain: each slot that it passes is marked, and the lowest one that is not wiped is gathered.
ghost use Rattle.std.specs.Prelude.{◌≡◌, false, not, [], ◌∷◌, get_or};
ghost use Rattle.books.specs.Book.{null_slot};
ghost use Rattle.shapes.specs.Met.{is_met_of, unmarked, HasPlace};
ghost use Rattle.shapes.specs.Walk.{unwiped_from};
ghost use Rattle.walks.specs.Idle.{idle_first};
ghost use Rattle.engines.specs.Walked.{IdleWalked};
ghost use Rattle.xor.specs.Engine.{xor};

use books::{Book, Free};
use shapes::IdleWalk;

// The slots of the idle chain are passed and marked. A slot of N or more, or one that was met, ends the walk before it is passed.
// The null slot is marked while the walk goes, so that one test sees all three: the record has no place for a slot of N or more.
// Refused, and nothing changes, where the two slices differ in length or the record is not walkable.
// A slot is kept as an index, widened when it is read, as along a list.
pub(crate) fn walk_idle(links: &[u16], values: &[u64], met: &mut [u8], free: Free) -> IdleWalk
    ensures { IdleWalked xor links.now values.now met.old free result met.new }
{
    if links.len() != values.len() || !crate::met::walkable(links, met) {
        return refused();
    }
    crate::met::mark_null(met);
    let mut slot = rules::wide(free.head);
    let mut length: usize = 0;
    let mut unlike: u64 = 0;
    while !crate::met::is_met(met, slot) {
        crate::met::mark(met, slot);
        unlike |= values[slot] ^ Book::WIPE;
        length += 1;
        slot = rules::wide(links[slot]);
    }
    ended(links, values, met, free, slot, length, unlike)
}

fn refused() -> IdleWalk
    ensures { result ≡ record { ok = false; length = 0; unwiped = null_slot } }
{
    IdleWalk {
        ok: false,
        length: 0,
        unwiped: Book::NULL,
    }
}

// The walk stopped at `slot`, after `many` slots. The null slot's mark is taken away: where the slot is not met then, it was the null.
// It is told by its mark and not by its number because the loop is shorter so.
// `unlike` has a bit wherever a value that was passed differs from the wipe word; only then is the lowest such slot looked for.
fn ended(
    links: &[u16],
    values: &[u64],
    met: &mut [u8],
    free: Free,
    slot: usize,
    many: usize,
    unlike: u64,
) -> IdleWalk
    requires { HasPlace met.old null_slot × (unlike ≡ 0 → unwiped_from values.now (idle_first links.now many free.head) null_slot ≡ null_slot) }
    ensures { (met.new ≡ unmarked met.old) × (result ≡ record { ok = not (is_met_of (unmarked met.old) slot); length = many; unwiped = unwiped_from values.now (idle_first links.now many free.head) null_slot }) }
{
    crate::met::unmark_null(met);
    let ok = !crate::met::is_met(met, slot);
    if unlike == 0 {
        return IdleWalk {
            ok,
            length: many,
            unwiped: Book::NULL,
        };
    }
    let unwiped = lowest_unwiped(links, values, free, many);
    IdleWalk {
        ok,
        length: many,
        unwiped,
    }
}

// Of so many slots from the free head on, the lowest that is not wiped, or 0.
fn lowest_unwiped(links: &[u16], values: &[u64], free: Free, many: usize) -> u16
    ensures { result ≡ unwiped_from values.now (idle_first links.now many free.head) null_slot }
{
    let mut slot = free.head;
    let mut least = Book::NULL;
    for _ in 0..many {
        least = gather(values, slot, least);
        slot = cell_or(links, slot, 0);
    }
    least
}

// The lower of the slot and `least`, where the slot's value is not the wipe word; else `least`. 0 is none and no `Option`, as
// `IdleWalked` and `unwiped_from` have it.
fn gather(values: &[u64], slot: u16, least: u16) -> u16
    ensures { result ≡ unwiped_from values.now (slot ∷ []) least }
{
    let passed = least != Book::NULL && least <= slot;
    if passed || cell_or(values, slot, 0) == Book::WIPE {
        least
    } else {
        slot
    }
}

// The slot's cell, or `none` past the end.
fn cell_or<T: Copy>(cells: &[T], slot: u16, none: T) -> T
    ensures { result ≡ get_or cells.now slot none }
{
    cells.get(rules::wide(slot)).copied().unwrap_or(none)
}
