// The record of slots met, as a set of slots below N. That it is a slice of bytes, one a slot, the walks do not know; crates/pools/src/check.rt makes it.
ghost use Rattle.std.specs.Prelude.{◌≡◌, length};
ghost use Rattle.books.specs.Book.{null_slot};
ghost use Rattle.shapes.specs.Met.{is_met_of, mark_of, unmarked, HasPlace};
ghost use Rattle.shapes.specs.Walk.{walkable};

// Was the slot met? One that the record has no place for counts as met.
pub(crate) fn is_met(met: &[u8], slot: usize) -> bool
    ensures { result ≡ is_met_of met.now slot }
{
    met.len() <= slot || met[slot] != 0
}

// The slot is met from now on.
#[tactic(auto, unfolding(shapes::specs::Met::mark_of))]
pub(crate) fn mark(met: &mut [u8], slot: usize)
    requires { HasPlace met.old slot }
    ensures { met.new ≡ mark_of met.old slot }
{
    met[slot] = 1;
}

// The null slot is marked while a walk goes.
#[tactic(auto, unfolding(shapes::specs::Met::mark_of))]
pub(crate) fn mark_null(met: &mut [u8])
    requires { HasPlace met.old null_slot }
    ensures { met.new ≡ mark_of met.old null_slot }
{
    met[0] = 1;
}

// Its mark is taken away when the walk has ended.
pub(crate) fn unmark_null(met: &mut [u8])
    requires { HasPlace met.old null_slot }
    ensures { met.new ≡ unmarked met.old }
{
    met[0] = 0;
}

// May a walk go over the record? It has a place for each link then, and the null slot is not met.
#[tactic(auto, unfolding(shapes::specs::Walk::walkable))]
pub(crate) fn walkable(links: &[u16], met: &[u8]) -> bool
    ensures { result ≡ walkable (length links.now) met.now }
{
    links.len() == met.len() && !is_met(met, 0)
}
