// The program's own test of soundness: the sequences are guessed, and what they make of the pool is held to what it is.
use crate::book::{Book, Entry};
use crate::deque::{self, CHAINS, Deque, FREE, Lengths};
use crate::model::{Model, State};
use crate::pool::{NULL, Pool};

// Does a guess end here: at 0, at a slot that the pool does not have, or at a free slot whose value is not 0?
fn ends(pool: &Pool, chain: usize, slot: u16, size: u16) -> bool {
    !(1..size).contains(&slot) || chain == FREE && pool.value(slot) != 0
}

// A chain is written out from its head on: the next slot is the link XOR the slot before, and for the free slots it is the link. It goes up
// to a slot that ends it, which is answered, or to as many slots as the pool has: in so many one comes twice.
pub(crate) fn follow<F: Fn(u16) -> bool>(
    slots: &mut Deque,
    pool: &Pool,
    chain: usize,
    size: u16,
    ends: F,
) -> Option<u16>
    requires { F.IsAlwaysCallable ends }
{
    let mut last = NULL;
    let mut slot = pool.head(chain);
    slots.clear();
    for _ in 0..size {
        if ends(slot) {
            return Some(slot);
        }
        slots.push_back(slot);
        let after = pool.link(slot) ^ last;
        last = deque::before(chain, slot);
        slot = after;
    }
    None
}

// Share ≤ limit ≤ N-1, and the list is no longer than its limit.
fn entry_fits(entry: &Entry, length: u16, size: u16) -> bool {
    entry.share <= entry.limit && length <= entry.limit && entry.limit < size
}

// The sum of what each list lacks of its share. The fold stands for `sum`, which leaves the goal `sum-requires-clause-fits`.
pub(crate) fn lacks(book: &Book, lengths: &Lengths) -> u32 {
    book.entries
        .iter()
        .zip(lengths)
        .map(|(entry, length)| entry.lack(*length))
        .fold(0, u32::wrapping_add)
}

// The book rules, for lists that hold so many slots: an entry from L on is all 0. With empty lists the lacks are the shares.
pub(crate) fn rules_kept(book: &Book, lengths: &Lengths, size: u16) -> bool {
    let lists = usize::from(book.lists);
    let fit = book.entries.iter().zip(lengths).enumerate().all(|(list, (entry, length))| {
        if list < lists {
            entry_fits(entry, *length, size)
        } else {
            *entry == Entry::ZERO
        }
    });
    fit && (1..=8).contains(&book.lists) && lacks(book, lengths) <= u32::from(lengths[FREE])
}

// How many slots the lists and the free ones have after a setup.
pub(crate) fn fresh(size: u16) -> Lengths {
    let mut lengths = [0; CHAINS];
    lengths[FREE] = size.wrapping_sub(1);
    lengths
}

impl Model {
    // Do the sequences make the pool as it was? A slot that is in none of them has a changed link, so where they have
    // N-1 slots in all, each is there once. Only the guess has read the values: the null slot's is 0.
    fn agrees(&self, was: &Pool) -> bool {
        let lengths = deque::lengths(&self.chains);
        // A fold, as in `lacks`.
        let slots = lengths
            .iter()
            .map(|length| u32::from(*length))
            .fold(0, u32::wrapping_add);
        slots.wrapping_add(1) == u32::from(self.size)
            && self.pool.links == was.links
            && self.pool.book == was.book
            && self.pool.value(NULL) == 0
            && rules_kept(&self.pool.book, &lengths, self.size)
    }

    // Notes whether the pool is sound; if so, the deques hold its sequences. Each link is made another before they are drawn, so that a slot
    // that is in none of them is told by it.
    pub(crate) fn test(&mut self) {
        let was = self.pool;
        let size = self.size;
        for (chain, slots) in self.chains.iter_mut().enumerate() {
            follow(
                slots,
                &was,
                chain,
                size,
                |slot| ends(&was, chain, slot, size),
            );
        }
        for link in self.pool.links.iter_mut().take(usize::from(size)) {
            *link = !*link;
        }
        self.draw();
        if self.agrees(&was) {
            self.state = State::Sound;
        } else {
            self.state = State::Damaged;
            self.pool = was;
        }
    }
}
