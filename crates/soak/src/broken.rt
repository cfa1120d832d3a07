// The program's own reading of a pool: which of the rules 9 to 16 is broken first, and where. The chains are written out in full, and only
// then looked at.
use crate::book::{Book, Refusal};
use crate::deque::{self, CHAINS, Deque, FREE, Lengths};
use crate::kinds::End;
use crate::pool::{CELLS, NULL, Pool};
use crate::sound;

// A place of a chain.
#[derive(Clone, Copy, PartialEq, Eq)]
struct Mark {
    chain: usize,
    place: u16,
}

// The chains as they are found in a pool, and for each slot where it is met first.
#[derive(Clone, Copy)]
pub(crate) struct Reading {
    chains: [Deque; CHAINS],
    marks: [Option<Mark>; CELLS],
}

// A chain from its head on, up to its end, to the first slot that the pool does not have, or to as many slots as the pool has.
fn write_chain(slots: &mut Deque, pool: &Pool, chain: usize, size: u16) {
    match sound::follow(
        slots,
        pool,
        chain,
        size,
        |slot| slot == NULL || size <= slot,
    ) {
        None | Some(NULL) => {}
        Some(slot) => slots.push_back(slot),
    }
}

// Each slot of a chain is marked with its place, the last one first.
fn mark_chain(marks: &mut [Option<Mark>; CELLS], chain: usize, slots: &Deque) {
    for place in (0..slots.length()).rev() {
        let slot = slots.at(place).unwrap_or(NULL);
        if let Some(mark) = marks.get_mut(usize::from(slot)) {
            *mark = Some(Mark { chain, place });
        }
    }
}

impl Reading {
    pub(crate) const NEW: Reading = Reading {
        chains: [Deque::EMPTY; CHAINS],
        marks: [None; CELLS],
    };

    fn write_chains(&mut self, pool: &Pool, size: u16) {
        for (chain, slots) in self.chains.iter_mut().enumerate() {
            write_chain(slots, pool, chain, size);
        }
    }

    // The free chain first and list 0 last, so that of several places the first one stays.
    fn mark_chains(&mut self, size: u16) {
        self.marks[..usize::from(size).min(CELLS)].fill(None);
        for (chain, slots) in self.chains.iter().enumerate().rev() {
            mark_chain(&mut self.marks, chain, slots);
        }
    }

    fn mark(&self, slot: u16) -> Option<Mark> {
        self.marks.get(usize::from(slot)).copied().flatten()
    }

    // The first wrong place of a chain: its slot is none of the pool's, or it came before. Or the chain's length, where its last slot is
    // not its tail. The free chain has no tail.
    fn wrong_place(&self, pool: &Pool, chain: usize, slots: &Deque, size: u16) -> Option<u16> {
        for place in 0..slots.length() {
            let slot = slots.at(place).unwrap_or(NULL);
            if size <= slot || self.mark(slot) != Some(Mark { chain, place }) {
                return Some(place);
            }
        }
        let tail = pool.book.entries.get(chain)?.tail;
        let last = slots.from_end(End::Back, 0).unwrap_or(NULL);
        (tail != last).then_some(slots.length())
    }

    // 11 or 12. The entries past the lists are all 0 here, and so their chains are empty.
    fn chain_fault(&self, pool: &Pool, size: u16) -> Option<Refusal> {
        for (chain, slots) in self.chains.iter().enumerate() {
            if let Some(position) = self.wrong_place(pool, chain, slots, size) {
                return Some(match chain {
                    FREE => Refusal::at(12, 0, position),
                    list => Refusal::at(11, list, position),
                });
            }
        }
        None
    }

    // 13, with the lowest slot that is in no chain.
    fn unmet_fault(&self, size: u16) -> Option<Refusal> {
        let slot = (1..size).find(|slot| self.mark(*slot).is_none())?;
        Some(Refusal::at(13, 0, slot))
    }

    // 14, with the lowest free slot that has a value.
    fn value_fault(&self, pool: &Pool, size: u16) -> Option<Refusal> {
        let slot = (1..size).find(|slot| {
            self.mark(*slot).is_some_and(|mark| mark.chain == FREE) && pool.value(*slot) != 0
        })?;
        Some(Refusal::at(14, 0, slot))
    }
}

// 15. A list past L has length 0 and limit 0.
fn limit_fault(book: &Book, lengths: &Lengths) -> Option<Refusal> {
    let over = book
        .entries
        .iter()
        .zip(lengths)
        .position(|(entry, length)| entry.limit < *length);
    let lacking = u32::from(lengths[FREE]) < sound::lacks(book, lengths);
    let list = over.or(lacking.then_some(usize::from(book.lists)))?;
    Some(Refusal::at(15, list, 0))
}

// 16: a stored count is not how many slots its chain has. An entry past L has length 0, and so has its chain.
fn count_fault(book: &Book, lengths: &Lengths) -> Option<Refusal> {
    let wrong = book
        .entries
        .iter()
        .zip(lengths)
        .position(|(entry, length)| entry.length != *length);
    let free_wrong = book.free_count != lengths[FREE];
    let list = wrong.or(free_wrong.then_some(usize::from(book.lists)))?;
    Some(Refusal::at(16, list, 0))
}

impl Reading {
    // The first broken rule. Rule 9 is what a setup is held to: no list has a slot yet.
    pub(crate) fn first_fault(&mut self, pool: &Pool, size: u16) -> Option<Refusal> {
        if !sound::rules_kept(&pool.book, &sound::fresh(size), size) {
            return Some(Refusal::numbered(9));
        }
        if pool.link(NULL) != 0 || pool.value(NULL) != 0 {
            return Some(Refusal::numbered(10));
        }
        self.write_chains(pool, size);
        self.mark_chains(size);
        let lengths = deque::lengths(&self.chains);
        self.chain_fault(pool, size)
            .or_else(|| self.unmet_fault(size))
            .or_else(|| self.value_fault(pool, size))
            .or_else(|| limit_fault(&pool.book, &lengths))
            .or_else(|| count_fault(&pool.book, &lengths))
    }
}
