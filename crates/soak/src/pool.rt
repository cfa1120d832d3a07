// A pool and its book: the cells that a call is lent, and some more.
use crate::book::Book;

// More cells than any pool of the program has.
pub(crate) const CELLS: usize = 4200;

// No slot: the end of a chain.
pub(crate) const NULL: u16 = 0;

#[derive(Clone, Copy)]
pub(crate) struct Pool {
    pub(crate) links: [u16; CELLS],
    pub(crate) values: [u64; CELLS],
    pub(crate) book: Book,
}

// A damaged pool may name slots that it does not have. Past the cells a read gives 0 and a write does nothing.
impl Pool {
    pub(crate) const ZERO: Pool = Pool {
        links: [0; CELLS],
        values: [0; CELLS],
        book: Book::ZERO,
    };

    pub(crate) fn link(&self, slot: u16) -> u16 {
        self.links.get(usize::from(slot)).copied().unwrap_or(0)
    }

    pub(crate) fn value(&self, slot: u16) -> u64 {
        self.values.get(usize::from(slot)).copied().unwrap_or(0)
    }

    pub(crate) fn set_link(&mut self, slot: u16, link: u16) {
        if let Some(cell) = self.links.get_mut(usize::from(slot)) {
            *cell = link;
        }
    }

    pub(crate) fn set_value(&mut self, slot: u16, value: u64) {
        if let Some(cell) = self.values.get_mut(usize::from(slot)) {
            *cell = value;
        }
    }

    // The first slot of a chain: of a list, or of the free slots.
    pub(crate) fn head(&self, chain: usize) -> u16 {
        self.book
            .entries
            .get(chain)
            .map_or(self.book.free_head, |entry| entry.head)
    }
}
