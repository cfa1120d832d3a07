// The pool as it must be: the deques of its chains, and the cells and the book that they make of it, from document 01's words.
use crate::book::Book;
use crate::deque::{self, CHAINS, Deque, FREE};
use crate::kinds::{Call, End, Kind};
use crate::pool::{CELLS, NULL, Pool};

#[derive(Clone, Copy, PartialEq, Eq)]
pub(crate) enum State {
    Sound,
    Damaged,
    // Before its first setup.
    NotSetUp,
}

#[derive(Clone, Copy)]
pub(crate) struct Model {
    pub(crate) size: u16,
    pub(crate) state: State,
    pub(crate) pool: Pool,
    pub(crate) chains: [Deque; CHAINS],
}

// The links of a chain's slots: the slot before XOR the slot after. A free slot has no slot before.
fn draw_links(links: &mut Pool, chain: usize, slots: &Deque) {
    let mut last = NULL;
    for place in 0..slots.length() {
        let slot = slots.at(place).unwrap_or(NULL);
        let after = slots.at(place + 1).unwrap_or(NULL);
        links.set_link(slot, last ^ after);
        last = deque::before(chain, slot);
    }
}

// The ends and the length of each list, and the head and the count of the free slots.
fn draw_book(book: &mut Book, chains: &[Deque; CHAINS]) {
    for (entry, slots) in book.entries.iter_mut().zip(chains) {
        entry.head = slots.from_end(End::Front, 0).unwrap_or(NULL);
        entry.tail = slots.from_end(End::Back, 0).unwrap_or(NULL);
        entry.length = slots.length();
    }
    book.free_head = chains[FREE].at(0).unwrap_or(NULL);
    book.free_count = chains[FREE].length();
}

impl Model {
    pub(crate) const NEW: Model = Model {
        size: 0,
        state: State::NotSetUp,
        pool: Pool::ZERO,
        chains: [Deque::EMPTY; CHAINS],
    };

    // How many slots a list has. Number 8 tells of the free ones, and one above 8 of none.
    pub(crate) fn length(&self, list: usize) -> u16 {
        self.chains.get(list).map_or(0, Deque::length)
    }

    // The links and the book as the deques say that they must be, and the null slot.
    pub(crate) fn draw(&mut self) {
        for (chain, slots) in self.chains.iter().enumerate() {
            draw_links(&mut self.pool, chain, slots);
        }
        draw_book(&mut self.pool.book, &self.chains);
        self.pool.set_link(NULL, 0);
    }

    // The slot at the free head is taken.
    fn push(&mut self, list: u16, end: End, value: u64) {
        if let Some(slot) = self.chains[FREE].pop_front() {
            if let Some(slots) = self.chains.get_mut(usize::from(list)) {
                slots.push(end, slot);
            }
            self.pool.set_value(slot, value);
        }
    }

    // The slot's value becomes 0, and the slot becomes the free head.
    fn pop(&mut self, list: u16, end: End) -> Option<u64> {
        let slot = self.chains.get_mut(usize::from(list))?.pop(end)?;
        let value = self.pool.value(slot);
        self.chains[FREE].push_front(slot);
        self.pool.set_value(slot, 0);
        Some(value)
    }

    // Popping the front until the list is empty.
    fn clear(&mut self, list: u16) {
        for _ in 0..self.length(usize::from(list)) {
            self.pop(list, End::Front);
        }
    }

    // The lists are empty, every slot from 1 on is free, in order, and every value is 0.
    fn set_up(&mut self, size: u16, asked: Book) {
        self.size = size;
        self.state = State::Sound;
        for slots in &mut self.chains {
            slots.clear();
        }
        for slot in 1..size {
            self.chains[FREE].push_back(slot);
        }
        self.pool.values[..usize::from(size).min(CELLS)].fill(0);
        self.pool.book = asked;
    }

    // What a read must leave in the buffer. Answers how many values it writes.
    fn read(&self, list: u16, end: End, at: usize, buffer: &mut [u64; CELLS]) -> u64 {
        let Some(slots) = self.chains.get(usize::from(list)) else {
            return 0;
        };
        for (place, cell) in (0..slots.length()).zip(buffer.iter_mut().skip(at)) {
            *cell = self.pool.value(slots.from_end(end, place).unwrap_or(NULL));
        }
        u64::from(slots.length())
    }

    // The call that is asked for is done on the deques, and drawn. Answers the value that it must return, 0 where it returns none.
    pub(crate) fn done(&mut self, call: &Call, buffer: &mut [u64; CELLS]) -> u64 {
        let list = call.list;
        let value = match call.kind {
            Kind::Setup => {
                self.set_up(call.links, call.asked);
                0
            }
            Kind::Check => 0,
            Kind::Length => u64::from(self.length(usize::from(list))),
            Kind::Push(end) => {
                self.push(list, end, call.value);
                0
            }
            Kind::Pop(end) => self.pop(list, end).unwrap_or(0),
            Kind::Read(end) => self.read(list, end, call.at, buffer),
            Kind::Clear => {
                self.clear(list);
                0
            }
        };
        self.draw();
        value
    }
}
