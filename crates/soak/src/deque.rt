// The independent deque: slots in their order, in a ring of 4,096 places, by no code of the library.
ghost use Rattle.std.specs.Prelude.{◌<◌};

use crate::kinds::End;

const PLACES: u16 = 4096;

// The chains of a pool are its lists and, after them, the free slots.
pub(crate) const CHAINS: usize = 9;

pub(crate) const FREE: usize = 8;

// Where in the ring the first slot stands, and how many there are.
#[derive(Clone, Copy)]
pub(crate) struct Deque {
    slots: [u16; 4096],
    first: u16,
    length: u16,
}

// How many slots each chain has.
pub(crate) type Lengths = [u16; CHAINS];

impl Deque {
    pub(crate) const EMPTY: Deque = Deque {
        slots: [0; 4096],
        first: 0,
        length: 0,
    };

    pub(crate) fn length(&self) -> u16 {
        self.length
    }

    pub(crate) fn clear(&mut self) {
        self.first = 0;
        self.length = 0;
    }

    // Where in the ring a place stands.
    fn index(&self, place: u16) -> usize
        ensures { result < 4096 }
    {
        usize::from(self.first.wrapping_add(place) % PLACES)
    }

    // The slot at a place, from the front.
    pub(crate) fn at(&self, place: u16) -> Option<u16> {
        if place < self.length {
            return Some(self.slots[self.index(place)]);
        }
        None
    }

    // The slot at a place, from an end.
    pub(crate) fn from_end(&self, end: End, place: u16) -> Option<u16> {
        match end {
            End::Front => self.at(place),
            End::Back => self.at(self.length.checked_sub(1)?.checked_sub(place)?),
        }
    }

    pub(crate) fn push_front(&mut self, slot: u16) {
        self.first = self.first.wrapping_sub(1) % PLACES;
        let at = self.index(0);
        self.slots[at] = slot;
        self.length = self.length.wrapping_add(1);
    }

    pub(crate) fn push_back(&mut self, slot: u16) {
        let at = self.index(self.length);
        self.slots[at] = slot;
        self.length = self.length.wrapping_add(1);
    }

    pub(crate) fn pop_front(&mut self) -> Option<u16> {
        let slot = self.at(0)?;
        self.first = self.first.wrapping_add(1) % PLACES;
        self.length = self.length.wrapping_sub(1);
        Some(slot)
    }

    pub(crate) fn pop_back(&mut self) -> Option<u16> {
        let last = self.length.checked_sub(1)?;
        self.length = last;
        Some(self.slots[self.index(last)])
    }

    pub(crate) fn push(&mut self, end: End, slot: u16) {
        match end {
            End::Front => self.push_front(slot),
            End::Back => self.push_back(slot),
        }
    }

    pub(crate) fn pop(&mut self, end: End) -> Option<u16> {
        match end {
            End::Front => self.pop_front(),
            End::Back => self.pop_back(),
        }
    }
}

pub(crate) fn lengths(chains: &[Deque; CHAINS]) -> Lengths {
    chains.each_ref().map(|chain| chain.length)
}

// The slot before, for the link after it. A free slot's link does not tell of it.
pub(crate) fn before(chain: usize, slot: u16) -> u16 {
    if chain == FREE { 0 } else { slot }
}
