// A sound pool, and for each of the numbers 9 to 16 the same pool with that rule broken first.
use crate::pool::Pool;
use books::{Book, Entry, Free};
use std::io;

// A pool of eight slots and two lists: the cells, and what differs in the book from one pool to the next.
#[derive(Clone, Copy)]
struct Parts {
    links: [u16; 8],
    values: [u64; 8],
    // List 0's share, list 1's tail and limit.
    share: u16,
    tail: u16,
    limit: u16,
    // The lengths of the lists 0 and 1 and of the unused entry 2.
    lengths: [u16; 3],
    free: Free,
}

// List 0 has the slots 1 and 2, list 1 the slots 5, 3 and 6, and the free ones are 7 and 4, in this order.
const SOUND: Parts = Parts {
    links: [0, 2, 1, 3, 0, 3, 3, 4],
    values: [0, 10, 20, 40, 0, 30, 50, 0],
    share: 2,
    tail: 6,
    limit: 3,
    lengths: [2, 3, 0],
    free: Free { head: 7, count: 2 },
};

impl Parts {
    fn book(&self) -> Book {
        let [length_0, length_1, length_2] = self.lengths;
        let first = Entry {
            head: 1,
            tail: 2,
            share: self.share,
            limit: 5,
            length: length_0,
        };
        let second = Entry {
            head: 5,
            tail: self.tail,
            share: 1,
            limit: self.limit,
            length: length_1,
        };
        let none = Entry::zero();
        let third = Entry {
            length: length_2,
            ..none
        };
        Book {
            lists: 2,
            entries: [first, second, third, none, none, none, none, none],
            free: self.free,
        }
    }

    // The pool and its account. The title is the number, and what is changed.
    fn run(mut self, rt: &impl Print, title: &str) -> io::Result<()> {
        let book = self.book();
        let pool = Pool {
            title,
            links: &mut self.links,
            values: &mut self.values,
            book,
        };
        pool.run(rt, &[])
    }
}

fn nine_to_eleven(rt: &impl Print) -> io::Result<()> {
    SOUND.run(rt, "sound, two lists")?;
    Parts { share: 6, ..SOUND }.run(rt, "9: share > limit")?;
    Parts {
        lengths: [2, 3, 1],
        ..SOUND
    }
    .run(rt, "9: unused length")?;
    Parts {
        values: [9, 10, 20, 40, 0, 30, 50, 0],
        ..SOUND
    }
    .run(rt, "10: slot 0 value")?;
    // Behind slots 5 and 3 of list 1 stands slot 8.
    Parts {
        links: [0, 2, 1, 13, 0, 3, 3, 4],
        ..SOUND
    }
    .run(rt, "11: no such slot")?;
    Parts { tail: 3, ..SOUND }.run(rt, "11: not the tail")
}

fn twelve_to_fifteen(rt: &impl Print) -> io::Result<()> {
    // Behind the free slots stands slot 2 of list 0.
    Parts {
        links: [0, 2, 1, 3, 2, 3, 3, 4],
        ..SOUND
    }
    .run(rt, "12: met before")?;
    // Slots 7 and 4 are in no chain, and the lower one is named.
    Parts {
        free: Free { head: 0, count: 2 },
        ..SOUND
    }
    .run(rt, "13: in no chain")?;
    // Slot 7 stands first in the chain, and the lower one is named.
    Parts {
        values: [0, 10, 20, 40, 9, 30, 50, 9],
        ..SOUND
    }
    .run(rt, "14: not wiped")?;
    Parts { limit: 2, ..SOUND }.run(rt, "15: past a limit")?;
    // List 0 lacks three slots of its share, and two are free.
    Parts { share: 5, ..SOUND }.run(rt, "15: too few free")
}

// 15 goes by the slots that there are, and comes before 16. What the counts say in its place gives 16.
fn fifteen_or_sixteen(rt: &impl Print) -> io::Result<()> {
    // List 1 has three slots, one past its limit, and its length says two.
    Parts {
        limit: 2,
        lengths: [2, 2, 0],
        ..SOUND
    }
    .run(rt, "15: length fits")?;
    // List 0 lacks three slots of its share, and two are free; its length says that it lacks none, and the count that nine are free.
    Parts {
        share: 5,
        lengths: [5, 3, 0],
        free: Free { head: 7, count: 9 },
        ..SOUND
    }
    .run(rt, "15: counts cover")?;
    // List 1 is at its limit, and its length says one more.
    Parts {
        lengths: [2, 4, 0],
        ..SOUND
    }
    .run(rt, "16: past a limit")?;
    // List 0 lacks one slot, and the count says that none is free.
    Parts {
        share: 3,
        free: Free { head: 7, count: 0 },
        ..SOUND
    }
    .run(rt, "16: too few free")
}

fn sixteen(rt: &impl Print) -> io::Result<()> {
    Parts {
        lengths: [3, 3, 0],
        ..SOUND
    }
    .run(rt, "16: list 0")?;
    // One bit of the upper half is wrong.
    Parts {
        lengths: [2, 259, 0],
        ..SOUND
    }
    .run(rt, "16: list 1")?;
    // The lowest list is named. The sum is that of the right counts.
    Parts {
        lengths: [1, 5, 0],
        free: Free { head: 7, count: 1 },
        ..SOUND
    }
    .run(rt, "16: all three")?;
    Parts {
        free: Free { head: 7, count: 3 },
        ..SOUND
    }
    .run(rt, "16: free count")
}

pub(crate) fn rules(rt: &impl Print) -> io::Result<()> {
    nine_to_eleven(rt)?;
    twelve_to_fifteen(rt)?;
    fifteen_or_sixteen(rt)?;
    sixteen(rt)
}
