// A list is emptied in one go along it: each of its slots is released as the walk passes it.
ghost use Rattle.std.specs.Prelude.{◌≡◌};
ghost use Rattle.books.specs.Book.{null_slot};
ghost use Rattle.books.specs.Outcome.{outcome};
ghost use Rattle.xor.specs.Along.{clear_along};

use books::{Book, Free};

// At most `count` slots from `start` on: a slot's link becomes the free head, its value the wipe word, and it becomes the free head.
// Answers the idle chain then, its stored count as it was. A number that has no link or no value ends it; what was done before is done.
// Each cell is stored once, where popping the front would change the neighbour's link too. A slot is kept as an index.
pub fn clear(links: &mut [u16], values: &mut [u64], start: u16, free: Free, count: usize) -> Free
    ensures { outcome result links.new values.new ≡ clear_along count links.old values.old null_slot start free }
{
    let mut slot = rules::wide(start);
    let mut last: usize = 0;
    let mut head = rules::wide(free.head);
    let mut left = count;
    let size = crate::least(links.len(), values.len());
    while 0 < left {
        if size <= slot {
            return Free {
                head: head as u16,
                count: free.count,
            };
        }
        let next = rules::wide(links[slot]) ^ last;
        links[slot] = head as u16;
        values[slot] = Book::WIPE;
        head = slot;
        last = slot;
        slot = next;
        left -= 1;
    }
    Free {
        head: head as u16,
        count: free.count,
    }
}
