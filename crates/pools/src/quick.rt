// What a quick call asks before it asks anything of its own list: the sizes, L, the list's number and the stored counts. The pool is not
// walked, and the book is read from the words where they lie.
ghost use Rattle.std.specs.Prelude.{◌≡◌, ◌≤◌, true, false, take, IfOk, MatchOption};
ghost use Rattle.books.specs.Book.{eight};
ghost use Rattle.books.specs.Words.{entries_from, book_from};
ghost use Rattle.shapes.specs.Shape.{stored_lacks};
ghost use Rattle.shapes.specs.Numbers.{first_that};
ghost use Rattle.shapes.specs.Quick.{lengths_fit};
ghost use Rattle.engines.specs.Quick.{quick_list_tests};
ghost use Rattle.xor.specs.Engine.{xor};
ghost use Rattle.pools.specs.Quick.{counted_tests, early_number};

use crate::words::{entry_at, free_of, lists_of};
use books::{Number, Words};

// What the lists lack of their shares by their stored lengths, or the number that refuses: 1 where the sizes do not fit; 17 where L is not
// from 1 to 8; 4 where there is no such list; 17 where a stored length of the L lists, or the stored free count, is above N-1. A call that
// needs no such sum passes over it, and the compiler leaves it out there.
pub fn early(links: &[u16], values: &[u64], words: &Words, list: u16) -> Result<usize, Number>
    ensures number { early_number result ≡ first_that (quick_list_tests xor links.now values.now (eight (book_from words.now)) list) }
    ensures lacks { IfOk result (λ lacks. lacks ≡ stored_lacks (take (book_from words.now).lists (book_from words.now).entries)) }
{
    let lists = counted(links, values, words, list)?;
    tally(words, lists, links.len()).ok_or(Number::Untrusted)
}

// The tests before the stored lengths: 1, 17, 4, and 17 for the free count. That L is not 0 is asked only where there is no such list,
// since a call that is done then needs no such test. Answers L.
fn counted(links: &[u16], values: &[u64], words: &Words, list: u16) -> Result<usize, Number>
    ensures number { early_number result ≡ first_that (counted_tests xor links.now values.now (eight (book_from words.now)) list) }
    ensures lists { IfOk result (λ lists. (lists ≡ (book_from words.now).lists) × (lists ≤ 8)) }
{
    let size = links.len();
    if !crate::sizes_fit(size, values.len()) {
        return Err(Number::Sizes);
    }
    let lists = lists_of(words);
    if 8 < lists {
        return Err(Number::Untrusted);
    }
    if lists <= list {
        if lists == 0 {
            return Err(Number::Untrusted);
        }
        return Err(Number::NoList);
    }
    let free = free_of(words);
    if usize::from(free.count) < size {
        return Ok(usize::from(lists));
    }
    Err(Number::Untrusted)
}

// What the first `count` lists lack by their stored lengths, or none where one of these is not below the pool's size. It is summed in 64
// bits, since eight shares do not fit 16.
fn tally(words: &Words, count: usize, size: usize) -> Option<usize>
    requires { count ≤ 8 }
    ensures { MatchOption result (lengths_fit size (take count (entries_from words.now)) ≡ false) (λ lacks. (lengths_fit size (take count (entries_from words.now)) ≡ true) × (lacks ≡ stored_lacks (take count (entries_from words.now)))) }
{
    let mut sum: usize = 0;
    for k in 0..count {
        let entry = entry_at(words, k);
        let length = usize::from(entry.length);
        if size <= length {
            return None;
        }
        sum += usize::from(entry.share).saturating_sub(length);
    }
    Some(sum)
}
