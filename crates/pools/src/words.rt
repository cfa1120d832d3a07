// The book as C has it, 43 words: L, then head, tail, share, limit and length of each entry, then the free head and the free count. This
// file alone knows where each word stands. The check reads the words where they lie, so that no call has to copy a book.
ghost use Rattle.std.specs.Prelude.{map, ◌≡◌, ◌⊎◌, ◌≤◌, ◌<◌, eqb, length, MatchOption};
ghost use Rattle.std.specs.List.{range_with_len};
ghost use Rattle.shapes.specs.Ends.{new_of};
ghost use Rattle.shapes.specs.Setup.{fresh_entry};
ghost use Rattle.books.specs.Book.{most_lists, eight, book_of, entry_at, words_of};
ghost use Rattle.books.specs.Words.{entry_from, entries_from, book_from};
ghost use Rattle.shapes.specs.Changes.{with_list};
ghost use Rattle.engines.specs.Calls.{fresh_book_of};
ghost use Rattle.pools.specs.Kept.{with_ends};

use books::{Book, Entry, Free, Words};
use shapes::Chains;
use std::array;

// How many lists there are.
pub fn lists_of(words: &Words) -> u16
    ensures { result ≡ (book_from words.now).lists }
{
    words[0]
}

// The free record.
pub fn free_of(words: &Words) -> Free
    ensures { result ≡ (book_from words.now).free }
{
    Free {
        head: words[41],
        count: words[42],
    }
}

// The entry of a list, all zero where there is no such place.
pub fn entry_of(words: &Words, list: u16) -> Entry
    ensures { result ≡ entry_at (book_from words.now).entries list }
{
    let k = usize::from(list);
    if k < 8 {
        entry_at(words, k)
    } else {
        Entry::zero()
    }
}

// A list's entry and the free record, where there is such a list and a place for it. Once that is known, no read or store of the list's
// words asks for its place again.
pub fn chains_of(words: &Words, list: u16) -> Option<Chains>
    ensures { MatchOption result (((book_from words.now).lists ≤ list) ⊎ (most_lists ≤ list)) (λ chains. (list < (book_from words.now).lists) × (list < most_lists) × (chains ≡ record { list = entry_at (book_from words.now).entries list; idle = (book_from words.now).free })) }
{
    let k = usize::from(list);
    if list < lists_of(words) && k < 8 {
        return Some(Chains {
            list: entry_at(words, k),
            idle: free_of(words),
        });
    }
    None
}

// The entry of a list that has a place. No slice holds the entries: C has five words of each. So what goes over them counts the lists. Of
// an entry that is read for one field the compiler leaves the other reads out.
pub(crate) fn entry_at(words: &Words, list: usize) -> Entry
    requires { list < 8 }
    ensures { result ≡ entry_from words.now list }
{
    let k = 5 * list;
    Entry {
        head: words[k + 1],
        tail: words[k + 2],
        share: words[k + 3],
        limit: words[k + 4],
        length: words[k + 5],
    }
}

// The words of a book.
pub fn words_of(book: Book) -> Words
    ensures { result ≡ words_of book }
{
    let mut words = [0u16; 43];
    words[0] = book.lists;
    for (list, entry) in book.entries.iter().enumerate() {
        let k = 5 * list;
        words[k + 1] = entry.head;
        words[k + 2] = entry.tail;
        words[k + 3] = entry.share;
        words[k + 4] = entry.limit;
        words[k + 5] = entry.length;
    }
    words[41] = book.free.head;
    words[42] = book.free.count;
    words
}

// The words of a fresh pool's book: the lists are empty, with their shares and limits, slot 1 is the free head, and so many are free.
pub fn fresh_words(lists: u16, shares: &[u16; 8], limits: &[u16; 8], free: u16) -> Words
    ensures { result ≡ words_of (book_of (fresh_book_of free most_lists lists shares.now limits.now)) }
{
    words_of(Book {
        lists,
        entries: fresh_entries(shares, limits),
        free: Free {
            head: 1,
            count: free,
        },
    })
}

// The entries of empty lists with these shares and limits.
fn fresh_entries(shares: &[u16; 8], limits: &[u16; 8]) -> [Entry; 8]
    ensures { result ≡ map (fresh_entry shares.now limits.now) (range_with_len 0 8) }
{
    array::from_fn(|list| fresh_entry(shares[list], limits[list]))
}

fn fresh_entry(share: u16, limit: u16) -> Entry
    ensures { result ≡ new_of share limit }
{
    Entry {
        share,
        limit,
        ..Entry::zero()
    }
}

// The book with other chains: another entry for one list, and another free record.
pub fn with_list(mut book: Book, k: usize, chains: Chains) -> Book
    ensures { result ≡ book_of (with_list (eight book) k chains.list chains.idle) }
{
    if k < 8 {
        book.entries[k] = chains.list;
    }
    book.free = chains.idle;
    book
}

// The ends and the length of a list and the free record, in the words themselves, where five of them are stored. The list's share and
// limit stay.
pub fn put_list(words: &mut Words, list: u16, chains: Chains)
    ensures { words.new ≡ words_of (book_of (with_list (eight (book_from words.old)) list (with_ends chains.list.head chains.list.tail chains.list.length (entry_at (book_from words.old).entries list)) chains.idle)) }
{
    if list < 8 {
        let k = 5 * usize::from(list);
        words[k + 1] = chains.list.head;
        words[k + 2] = chains.list.tail;
        words[k + 5] = chains.list.length;
    }
    // The count before the head: between the two stores a chain is broken then, and not a count alone.
    words[42] = chains.idle.count;
    words[41] = chains.idle.head;
}
