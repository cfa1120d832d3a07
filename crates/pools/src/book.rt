// Does the book keep the book rules? It is read from the words where they lie.
ghost use Rattle.std.specs.Prelude.{◌≡◌, ◌&&◌, ◌-◌, ◌≤◌, eqb, take, drop};
ghost use Rattle.books.specs.Book.{eight};
ghost use Rattle.books.specs.Test.{is_fair, is_zero, gather, all_zero, keeps_rules};
ghost use Rattle.books.specs.Words.{entry_from, entries_from, book_from};

use crate::words::{entry_at, lists_of};
use books::{Entry, Words};

// In a pool of so many slots. One list is asked apart: its share is the sum, and the seven entries after it are gathered without a test
// of each.
pub(crate) fn keeps_rules(words: &Words, size: usize) -> bool
    ensures { result ≡ keeps_rules size (eight (book_from words.now)) }
{
    let count = usize::from(lists_of(words));
    if count == 1 {
        return keeps_one(words, size);
    }
    if count == 0 || 8 < count {
        return false;
    }
    shares_fit(words, count, size) && rest_zero(words, count)
}

// Is a list's share within its limit, and its limit within the pool?
#[tactic(auto, unfolding(books::specs::Test::is_fair))]
fn is_fair(entry: Entry, size: usize) -> bool
    ensures { result ≡ is_fair size entry }
{
    // Two branches: of both tests joined the compiler makes one number first, which costs more in each list.
    if entry.share <= entry.limit {
        return usize::from(entry.limit) < size;
    }
    false
}

// Are the first `count` entries fair, and do their shares add up to less than the pool's size?
fn shares_fit(words: &Words, count: usize, size: usize) -> bool
    requires { count ≤ 8 }
    ensures { result ≡ gather size (take count (entries_from words.now)) 0 }
{
    let mut sum: usize = 0;
    for k in 0..count {
        let entry = entry_at(words, k);
        if !is_fair(entry, size) {
            return false;
        }
        sum += usize::from(entry.share);
    }
    sum < size
}

// The five words of an entry are gathered into one, so that the compiler reads several at once. It is 0 where they all are.
fn bits_of(entry: Entry) -> u16
    ensures { eqb result 0 ≡ is_zero entry }
{
    entry.head | entry.tail | entry.share | entry.limit | entry.length
}

// The four words before the length lie in one number of 64 bits, and are asked as one.
fn is_zero(entry: Entry) -> bool
    ensures { result ≡ is_zero entry }
{
    let four = entry.head | entry.tail | entry.share | entry.limit;
    if four != 0 {
        return false;
    }
    entry.length == 0
}

// Are all entries from `from` on zero?
fn rest_zero(words: &Words, from: usize) -> bool
    requires { from ≤ 8 }
    ensures { result ≡ all_zero (drop from (entries_from words.now)) }
{
    // A branch for each entry: where the answers are joined, as by `all`, the compiler gathers the words first, which costs more.
    for k in from..8 {
        if !is_zero(entry_at(words, k)) {
            return false;
        }
    }
    true
}

// The rules of a book of one list.
fn keeps_one(words: &Words, size: usize) -> bool
    ensures { result ≡ (is_fair size (entry_from words.now 0) && all_zero (drop 1 (entries_from words.now))) }
{
    if !is_fair(entry_at(words, 0), size) {
        return false;
    }
    let mut bits: u16 = 0;
    for list in 1..8 {
        bits |= bits_of(entry_at(words, list));
    }
    bits == 0
}
