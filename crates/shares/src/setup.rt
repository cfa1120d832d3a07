// Setup: every slot from 1 on is idle, in order, and the lists are empty.
ghost use Rattle.std.specs.Prelude.{◌≡◌, ◌==◌, ◌-◌, ◌%◌, ◌≤◌, length, take, drop};
ghost use Rattle.std.specs.List.{list_all};
ghost use Rattle.books.specs.Tabulate.{tabulate};
ghost use Rattle.books.specs.Outcome.{outcome};
ghost use Rattle.books.specs.Test.{gather, all_zero, keeps_rules};
ghost use Rattle.books.specs.Errors.{number_by};
ghost use Rattle.engines.specs.Calls.{fresh_book_of};
ghost use Rattle.engines.specs.OnList.{laid_out, lay_out_of};
ghost use Rattle.xor.specs.Engine.{xor, fresh_link};
ghost use Rattle.xor.specs.Ten.{setup_of};
ghost use Rattle.shapes.specs.Setup.{fresh_value, fresh_entry};
ghost use Rattle.books.specs.Book.{most_lists, book_of};

use books::{Answer, Book, Entry, Free, Number, Refusal};

// Refused by 1 where the slices differ in length or the size does not fit, by 2 where L, shares or limits break the book rules;
// the all-zero book comes back then, and neither slice changes. What the slices held before is ignored and overwritten.
pub fn setup(
    links: &mut [u16],
    values: &mut [u64],
    lists: u16,
    shares: [u16; 8],
    limits: [u16; 8],
) -> Answer
    ensures { outcome result links.new values.new ≡ setup_of links.old values.old lists shares limits }
{
    match lay_out(links, values, lists, &shares, &limits) {
        Ok(()) => {
            let free = free_slots(links.len());
            Answer {
                refusal: Refusal::numbered(0),
                book: fresh_book(lists, shares, limits, free),
            }
        }
        Err(number) => Answer {
            refusal: Refusal::numbered(number.into()),
            book: Book::zero(),
        },
    }
}

// Setup but for the book: where it is done, the cells are those of a fresh pool.
#[tactic(auto, unfolding(engines::specs::Calls::setup_call, engines::specs::Check::sizes_fit, shapes::specs::Numbers::decided))]
pub fn lay_out(
    links: &mut [u16],
    values: &mut [u64],
    lists: u16,
    shares: &[u16; 8],
    limits: &[u16; 8],
) -> Result<(), Number>
    ensures { laid_out (number_by result) links.new values.new ≡ lay_out_of xor most_lists links.old values.old lists shares.now limits.now }
{
    if !pools::sizes_fit(links.len(), values.len()) {
        return Err(Number::Sizes);
    }
    if !may_set_up(lists, shares, limits, links.len()) {
        return Err(Number::Setup);
    }
    fresh_links(links);
    fresh_values(values);
    Ok(())
}

// Would the book of such lists keep the book rules in a pool of so many slots?
#[tactic(auto, using(crate::proofs::Paired::rules_decide), unfolding(books::specs::Test::keeps_rules))]
fn may_set_up(lists: u16, shares: &[u16; 8], limits: &[u16; 8], size: usize) -> bool
    ensures { result ≡ keeps_rules size (fresh_book_of (size - 1) most_lists lists shares.now limits.now) }
{
    if lists == 0 || 8 < lists {
        return false;
    }
    let count = usize::from(lists);
    shares_fit(shares, limits, count, size) && rest_zero(shares, limits, count)
}

// Are the first `count` shares within their limits and the limits within the pool, and do the shares add up to less than its size?
fn shares_fit(shares: &[u16; 8], limits: &[u16; 8], count: usize, size: usize) -> bool
    requires { count ≤ 8 }
    ensures { result ≡ gather size (take count (tabulate most_lists (fresh_entry shares.now limits.now))) 0 }
{
    let mut sum: usize = 0;
    for (&share, &limit) in shares[..count].iter().zip(&limits[..count]) {
        if limit < share || size <= usize::from(limit) {
            return false;
        }
        sum += usize::from(share);
    }
    sum < size
}

// Are all shares and limits from `from` on zero?
#[tactic(auto, using(crate::proofs::Paired::rest_told, crate::proofs::Paired::rest_stops))]
fn rest_zero(shares: &[u16; 8], limits: &[u16; 8], from: usize) -> bool
    requires { from ≤ 8 }
    ensures { result ≡ all_zero (drop from (tabulate most_lists (fresh_entry shares.now limits.now))) }
{
    are_zero(&shares[from..]) && are_zero(&limits[from..])
}

fn are_zero(numbers: &[u16]) -> bool
    ensures { result ≡ list_all (λ x. x == 0) numbers.now }
{
    numbers.iter().all(|&number| number == 0)
}

// How many slots of a fresh pool are free: all but the null slot.
pub fn free_slots(size: usize) -> u16
    ensures { result ≡ (size - 1) % 65536 }
{
    (size.saturating_sub(1) % 65536) as u16
}

fn fresh_book(lists: u16, shares: [u16; 8], limits: [u16; 8], free: u16) -> Book
    ensures { result ≡ book_of (fresh_book_of free most_lists lists shares limits) }
{
    Book {
        lists,
        entries: fresh_entries(shares, limits),
        free: Free {
            head: 1,
            count: free,
        },
    }
}

fn fresh_entries(shares: [u16; 8], limits: [u16; 8]) -> [Entry; 8]
    ensures { result ≡ tabulate most_lists (fresh_entry shares limits) }
{
    std::array::from_fn(|list| lists::new(shares[list], limits[list]))
}

// The slot after each, and 0 for the null slot and for the last. The loop has no test in it, so that the compiler stores several at once.
fn fresh_links(links: &mut [u16])
    requires { (2 ≤ length links.old) × (length links.old ≤ 4096) }
    ensures { links.new ≡ tabulate (length links.old) (fresh_link (length links.old)) }
{
    let last = links.len() - 1;
    links[0] = Book::NULL;
    for slot in 1..last {
        links[slot] = (slot + 1) as u16;
    }
    links[last] = Book::NULL;
}

// The null slot's value is 0, every other one is the wipe word.
#[tactic(auto, using(crate::proofs::Fresh::values_laid))]
fn fresh_values(values: &mut [u64])
    requires { 2 ≤ length values.old }
    ensures { values.new ≡ tabulate (length values.old) fresh_value }
{
    values.fill(Book::WIPE);
    values[0] = 0;
}
