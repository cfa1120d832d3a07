// The four end calls over a book that is lent: each copies the book out, calls the by-value call and stores the book that comes back.
// They are exported under their own names. What C owes and no proof sees: pointers that are aligned and not null, true lengths, and links, values and a book that do not overlap.
// Each is written out, and no helper is handed the call as a closure: it would hold both slices, and the proof of `returns` stays open, since
// what an `FnOnce` ensures says nothing of what it borrowed and changed.
#![tactic(auto)]

ghost use Rattle.std.specs.Prelude.{◌≡◌};
ghost use Rattle.books.specs.Outcome.{outcome};
ghost use Rattle.xor.specs.Ten.{push_back_of, push_front_of, pop_back_of, pop_front_of};
ghost use Rattle.lent.specs.Lent.{pushed, popped};

use books::{Book, Refusal, Value};

// `shares::ends::push_back` on the book that is lent. Refused by 1, 9 to 16, 4, 6 or 7; neither the book nor a slice changes then.
#[unsafe(no_mangle)]
pub extern "C" fn flailreeve_lent_push_back(
    links: &mut [u16],
    values: &mut [u64],
    book: &mut Book,
    list: u16,
    value: u64,
) -> Refusal
    ensures { outcome (pushed result book.new) links.new values.new ≡ push_back_of links.old values.old book.old list value }
{
    let gone = shares::ends::push_back(links, values, *book, list, value);
    *book = gone.book;
    gone.refusal
}

// `shares::ends::push_front`, the same way.
#[unsafe(no_mangle)]
pub extern "C" fn flailreeve_lent_push_front(
    links: &mut [u16],
    values: &mut [u64],
    book: &mut Book,
    list: u16,
    value: u64,
) -> Refusal
    ensures { outcome (pushed result book.new) links.new values.new ≡ push_front_of links.old values.old book.old list value }
{
    let gone = shares::ends::push_front(links, values, *book, list, value);
    *book = gone.book;
    gone.refusal
}

// `shares::ends::pop_back` on the book that is lent. Refused by 1, 9 to 16, 4 or 5, with value 0; neither the book nor a slice changes then.
#[unsafe(no_mangle)]
pub extern "C" fn flailreeve_lent_pop_back(
    links: &mut [u16],
    values: &mut [u64],
    book: &mut Book,
    list: u16,
) -> Value
    ensures { outcome (popped result book.new) links.new values.new ≡ pop_back_of links.old values.old book.old list }
{
    let gone = shares::ends::pop_back(links, values, *book, list);
    *book = gone.book;
    gone.given
}

// `shares::ends::pop_front`, the same way.
#[unsafe(no_mangle)]
pub extern "C" fn flailreeve_lent_pop_front(
    links: &mut [u16],
    values: &mut [u64],
    book: &mut Book,
    list: u16,
) -> Value
    ensures { outcome (popped result book.new) links.new values.new ≡ pop_front_of links.old values.old book.old list }
{
    let gone = shares::ends::pop_front(links, values, *book, list);
    *book = gone.book;
    gone.given
}
