// The four calls at an end of a list: push back, push front, pop back, pop front.
ghost use Rattle.std.specs.Prelude.{◌≡◌};
ghost use Rattle.books.specs.Book.{eight};
ghost use Rattle.books.specs.Outcome.{outcome};
ghost use Rattle.engines.specs.Calls.{push_call, pop_call};
ghost use Rattle.xor.specs.Engine.{xor};
ghost use Rattle.xor.specs.Ten.{as_answer, as_popped, push_back_of, push_front_of, pop_back_of, pop_front_of};
ghost use Rattle.shares.specs.Answers.{answer_by, popped_answer_by};

use crate::answers::{answer, popped};
use crate::check::listed_in;
use books::{Answer, Book, Popped, Refused};
use shapes::{Chains, End};

// Refused by 1, 9 to 16, 4, 6 or 7; the book comes back as it went in then, and neither slice changes.
pub fn push_back(links: &mut [u16], values: &mut [u64], book: Book, list: u16, value: u64) -> Answer
    ensures { outcome result links.new values.new ≡ push_back_of links.old values.old book list value }
{
    let change = push(links, values, End::Back, book, list, value);
    answer(book, list, change)
}

// Refused as `push_back` is.
pub fn push_front(
    links: &mut [u16],
    values: &mut [u64],
    book: Book,
    list: u16,
    value: u64,
) -> Answer
    ensures { outcome result links.new values.new ≡ push_front_of links.old values.old book list value }
{
    let change = push(links, values, End::Front, book, list, value);
    answer(book, list, change)
}

// Refused by 1, 9 to 16, 4 or 5; value 0 and the book as it went in come back then, and neither slice changes.
pub fn pop_back(links: &mut [u16], values: &mut [u64], book: Book, list: u16) -> Popped
    ensures { outcome result links.new values.new ≡ pop_back_of links.old values.old book list }
{
    let mut value = 0;
    let change = pop(links, values, End::Back, book, list, &mut value);
    popped(book, list, change, value)
}

// Refused as `pop_back` is.
pub fn pop_front(links: &mut [u16], values: &mut [u64], book: Book, list: u16) -> Popped
    ensures { outcome result links.new values.new ≡ pop_front_of links.old values.old book list }
{
    let mut value = 0;
    let change = pop(links, values, End::Front, book, list, &mut value);
    popped(book, list, change, value)
}

fn push(
    links: &mut [u16],
    values: &mut [u64],
    end: End,
    book: Book,
    list: u16,
    value: u64,
) -> Result<Chains, Refused>
    ensures { outcome (answer_by book list result) links.new values.new ≡ as_answer (push_call xor links.old values.old (eight book) list end value) }
{
    let (lacks, chains) = listed_in(links, values, book, list)?;
    Ok(crate::inner::push(links, values, end, chains, lacks, value)?)
}

// The word is 0 where the pop is refused.
fn pop(
    links: &mut [u16],
    values: &mut [u64],
    end: End,
    book: Book,
    list: u16,
    word: &mut u64,
) -> Result<Chains, Refused>
    ensures { outcome (popped_answer_by book list result word.new) links.new values.new ≡ as_popped (pop_call xor links.old values.old (eight book) list end) }
{
    *word = 0;
    let (_, chains) = listed_in(links, values, book, list)?;
    Ok(crate::inner::pop(links, values, end, chains, word)?)
}
