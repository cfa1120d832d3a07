// 02 d)'s quick calls: a push and a pop at an end without the check of the pool. The stored counts are taken as they are. On a sound pool
// they do what the checked calls do. On any other memory they are refused before the first store, or make the step inside the pool.
ghost use Rattle.std.specs.Prelude.{◌≡◌, IfOk, take};
ghost use Rattle.books.specs.Book.{eight, entry_at};
ghost use Rattle.books.specs.Outcome.{outcome};
ghost use Rattle.shapes.specs.Numbers.{first_that};
ghost use Rattle.shapes.specs.Records.{list_change_by};
ghost use Rattle.shapes.specs.Shape.{stored_lacks};
ghost use Rattle.engines.specs.OnList.{on_list};
ghost use Rattle.engines.specs.Quick.{quick_list_tests, quick_push_on, quick_pop_on, quick_push, quick_pop};
ghost use Rattle.xor.specs.Engine.{xor};
ghost use Rattle.xor.specs.Ten.{as_answer, as_popped};
ghost use Rattle.xor.specs.Four.{quick_push_back_of, quick_push_front_of, quick_pop_back_of, quick_pop_front_of};
ghost use Rattle.books.specs.Errors.{number_by};
ghost use Rattle.shares.specs.Answers.{answer_by, popped_answer_by};

use crate::answers::{answer, popped};
use crate::refusals::{pop_number, push_number};
use books::{Answer, Book, Number, Popped, Refused};
use pools::words::words_of;
use shapes::{Chains, End};

// Refused by 1, 17, 4, 17, 6, 7 or 17, in that order; the book comes back as it went in then, and neither slice changes. The first 17 is
// for an L that is not from 1 to 8, the second for a stored count above N-1, the last for a slot or a count that would leave the pool.
pub fn quick_push_back(
    links: &mut [u16],
    values: &mut [u64],
    book: Book,
    list: u16,
    value: u64,
) -> Answer
    ensures { outcome result links.new values.new ≡ quick_push_back_of links.old values.old book list value }
{
    let change = push(links, values, End::Back, book, list, value);
    answer(book, list, change)
}

// Refused as `quick_push_back` is.
pub fn quick_push_front(
    links: &mut [u16],
    values: &mut [u64],
    book: Book,
    list: u16,
    value: u64,
) -> Answer
    ensures { outcome result links.new values.new ≡ quick_push_front_of links.old values.old book list value }
{
    let change = push(links, values, End::Front, book, list, value);
    answer(book, list, change)
}

// Refused by 1, 17, 4, 17, 5 or 17, in that order; value 0 and the book as it went in come back then, and neither slice changes.
pub fn quick_pop_back(links: &mut [u16], values: &mut [u64], book: Book, list: u16) -> Popped
    ensures { outcome result links.new values.new ≡ quick_pop_back_of links.old values.old book list }
{
    let mut value = 0;
    let change = pop(links, values, End::Back, book, list, &mut value);
    popped(book, list, change, value)
}

// Refused as `quick_pop_back` is.
pub fn quick_pop_front(links: &mut [u16], values: &mut [u64], book: Book, list: u16) -> Popped
    ensures { outcome result links.new values.new ≡ quick_pop_front_of links.old values.old book list }
{
    let mut value = 0;
    let change = pop(links, values, End::Front, book, list, &mut value);
    popped(book, list, change, value)
}

// At an end of one list, once 1, 17, 4 and 17 are asked. Refused by 6, 7 or 17, in that order; nothing changes then. 17 is for a length or
// a free count that would leave 0 to N-1, and for a slot that the step would touch and that is none, or is another of them. It is always
// inlined: a caller with a fixed end gets its own tests so, and no test costs more than its branch.
#[inline(always)]
#[tactic(auto, unfolding(engines::specs::Quick::quick_push_on, shapes::specs::Numbers::decided))]
pub fn push_on(
    links: &mut [u16],
    values: &mut [u64],
    end: End,
    chains: Chains,
    lacks: usize,
    value: u64,
) -> Result<Chains, Number>
    ensures { on_list (list_change_by chains result) 0 links.new values.new ≡ quick_push_on xor end links.old values.old chains.list chains.idle lacks value }
{
    push_number(chains.list, chains.list.length, lacks, chains.idle.count)?;
    if links.len() <= usize::from(chains.list.length) + 1 || chains.idle.count == 0 {
        return Err(Number::Untrusted);
    }
    crate::counted::push(links, values, end, chains, value).ok_or(Number::Untrusted)
}

// Refused by 5 or 17, in that order; the word is 0 then, and nothing else changes. The word is stored once, after the cells. It is inlined
// as `push_on` is.
#[inline(always)]
#[tactic(auto, unfolding(engines::specs::Quick::quick_pop_on, shapes::specs::Numbers::decided))]
pub fn pop_on(
    links: &mut [u16],
    values: &mut [u64],
    end: End,
    chains: Chains,
    value: &mut u64,
) -> Result<Chains, Number>
    ensures { on_list (list_change_by chains result) value.new links.new values.new ≡ quick_pop_on xor end links.old values.old chains.list chains.idle }
{
    if let Err(number) = pop_number(chains.list.length) {
        *value = 0;
        return Err(number);
    }
    if links.len() <= usize::from(chains.idle.count) + 1 {
        *value = 0;
        return Err(Number::Untrusted);
    }
    let Some((popped, after)) = crate::counted::pop(links, values, end, chains) else {
        *value = 0;
        return Err(Number::Untrusted);
    };
    *value = popped;
    Ok(after)
}

fn push(
    links: &mut [u16],
    values: &mut [u64],
    end: End,
    book: Book,
    list: u16,
    value: u64,
) -> Result<Chains, Refused>
    ensures { outcome (answer_by book list result) links.new values.new ≡ as_answer (quick_push xor links.old values.old (eight book) list end value) }
{
    let (lacks, chains) = listed(links, values, book, list)?;
    Ok(push_on(links, values, end, chains, lacks, value)?)
}

// The word is 0 where the pop is refused.
fn pop(
    links: &mut [u16],
    values: &mut [u64],
    end: End,
    book: Book,
    list: u16,
    word: &mut u64,
) -> Result<Chains, Refused>
    ensures { outcome (popped_answer_by book list result word.new) links.new values.new ≡ as_popped (quick_pop xor links.old values.old (eight book) list end) }
{
    *word = 0;
    let (_, chains) = listed(links, values, book, list)?;
    Ok(pop_on(links, values, end, chains, word)?)
}

// The first tests, which read the book as words: what the lists lack by their stored lengths, and the list's chains. Refused by 1, 17, 4
// or 17.
fn listed(links: &[u16], values: &[u64], book: Book, list: u16) -> Result<(usize, Chains), Number>
    ensures number { number_by result ≡ first_that (quick_list_tests xor links.now values.now (eight book) list) }
    ensures chains { IfOk result (λ r. (r.0 ≡ stored_lacks (take book.lists book.entries)) × (r.1 ≡ record { list = entry_at book.entries list; idle = book.free })) }
{
    let lacks = pools::quick::early(links, values, &words_of(book), list)?;
    let chains = Chains {
        list: book.entries[usize::from(list)],
        idle: book.free,
    };
    Ok((lacks, chains))
}
