// Setup, the pushes, the pops and clear for C. A refused one changes neither the pool nor the book, and stores nothing there. Each but setup
// writes the place, 0 and 0 where its number sets none: first these, so that a call that is done keeps nothing for it.
ghost use Rattle.std.specs.Prelude.{◌≡◌};
ghost use Rattle.books.specs.Book.{eight};
ghost use Rattle.books.specs.Errors.{refusal_told};
ghost use Rattle.books.specs.Place.{place_in};
ghost use Rattle.books.specs.Words.{book_from, place_from};
ghost use Rattle.books.specs.Outcome.{outcome};
ghost use Rattle.engines.specs.Calls.{push_call, pop_call};
ghost use Rattle.xor.specs.Engine.{xor};
ghost use Rattle.xor.specs.Ten.{as_answer, as_popped, clear_of};
ghost use Rattle.faces.specs.Face.{prepared, changed, handed, as_changed, as_handed, setup_face, push_back_face, push_front_face, pop_back_face, pop_front_face, clear_face};

use crate::words::noted;
use books::{Refused, Words};
use pools::words::put_list;
use shapes::End;
use shares::check::listed;

#[unsafe(no_mangle)]
pub extern "C" fn flailreeve_setup(
    links: &mut [u16],
    values: &mut [u64],
    lists: u16,
    shares: &[u16; 8],
    limits: &[u16; 8],
    book: &mut Words,
) -> u16
    ensures { outcome (prepared result book.new) links.new values.new ≡ setup_face links.old values.old lists shares.now limits.now book.old }
{
    match shares::setup::lay_out(links, values, lists, shares, limits) {
        Ok(()) => {
            let free = shares::setup::free_slots(links.len());
            *book = pools::words::fresh_words(lists, shares, limits, free);
            0
        }
        Err(number) => number.into(),
    }
}

#[unsafe(no_mangle)]
pub extern "C" fn flailreeve_push_back(
    links: &mut [u16],
    values: &mut [u64],
    book: &mut Words,
    list: u16,
    value: u64,
    place: &mut [u16; 2],
) -> u16
    ensures { outcome (changed result (place_from place.new) book.new) links.new values.new ≡ push_back_face links.old values.old book.old list value }
{
    *place = [0, 0];
    let change = push(links, values, book, End::Back, list, value);
    noted(change, place)
}

#[unsafe(no_mangle)]
pub extern "C" fn flailreeve_push_front(
    links: &mut [u16],
    values: &mut [u64],
    book: &mut Words,
    list: u16,
    value: u64,
    place: &mut [u16; 2],
) -> u16
    ensures { outcome (changed result (place_from place.new) book.new) links.new values.new ≡ push_front_face links.old values.old book.old list value }
{
    *place = [0, 0];
    let change = push(links, values, book, End::Front, list, value);
    noted(change, place)
}

#[unsafe(no_mangle)]
pub extern "C" fn flailreeve_pop_back(
    links: &mut [u16],
    values: &mut [u64],
    book: &mut Words,
    list: u16,
    value: &mut u64,
    place: &mut [u16; 2],
) -> u16
    ensures { outcome (handed result (place_from place.new) value.new book.new) links.new values.new ≡ pop_back_face links.old values.old book.old list }
{
    *place = [0, 0];
    let change = pop(links, values, book, End::Back, list, value);
    let number = noted(change, place);
    if number != 0 {
        *value = 0;
    }
    number
}

#[unsafe(no_mangle)]
pub extern "C" fn flailreeve_pop_front(
    links: &mut [u16],
    values: &mut [u64],
    book: &mut Words,
    list: u16,
    value: &mut u64,
    place: &mut [u16; 2],
) -> u16
    ensures { outcome (handed result (place_from place.new) value.new book.new) links.new values.new ≡ pop_front_face links.old values.old book.old list }
{
    *place = [0, 0];
    let change = pop(links, values, book, End::Front, list, value);
    let number = noted(change, place);
    if number != 0 {
        *value = 0;
    }
    number
}

#[unsafe(no_mangle)]
pub extern "C" fn flailreeve_clear(
    links: &mut [u16],
    values: &mut [u64],
    book: &mut Words,
    list: u16,
    place: &mut [u16; 2],
) -> u16
    ensures { outcome (changed result (place_from place.new) book.new) links.new values.new ≡ clear_face links.old values.old book.old list }
{
    *place = [0, 0];
    let change = clear(links, values, book, list);
    noted(change, place)
}

// A push at either end. Each end has its own tests, since this is inlined into its two callers.
#[inline(always)]
fn push(
    links: &mut [u16],
    values: &mut [u64],
    book: &mut Words,
    end: End,
    list: u16,
    value: u64,
) -> Result<(), Refused>
    ensures { outcome (changed (refusal_told result).number (place_in (refusal_told result)) book.new) links.new values.new ≡ as_changed book.old (as_answer (push_call xor links.old values.old (eight (book_from book.old)) list end value)) }
{
    let (lacks, chains) = listed(links, values, book, list)?;
    let after = shares::inner::push(links, values, end, chains, lacks, value)?;
    put_list(book, list, after);
    Ok(())
}

// A pop at either end. Its value goes into the lent word, which is 0 where the pop is refused. It is stored once: where the pop is done after
// the cells, and else after the place, for which the callers store the 0 again.
#[inline(always)]
fn pop(
    links: &mut [u16],
    values: &mut [u64],
    book: &mut Words,
    end: End,
    list: u16,
    value: &mut u64,
) -> Result<(), Refused>
    ensures { outcome (handed (refusal_told result).number (place_in (refusal_told result)) value.new book.new) links.new values.new ≡ as_handed book.old (as_popped (pop_call xor links.old values.old (eight (book_from book.old)) list end)) }
{
    let (_, chains) = match listed(links, values, book, list) {
        Ok(seen) => seen,
        Err(refused) => {
            *value = 0;
            return Err(refused);
        }
    };
    let after = shares::inner::pop(links, values, end, chains, value)?;
    put_list(book, list, after);
    Ok(())
}

fn clear(links: &mut [u16], values: &mut [u64], book: &mut Words, list: u16) -> Result<(), Refused>
    ensures { outcome (changed (refusal_told result).number (place_in (refusal_told result)) book.new) links.new values.new ≡ as_changed book.old (clear_of links.old values.old (book_from book.old) list) }
{
    let (_, chains) = listed(links, values, book, list)?;
    let after = shares::inner::clear(links, values, chains);
    put_list(book, list, after);
    Ok(())
}
