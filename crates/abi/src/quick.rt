// The quick pushes and pops for C, 02 d): without the check, and without a place. They read and store those words of the lent book that
// they need, and copy no other. A refused one changes neither the pool nor the book.
ghost use Rattle.std.specs.Prelude.{◌≡◌};
ghost use Rattle.books.specs.Book.{eight};
ghost use Rattle.books.specs.Errors.{number_by};
ghost use Rattle.books.specs.Words.{book_from};
ghost use Rattle.books.specs.Outcome.{outcome};
ghost use Rattle.engines.specs.Quick.{quick_push, quick_pop};
ghost use Rattle.xor.specs.Engine.{xor};
ghost use Rattle.xor.specs.Ten.{as_answer, as_popped};
ghost use Rattle.faces.specs.Quick.{quick_pushed, quick_popped, as_quick_pushed, as_quick_popped, quick_push_back_face, quick_push_front_face, quick_pop_back_face, quick_pop_front_face};

use books::{Number, Words};
use pools::words::{entry_of, free_of, put_list};
use shapes::{Chains, End};

#[unsafe(no_mangle)]
pub extern "C" fn flailreeve_quick_push_back(
    links: &mut [u16],
    values: &mut [u64],
    book: &mut Words,
    list: u16,
    value: u64,
) -> u16
    ensures { outcome (quick_pushed result book.new) links.new values.new ≡ quick_push_back_face links.old values.old book.old list value }
{
    number(push(links, values, book, End::Back, list, value))
}

#[unsafe(no_mangle)]
pub extern "C" fn flailreeve_quick_push_front(
    links: &mut [u16],
    values: &mut [u64],
    book: &mut Words,
    list: u16,
    value: u64,
) -> u16
    ensures { outcome (quick_pushed result book.new) links.new values.new ≡ quick_push_front_face links.old values.old book.old list value }
{
    number(push(links, values, book, End::Front, list, value))
}

#[unsafe(no_mangle)]
pub extern "C" fn flailreeve_quick_pop_back(
    links: &mut [u16],
    values: &mut [u64],
    book: &mut Words,
    list: u16,
    value: &mut u64,
) -> u16
    ensures { outcome (quick_popped result value.new book.new) links.new values.new ≡ quick_pop_back_face links.old values.old book.old list }
{
    number(pop(links, values, book, End::Back, list, value))
}

#[unsafe(no_mangle)]
pub extern "C" fn flailreeve_quick_pop_front(
    links: &mut [u16],
    values: &mut [u64],
    book: &mut Words,
    list: u16,
    value: &mut u64,
) -> u16
    ensures { outcome (quick_popped result value.new book.new) links.new values.new ≡ quick_pop_front_face links.old values.old book.old list }
{
    number(pop(links, values, book, End::Front, list, value))
}

// A push at either end, inlined into its two callers.
#[inline(always)]
fn push(
    links: &mut [u16],
    values: &mut [u64],
    book: &mut Words,
    end: End,
    list: u16,
    value: u64,
) -> Result<(), Number>
    ensures { outcome (quick_pushed (number_by result) book.new) links.new values.new ≡ as_quick_pushed book.old (as_answer (quick_push xor links.old values.old (eight (book_from book.old)) list end value)) }
{
    let lacks = pools::quick::early(links, values, book, list)?;
    let chains = Chains {
        list: entry_of(book, list),
        idle: free_of(book),
    };
    let after = shares::quick::push_on(links, values, end, chains, lacks, value)?;
    put_list(book, list, after);
    Ok(())
}

// A pop at either end. Its value goes into the lent word, which is 0 where the pop is refused. It is stored once, after the cells.
#[inline(always)]
fn pop(
    links: &mut [u16],
    values: &mut [u64],
    book: &mut Words,
    end: End,
    list: u16,
    value: &mut u64,
) -> Result<(), Number>
    ensures { outcome (quick_popped (number_by result) value.new book.new) links.new values.new ≡ as_quick_popped book.old (as_popped (quick_pop xor links.old values.old (eight (book_from book.old)) list end)) }
{
    if let Err(number) = pools::quick::early(links, values, book, list) {
        *value = 0;
        return Err(number);
    }
    let chains = Chains {
        list: entry_of(book, list),
        idle: free_of(book),
    };
    let after = shares::quick::pop_on(links, values, end, chains, value)?;
    put_list(book, list, after);
    Ok(())
}

// The number that C gets, 0 where the call is done.
fn number(answer: Result<(), Number>) -> u16
    ensures { result ≡ number_by answer }
{
    match answer {
        Ok(()) => 0,
        Err(number) => number.into(),
    }
}
