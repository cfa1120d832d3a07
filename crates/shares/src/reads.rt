// Length, read forward and read backward, which change neither the pool nor the book.
ghost use Rattle.std.specs.Prelude.{◌≡◌};
ghost use Rattle.books.specs.Book.{eight};
ghost use Rattle.books.specs.Words.{book_from};
ghost use Rattle.shapes.specs.Tests.{read_left};
ghost use Rattle.engines.specs.Calls.{read_call};
ghost use Rattle.xor.specs.Engine.{xor};
ghost use Rattle.xor.specs.Ten.{length_of, read_forward_of, read_backward_of};
ghost use Rattle.shares.specs.Answers.{read_by};

use crate::check::listed;
use crate::refusals::read_number;
use books::{Book, Length, Read, Refusal, Refused, Words};
use pools::words::words_of;
use shapes::End;

// How many slots a list has, as the book says once it is checked. Refused by 1, 9 to 16 or 4, with length 0.
#[tactic(auto, using(crate::proofs::Reached::words_book))]
pub fn length(links: &[u16], values: &[u64], book: Book, list: u16) -> Length
    ensures { result ≡ length_of links.now values.now book list }
{
    length_words(links, values, &words_of(book), list)
}

// The list's values from the front on, into `buffer` from place `at` on. Refused by 1, 9 to 16, 4 or 8, with count 0, and the buffer as it was.
#[tactic(auto, using(crate::proofs::Reached::words_book))]
pub fn read_forward(
    links: &[u16],
    values: &[u64],
    book: Book,
    list: u16,
    buffer: &mut [u64],
    at: usize,
) -> Read
    ensures { read_left result buffer.new ≡ read_forward_of links.now values.now book list buffer.old at }
{
    read_words(links, values, End::Front, &words_of(book), list, buffer, at)
}

// The same from the back on.
#[tactic(auto, using(crate::proofs::Reached::words_book))]
pub fn read_backward(
    links: &[u16],
    values: &[u64],
    book: Book,
    list: u16,
    buffer: &mut [u64],
    at: usize,
) -> Read
    ensures { read_left result buffer.new ≡ read_backward_of links.now values.now book list buffer.old at }
{
    read_words(links, values, End::Back, &words_of(book), list, buffer, at)
}

// Length for a book that lies in words.
#[tactic(auto, using(crate::proofs::Reached::length_early, crate::proofs::Reached::length_went, books::proofs::Errors::number_positive))]
pub fn length_words(links: &[u16], values: &[u64], words: &Words, list: u16) -> Length
    ensures { result ≡ length_of links.now values.now (book_from words.now) list }
{
    match listed(links, values, words, list) {
        Ok((_, chains)) => Length {
            refusal: Refusal::numbered(0),
            length: chains.list.length,
        },
        Err(refused) => Length {
            refusal: refused.into(),
            length: 0,
        },
    }
}

// A read for a book that lies in words, from the front on or from the back.
pub fn read_words(
    links: &[u16],
    values: &[u64],
    end: End,
    words: &Words,
    list: u16,
    buffer: &mut [u64],
    at: usize,
) -> Read
    ensures { read_left result buffer.new ≡ read_call xor links.now values.now (eight (book_from words.now)) list end buffer.old at }
{
    match read(links, values, end, words, list, buffer, at) {
        Ok(count) => Read {
            refusal: Refusal::numbered(0),
            count,
        },
        Err(refused) => Read {
            refusal: refused.into(),
            count: 0,
        },
    }
}

// How many values were read.
fn read(
    links: &[u16],
    values: &[u64],
    end: End,
    words: &Words,
    list: u16,
    buffer: &mut [u64],
    at: usize,
) -> Result<u16, Refused>
    ensures { read_left (read_by result) buffer.new ≡ read_call xor links.now values.now (eight (book_from words.now)) list end buffer.old at }
{
    let (_, chains) = listed(links, values, words, list)?;
    read_number(chains.list.length, buffer.len(), at)?;
    let start = lists::near_of(end, chains.list);
    let count = walks::reads::read(links, values, start, buffer, at);
    Ok(count as u16)
}
