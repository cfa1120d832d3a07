// The check, as a call of its own, and as the first step of a call on a list.
ghost use Rattle.std.specs.Prelude.{◌≡◌, IfOk};
ghost use Rattle.books.specs.Book.{eight, entry_at};
ghost use Rattle.books.specs.Words.{book_from};
ghost use Rattle.engines.specs.Calls.{on_list_of};
ghost use Rattle.xor.specs.Engine.{xor};
ghost use Rattle.xor.specs.Ten.{check_of};
ghost use Rattle.shares.specs.Answers.{listed_by};

use books::{Book, Number, Refusal, Refused, Words};
use pools::words::{chains_of, words_of};
use shapes::Chains;

// Is the pool sound? 0 where it is; 1 where the sizes do not fit; else the rule that is first broken, 9 to 16, with its place. Neither the pool nor the book changes.
#[tactic(auto, using(crate::proofs::Reached::words_book))]
pub fn check(links: &[u16], values: &[u64], book: Book) -> Refusal
    ensures { result ≡ check_of links.now values.now book }
{
    check_words(links, values, &words_of(book))
}

// The same for a book that lies in words.
#[tactic(auto, using(engines::proofs::Looking::look_check))]
pub fn check_words(links: &[u16], values: &[u64], words: &Words) -> Refusal
    ensures { result ≡ check_of links.now values.now (book_from words.now) }
{
    match pools::check::look(links, values, words) {
        Ok(_) => Refusal::numbered(0),
        Err(refused) => refused.into(),
    }
}

// The check, and then the test of the list: what the lists lack, and the list's chains. Refused by 1, 9 to 16 or 4.
// It is always inlined, and so is `look`: as a function of its own it would hand its record back through memory.
#[inline(always)]
pub fn listed(
    links: &[u16],
    values: &[u64],
    words: &Words,
    list: u16,
) -> Result<(usize, Chains), Refused>
    ensures seen { listed_by result ≡ on_list_of xor links.now values.now (eight (book_from words.now)) list }
    ensures chains { IfOk result (λ r. r.1 ≡ record { list = entry_at (book_from words.now).entries list; idle = (book_from words.now).free }) }
{
    let lacks = pools::check::look(links, values, words)?;
    let chains = chains_of(words, list).ok_or(Number::NoList)?;
    Ok((lacks, chains))
}

// The same for a book by value. The check reads it as words.
#[tactic(auto, using(crate::proofs::Reached::words_book))]
pub(crate) fn listed_in(
    links: &[u16],
    values: &[u64],
    book: Book,
    list: u16,
) -> Result<(usize, Chains), Refused>
    ensures seen { listed_by result ≡ on_list_of xor links.now values.now (eight book) list }
    ensures chains { IfOk result (λ r. r.1 ≡ record { list = entry_at book.entries list; idle = book.free }) }
{
    listed(links, values, &words_of(book), list)
}
