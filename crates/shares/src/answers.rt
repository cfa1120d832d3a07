// What a call on a list answers by value, from what it did to the list's chains. The chains are put back into the book here alone.
ghost use Rattle.std.specs.Prelude.{◌≡◌};
ghost use Rattle.shares.specs.Answers.{answer_by, popped_answer_by};

use books::{Answer, Book, Popped, Refusal, Refused, Value};
use pools::words::with_list;
use shapes::Chains;

// A refused call answers with the book as it went in.
pub(crate) fn answer(book: Book, list: u16, change: Result<Chains, Refused>) -> Answer
    ensures { result ≡ answer_by book list change }
{
    match change {
        Ok(chains) => Answer {
            refusal: Refusal::numbered(0),
            book: with_list(book, usize::from(list), chains),
        },
        Err(refused) => Answer {
            refusal: refused.into(),
            book,
        },
    }
}

pub(crate) fn popped(book: Book, list: u16, change: Result<Chains, Refused>, value: u64) -> Popped
    ensures { result ≡ popped_answer_by book list change value }
{
    let Answer { refusal, book } = answer(book, list, change);
    Popped {
        given: Value { refusal, value },
        book,
    }
}
