// Clear: a list is emptied, and every slot that it held is wiped and free.
ghost use Rattle.std.specs.Prelude.{◌≡◌};
ghost use Rattle.books.specs.Outcome.{outcome};
ghost use Rattle.xor.specs.Ten.{clear_of};
ghost use Rattle.shares.specs.Answers.{answer_by};

use crate::answers::answer;
use crate::check::listed_in;
use books::{Answer, Book, Refused};
use shapes::Chains;

// Refused by 1, 9 to 16 or 4; the book comes back as it went in then, and neither slice changes. An empty list is cleared too.
pub fn clear(links: &mut [u16], values: &mut [u64], book: Book, list: u16) -> Answer
    ensures { outcome result links.new values.new ≡ clear_of links.old values.old book list }
{
    let change = cleared(links, values, book, list);
    answer(book, list, change)
}

fn cleared(links: &mut [u16], values: &mut [u64], book: Book, list: u16) -> Result<Chains, Refused>
    ensures { outcome (answer_by book list result) links.new values.new ≡ clear_of links.old values.old book list }
{
    let (_, chains) = listed_in(links, values, book, list)?;
    Ok(crate::inner::clear(links, values, chains))
}
