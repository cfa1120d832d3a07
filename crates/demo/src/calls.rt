// The calls of the demonstration, in upstream's order: a list is set up, three values are pushed, and three are popped.
ghost use Rattle.std.specs.Prelude.{◌≡◌, ◌≢◌, IfOk, IfErr};
ghost use Rattle.books.specs.Outcome.{outcome};
ghost use Rattle.shows.specs.Demo.{next_pop, pushed_of, popped_of};

use books::{Answer, Book, Popped};
use shows::Gone;

// 01: "one list with share and limit 5"
const FIVE: [u16; 8] = [5, 0, 0, 0, 0, 0, 0, 0];

// Sets up the list, pushes 2 and 3 at its back and 1 at its front. No call follows one that is refused.
pub(crate) fn push_three(links: &mut [u16], values: &mut [u64]) -> Answer
    ensures { outcome result links.new values.new ≡ pushed_of links.old values.old }
{
    match pushes(links, values) {
        Ok(answer) => answer,
        Err(answer) => answer,
    }
}

// The answer of the last push, or as an error that of the call that was refused.
#[tactic(auto, unfolding(shows::specs::Demo::pushed_of, shows::specs::Demo::next_back, shows::specs::Demo::next_front))]
fn pushes(links: &mut [u16], values: &mut [u64]) -> Result<Answer, Answer>
    ensures done { IfOk result (λ answer. outcome answer links.new values.new ≡ pushed_of links.old values.old) }
    ensures refused { IfErr result (λ answer. outcome answer links.new values.new ≡ pushed_of links.old values.old) }
{
    let made = done(shares::setup::setup(links, values, 1, FIVE, FIVE))?;
    let two = done(shares::ends::push_back(links, values, made.book, 0, 2))?;
    let three = done(shares::ends::push_back(links, values, two.book, 0, 3))?;
    Ok(shares::ends::push_front(links, values, three.book, 0, 1))
}

// An answer is an error where the call was refused.
fn done(answer: Answer) -> Result<Answer, Answer>
    ensures done { IfOk result (λ same. (same ≡ answer) × (answer.refusal.number ≡ 0)) }
    ensures refused { IfErr result (λ same. (same ≡ answer) × (answer.refusal.number ≢ 0)) }
{
    if answer.refusal.number == 0 {
        Ok(answer)
    } else {
        Err(answer)
    }
}

// Pops the back, the front and the front. No call follows one that is refused.
#[tactic(auto, unfolding(shows::specs::Demo::popped_of))]
pub(crate) fn pop_three(links: &mut [u16], values: &mut [u64], book: Book) -> Gone
    ensures { outcome result links.new values.new ≡ popped_of links.old values.old book }
{
    let one = shares::ends::pop_back(links, values, book, 0);
    let two = next_pop(links, values, one);
    let three = next_pop(links, values, two);
    Gone {
        number: three.given.refusal.number,
        last: one.given.value,
        first: two.given.value,
        left: three.given.value,
    }
}

// Pops the front, unless the call before was refused. No `Result`: `Gone` needs the values of the pops before a refused one too.
#[tactic(auto, unfolding(shows::specs::Demo::next_pop))]
fn next_pop(links: &mut [u16], values: &mut [u64], before: Popped) -> Popped
    ensures { outcome result links.new values.new ≡ next_pop (outcome before links.old values.old) }
{
    if before.given.refusal.number != 0 {
        return before;
    }
    shares::ends::pop_front(links, values, before.book, 0)
}
