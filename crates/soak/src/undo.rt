// Calls undone: after a done push a pop at the same end, after a done pop a push of its value there. Pool and book must be as before.
use crate::book::{Answer, Refusal};
use crate::dice::Dice;
use crate::expect::Must;
use crate::kinds::Kind;
use crate::soak::Soak;
use std::io;

// Asks for the call that undoes the last one. A push puts back what was popped. Either may be a quick call, whatever the last one was.
pub(crate) fn ask(dice: Dice, soak: &mut Soak, kind: Kind) {
    soak.call.kind = kind;
    soak.call.quick = dice.roll(34, 2) == 1;
    if let Kind::Push(_) = kind {
        soak.call.value = soak.got.answer.value;
    }
}

// After a call by dice: one that was done on a sound pool is undone next, now and then.
pub(crate) fn next(dice: Dice, soak: &mut Soak, must: Must) {
    let done = soak.got.answer.refusal.number == 0 && must == Must::Do;
    soak.undoing = if done && dice.roll(32, 4) == 0 {
        soak.call.kind.opposite()
    } else {
        None
    };
}

// After a call that undid another: it is held to the pool and the book that were kept, and a pop to what was pushed. The deque has been
// asked already, but it may be wrong in the same way as the library.
pub(crate) fn after(rt: &impl Print, soak: &mut Soak, kind: Kind) -> io::Result<()> {
    soak.undoing = None;
    let value = match kind {
        Kind::Pop(_) => {
            soak.tally.taken_back = soak.tally.taken_back.saturating_add(1);
            soak.call.value
        }
        _ => {
            soak.tally.put_back = soak.tally.put_back.saturating_add(1);
            0
        }
    };
    let wanted = Answer {
        refusal: Refusal::DONE,
        value,
        book: soak.kept.book,
    };
    let about = soak.about("kept");
    soak.tally
        .compare_answers(rt, &about, &soak.got.answer, &wanted)?;
    soak.tally
        .compare(rt, &about, "link", &soak.got.links, &soak.kept.links)?;
    soak.tally
        .compare(rt, &about, "value", &soak.got.values, &soak.kept.values)
}
