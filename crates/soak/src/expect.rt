// What a call must give and leave, in the documents' words, and whether it did.
use crate::book::{Answer, Book, Entry, Refusal};
use crate::broken::Reading;
use crate::deque::{self, FREE};
use crate::kinds::{Call, Kind};
use crate::model::{Model, State};
use crate::pool::CELLS;
use crate::{quick, sound};

// What a call must do: be refused, or be done, which the deques show, or the cells where the deques do not tell of them.
#[derive(Clone, Copy, PartialEq, Eq)]
pub(crate) enum Must {
    Refuse(Refusal),
    Do,
    DoOnCells,
}

// 6 or 7, for a list that holds so many, where so many slots are free and the lists lack so many. Above its limit neither is given.
pub(crate) fn push_number(entry: &Entry, length: u16, free: u16, lacks: u32) -> Option<u16> {
    if length == entry.limit {
        return Some(6);
    }
    if length < entry.limit && entry.share <= length && u32::from(free) <= lacks {
        return Some(7);
    }
    None
}

// 5.
pub(crate) fn pop_number(length: u16) -> Option<u16> {
    (length == 0).then_some(5)
}

// 8.
fn read_number(call: &Call, length: u16) -> Option<u16> {
    match call.room.checked_sub(call.at) {
        Some(left) if usize::from(length) <= left => None,
        _ => Some(8),
    }
}

// 4 to 8, on a sound pool.
fn list_number(model: &Model, call: &Call) -> Option<u16> {
    let book = &model.pool.book;
    if book.lists <= call.list {
        return Some(4);
    }
    let lengths = deque::lengths(&model.chains);
    let list = usize::from(call.list);
    let length = model.length(list);
    match call.kind {
        Kind::Push(_) => push_number(
            book.entries.get(list)?,
            length,
            lengths[FREE],
            sound::lacks(book, &lengths),
        ),
        Kind::Pop(_) => pop_number(length),
        Kind::Read(_) => read_number(call, length),
        _ => None,
    }
}

fn refused_or(refusal: Option<Refusal>, done: Must) -> Must {
    refusal.map_or(done, Must::Refuse)
}

// 9 to 16 by the program's reading of the pool, and then 4 to 8. A damaged pool, and one of another size than it was set up for, must break
// a rule, and no other may: else 3, which no call gives. A quick call that meets a broken rule goes by its own ones.
fn ruled(model: &Model, reading: &mut Reading, call: &Call) -> Must {
    let faulty = call.links != model.size || model.state != State::Sound;
    match reading.first_fault(&model.pool, call.links) {
        Some(fault) if !faulty => Must::Refuse(Refusal { number: 3, ..fault }),
        Some(_) if call.quick => refused_or(
            quick::refusal(&model.pool, call, call.links),
            Must::DoOnCells,
        ),
        Some(fault) => Must::Refuse(fault),
        None if faulty => Must::Refuse(Refusal::numbered(3)),
        None if call.kind == Kind::Check => Must::Do,
        None => refused_or(list_number(model, call).map(Refusal::numbered), Must::Do),
    }
}

// The tests run in this order: 1, then of a setup 2, of the others 9 to 16 and 4 to 8.
fn decide(model: &Model, reading: &mut Reading, call: &Call) -> Must {
    if call.links != call.values || !(2..=4096).contains(&call.links) {
        return Must::Refuse(Refusal::numbered(1));
    }
    if call.kind != Kind::Setup {
        return ruled(model, reading, call);
    }
    if sound::rules_kept(&call.asked, &sound::fresh(call.links), call.links) {
        return Must::Do;
    }
    Must::Refuse(Refusal::numbered(2))
}

// What the call must answer, and what it must leave in the model and in the buffer. A refused setup answers with the all-zero book.
pub(crate) fn expect(
    model: &mut Model,
    reading: &mut Reading,
    call: &Call,
    buffer: &mut [u64; CELLS],
) -> (Must, Answer) {
    let must = decide(model, reading, call);
    let (refusal, value) = match must {
        Must::Refuse(refusal) => (refusal, 0),
        Must::Do => (Refusal::DONE, model.done(call, buffer)),
        Must::DoOnCells => (Refusal::DONE, quick::done(model, call).unwrap_or(0)),
    };
    let book = match must {
        Must::Refuse(_) if call.kind == Kind::Setup => Book::ZERO,
        _ => model.pool.book,
    };
    (
        must,
        Answer {
            refusal,
            value,
            book,
        },
    )
}
