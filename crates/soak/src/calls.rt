// A call is made: what it asks for is lent, and what it leaves and answers is kept.
use crate::book::{Answer, Book};
use crate::kinds::{Call, End, Kind};
use crate::pool::{CELLS, Pool};

// What stands in each cell of the buffer before a call.
pub(crate) const BLANK: u64 = 7000000;

// What a call left in the cells, and what it answered.
#[derive(Clone, Copy)]
pub(crate) struct Got {
    pub(crate) links: [u16; CELLS],
    pub(crate) values: [u64; CELLS],
    pub(crate) buffer: [u64; CELLS],
    pub(crate) answer: Answer,
}

// The answer of a call that returns no book: it is as it was.
fn seen(refusal: books::Refusal, value: u16, book: Book) -> Answer {
    Answer {
        refusal: refusal.into(),
        value: u64::from(value),
        book,
    }
}

fn set_up(links: &mut [u16], values: &mut [u64], asked: Book) -> Answer {
    let shares = asked.entries.map(|entry| entry.share);
    let limits = asked.entries.map(|entry| entry.limit);
    shares::setup::setup(links, values, asked.lists, shares, limits).into()
}

fn push(links: &mut [u16], values: &mut [u64], book: Book, end: End, call: &Call) -> Answer {
    let book = book.into();
    let made = match (end, call.quick) {
        (End::Back, false) => shares::ends::push_back(links, values, book, call.list, call.value),
        (End::Front, false) => shares::ends::push_front(links, values, book, call.list, call.value),
        (End::Back, true) => shares::quick::quick_push_back(
            links, values, book, call.list, call.value,
        ),
        (End::Front, true) => shares::quick::quick_push_front(
            links, values, book, call.list, call.value,
        ),
    };
    made.into()
}

fn pop(links: &mut [u16], values: &mut [u64], book: Book, end: End, call: &Call) -> Answer {
    let book = book.into();
    let popped = match (end, call.quick) {
        (End::Back, false) => shares::ends::pop_back(links, values, book, call.list),
        (End::Front, false) => shares::ends::pop_front(links, values, book, call.list),
        (End::Back, true) => shares::quick::quick_pop_back(links, values, book, call.list),
        (End::Front, true) => shares::quick::quick_pop_front(links, values, book, call.list),
    };
    popped.into()
}

fn read(
    links: &[u16],
    values: &[u64],
    buffer: &mut [u64],
    book: Book,
    end: End,
    call: &Call,
) -> Answer {
    let read = match end {
        End::Front => shares::reads::read_forward(
            links,
            values,
            book.into(),
            call.list,
            buffer,
            call.at,
        ),
        End::Back => shares::reads::read_backward(
            links,
            values,
            book.into(),
            call.list,
            buffer,
            call.at,
        ),
    };
    seen(read.refusal, read.count, book)
}

fn ask(
    links: &mut [u16],
    values: &mut [u64],
    buffer: &mut [u64],
    book: Book,
    call: &Call,
) -> Answer {
    match call.kind {
        Kind::Setup => set_up(links, values, call.asked),
        Kind::Check => seen(shares::check::check(links, values, book.into()), 0, book),
        Kind::Length => {
            let found = shares::reads::length(links, values, book.into(), call.list);
            seen(found.refusal, found.length, book)
        }
        Kind::Push(end) => push(links, values, book, end, call),
        Kind::Pop(end) => pop(links, values, book, end, call),
        Kind::Read(end) => read(links, values, buffer, book, end, call),
        Kind::Clear => shares::clear::clear(links, values, book.into(), call.list).into(),
    }
}

impl Got {
    pub(crate) const NONE: Got = Got {
        links: [0; CELLS],
        values: [0; CELLS],
        buffer: [0; CELLS],
        answer: Answer::ZERO,
    };
}

// The cells are laid out as the pool says that they are, and the call is made.
pub(crate) fn make(call: &Call, pool: &Pool) -> Got {
    let mut links = pool.links;
    let mut values = pool.values;
    let mut buffer = [BLANK; CELLS];
    let many = usize::from(call.links).min(CELLS);
    let more = usize::from(call.values).min(CELLS);
    let room = call.room.min(CELLS);
    let answer = ask(
        &mut links[..many],
        &mut values[..more],
        &mut buffer[..room],
        pool.book,
        call,
    );
    Got {
        links,
        values,
        buffer,
        answer,
    }
}
