// A pool, the calls on it, and its account: each call with what it gives, and what it leaves.
use crate::calls::{Change, Look};
use crate::out::{self, Row};
use crate::steps::LOOKS;
use books::{Answer, Book, Popped, Refusal};
use shares::{check, clear, ends, quick, reads, setup};
use std::io;

#[derive(Drop)]
pub(crate) struct Pool<'a> {
    pub(crate) title: &'a str,
    pub(crate) links: &'a mut [u16],
    pub(crate) values: &'a mut [u64],
    pub(crate) book: Book,
}

// What a call gives, and the book as it leaves it. A setup, a push and a clear hand out no value.
struct Given {
    refusal: Refusal,
    value: u64,
    book: Book,
}

impl From<Answer> for Given {
    fn from(answer: Answer) -> Self {
        Given {
            refusal: answer.refusal,
            value: 0,
            book: answer.book,
        }
    }
}

impl From<Popped> for Given {
    fn from(popped: Popped) -> Self {
        Given {
            refusal: popped.given.refusal,
            value: popped.given.value,
            book: popped.book,
        }
    }
}

// The shares or the limits of the first two lists, and none for the others.
fn eight([first, second]: [u16; 2]) -> [u16; 8] {
    [first, second, 0, 0, 0, 0, 0, 0]
}

impl Pool<'_> {
    // The steps, each behind what stands in the pool before it, and then the pool's account.
    pub(crate) fn run(mut self, rt: &impl Print, steps: &[Change]) -> io::Result<()> {
        print!(rt; "{}", self.title)?;
        for step in steps {
            self.show(rt)?;
            self.change(rt, *step)?;
        }
        self.account(rt)
    }

    // What stands in the pool at its end, and what every pool is asked. A blank line follows.
    fn account(&self, rt: &impl Print) -> io::Result<()> {
        self.show(rt)?;
        for look in LOOKS {
            self.look(rt, look)?;
        }
        print!(rt; "\n\n")
    }

    // What stands in the pool and in the book.
    fn show(&self, rt: &impl Print) -> io::Result<()> {
        print!(rt;
            "\n  links {}, values {}",
            Row(self.links),
            Row(self.values)
        )?;
        out::book(rt, &self.book)
    }

    // One call that may change the pool and the book.
    fn change(&mut self, rt: &impl Print, step: Change) -> io::Result<()> {
        print!(rt; "\n{step}")?;
        let Given {
            refusal,
            value,
            book,
        } = self.give(step);
        self.book = book;
        out::given(rt, refusal, value)
    }

    // What the step gives; the book stays as it was.
    fn give(&mut self, step: Change) -> Given {
        let links = &mut *self.links;
        let values = &mut *self.values;
        let book = self.book;
        match step {
            Change::Setup {
                lists,
                shares,
                limits,
            } => setup::setup(links, values, lists, eight(shares), eight(limits)).into(),
            Change::PushBack { list, value } => {
                ends::push_back(links, values, book, list, value).into()
            }
            Change::PushFront { list, value } => {
                ends::push_front(links, values, book, list, value).into()
            }
            Change::PopBack { list } => ends::pop_back(links, values, book, list).into(),
            Change::PopFront { list } => ends::pop_front(links, values, book, list).into(),
            Change::QuickPushBack { list, value } => {
                quick::quick_push_back(links, values, book, list, value).into()
            }
            Change::QuickPushFront { list, value } => {
                quick::quick_push_front(links, values, book, list, value).into()
            }
            Change::QuickPopBack { list } => {
                quick::quick_pop_back(links, values, book, list).into()
            }
            Change::QuickPopFront { list } => {
                quick::quick_pop_front(links, values, book, list).into()
            }
            Change::Clear { list } => clear::clear(links, values, book, list).into(),
        }
    }

    // One call that may change the buffer alone, of eight places that hold 7.
    fn look(&self, rt: &impl Print, look: Look) -> io::Result<()> {
        let mut buffer = [7; 8];
        print!(rt; "\n{look}")?;
        let (refusal, count) = self.seen(look, &mut buffer);
        out::given(rt, refusal, u64::from(count))?;
        print!(rt; ", buffer {}", Row(&buffer))
    }

    // What the look gives, and how many values it counts: a length or a read.
    fn seen(&self, look: Look, buffer: &mut [u64]) -> (Refusal, u16) {
        let links = &*self.links;
        let values = &*self.values;
        let book = self.book;
        match look {
            Look::Check => (check::check(links, values, book), 0),
            Look::Length { list } => {
                let found = reads::length(links, values, book, list);
                (found.refusal, found.length)
            }
            Look::ReadForward { list, at } => {
                let read = reads::read_forward(links, values, book, list, buffer, at);
                (read.refusal, read.count)
            }
            Look::ReadBackward { list, at } => {
                let read = reads::read_backward(links, values, book, list, buffer, at);
                (read.refusal, read.count)
            }
        }
    }
}
