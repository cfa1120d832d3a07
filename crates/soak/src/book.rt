// The program's own records of a book and of an answer, which can be compared; those of the library are made into them and made of them.

// A list's entry.
#[derive(Clone, Copy, PartialEq, Eq, Debug)]
pub(crate) struct Entry {
    pub(crate) head: u16,
    pub(crate) tail: u16,
    pub(crate) share: u16,
    pub(crate) limit: u16,
    pub(crate) length: u16,
}

#[derive(Clone, Copy, PartialEq, Eq)]
pub(crate) struct Book {
    pub(crate) lists: u16,
    pub(crate) entries: [Entry; 8],
    pub(crate) free_head: u16,
    pub(crate) free_count: u16,
}

// A number with its place. A place that is not set is 0 and 0.
#[derive(Clone, Copy, PartialEq, Eq, Debug)]
pub(crate) struct Refusal {
    pub(crate) number: u16,
    pub(crate) list: u16,
    pub(crate) position: u16,
}

// What a call answers: the number with its place, 0 for done; the value popped, the length or the count read, or else 0; and the book.
#[derive(Clone, Copy)]
pub(crate) struct Answer {
    pub(crate) refusal: Refusal,
    pub(crate) value: u64,
    pub(crate) book: Book,
}

impl Entry {
    pub(crate) const ZERO: Entry = Entry {
        head: 0,
        tail: 0,
        share: 0,
        limit: 0,
        length: 0,
    };

    // What a list of a length lacks of its share.
    pub(crate) fn lack(&self, length: u16) -> u32 {
        u32::from(self.share.saturating_sub(length))
    }
}

impl Book {
    pub(crate) const ZERO: Book = Book {
        lists: 0,
        entries: [Entry::ZERO; 8],
        free_head: 0,
        free_count: 0,
    };
}

impl Refusal {
    // What a done call answers. It stays in the record that is compared: the library's has number 0 and must have no place then.
    pub(crate) const DONE: Refusal = Refusal {
        number: 0,
        list: 0,
        position: 0,
    };

    // A number with its place: a list, and a position in its chain.
    pub(crate) fn at(number: u16, list: usize, position: u16) -> Self {
        Refusal {
            number,
            list: u16::try_from(list).unwrap_or(0),
            position,
        }
    }

    // A number that sets no place.
    pub(crate) fn numbered(number: u16) -> Self {
        Refusal {
            number,
            list: 0,
            position: 0,
        }
    }
}

impl Answer {
    // Nothing is answered yet.
    pub(crate) const ZERO: Answer = Answer {
        refusal: Refusal::DONE,
        value: 0,
        book: Book::ZERO,
    };
}

impl From<books::Entry> for Entry {
    fn from(entry: books::Entry) -> Self {
        Entry {
            head: entry.head,
            tail: entry.tail,
            share: entry.share,
            limit: entry.limit,
            length: entry.length,
        }
    }
}

impl From<Entry> for books::Entry {
    fn from(entry: Entry) -> Self {
        books::Entry {
            head: entry.head,
            tail: entry.tail,
            share: entry.share,
            limit: entry.limit,
            length: entry.length,
        }
    }
}

impl From<books::Book> for Book {
    fn from(book: books::Book) -> Self {
        Book {
            lists: book.lists,
            entries: book.entries.map(Entry::from),
            free_head: book.free.head,
            free_count: book.free.count,
        }
    }
}

impl From<Book> for books::Book {
    fn from(book: Book) -> Self {
        books::Book {
            lists: book.lists,
            entries: book.entries.map(books::Entry::from),
            free: books::Free {
                head: book.free_head,
                count: book.free_count,
            },
        }
    }
}

impl From<books::Refusal> for Refusal {
    fn from(refusal: books::Refusal) -> Self {
        Refusal {
            number: refusal.number,
            list: refusal.list,
            position: refusal.position,
        }
    }
}

impl From<books::Answer> for Answer {
    fn from(answer: books::Answer) -> Self {
        Answer {
            refusal: answer.refusal.into(),
            value: 0,
            book: answer.book.into(),
        }
    }
}

impl From<books::Popped> for Answer {
    fn from(popped: books::Popped) -> Self {
        Answer {
            refusal: popped.given.refusal.into(),
            value: popped.given.value,
            book: popped.book.into(),
        }
    }
}
