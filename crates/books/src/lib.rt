// The records of a pool's book and of the calls' answers, with the book's constants; nothing here knows of links.
#![tactic(auto)]

ghost use Rattle.std.specs.Prelude.{◌≡◌, MatchResult, Some, None};
ghost use Rattle.books.specs.Book.{zero_entry, zero_book};
ghost use Rattle.books.specs.Place.{numbered};
ghost use Rattle.books.specs.Errors.{error_number, number_from, refused_by_number, refusal_by, refusal_told};

// The idle chain: its first slot, or 0, and how many slots are free. It is passed whole, so that a new field changes no signature.
#[repr(C)]
#[derive(Clone, Copy, Debug, PartialEq, Eq)]
pub struct Free {
    pub head: u16,
    pub count: u16,
}

// One list: its ends, how many slots it may always have and may have at most, and how many it has.
#[repr(C)]
#[derive(Clone, Copy, Debug, PartialEq, Eq)]
pub struct Entry {
    pub head: u16,
    pub tail: u16,
    pub share: u16,
    pub limit: u16,
    pub length: u16,
}

// The number that a call answers with, 0 for done, and for 11 to 16 where the first broken rule is broken: the list and the position that the
// number sets, and else 0.
#[repr(C)]
#[derive(Clone, Copy, Debug, PartialEq, Eq)]
pub struct Refusal {
    pub number: u16,
    pub list: u16,
    pub position: u16,
}

// The numbers that refuse a call, as 01 and 02 have them. 0 is no error, and 3 is given by no call (02 b).
#[derive(Clone, Copy, Debug, PartialEq, Eq)]
pub enum Number {
    Sizes = 1,
    Setup = 2,
    NoList = 4,
    Empty = 5,
    AtLimit = 6,
    NoSlot = 7,
    Buffer = 8,
    BookRules = 9,
    NullSlot = 10,
    LiveChain = 11,
    IdleChain = 12,
    NoChain = 13,
    NotWiped = 14,
    Limits = 15,
    Counts = 16,
    Untrusted = 17,
}

// Why a call is refused, as an error: a number, and where it sets a place the list and the position, and else 0.
// `Refusal` says the same to C, where a call that is done has the number 0.
#[derive(Clone, Copy, Debug, PartialEq, Eq)]
pub struct Refused {
    pub number: Number,
    pub list: u16,
    pub position: u16,
}

// How many lists there are, one entry for each, the rest all zero, and the idle chain.
#[repr(C)]
#[derive(Clone, Copy, Debug, PartialEq, Eq)]
pub struct Book {
    pub lists: u16,
    pub entries: [Entry; 8],
    pub free: Free,
}

// The book as words, in the order in which its fields stand: as C has it, and as the check reads it.
pub type Words = [u16; 43];

// The number of a call, and the book as it leaves it.
#[repr(C)]
#[derive(Clone, Copy, Debug, PartialEq, Eq)]
pub struct Answer {
    pub refusal: Refusal,
    pub book: Book,
}

// The number of a pop, and the value that it hands out, 0 where it is refused.
#[repr(C)]
#[derive(Clone, Copy, Debug, PartialEq, Eq)]
pub struct Value {
    pub refusal: Refusal,
    pub value: u64,
}

// What a pop hands out, and the book as it leaves it.
#[repr(C)]
#[derive(Clone, Copy, Debug, PartialEq, Eq)]
pub struct Popped {
    pub given: Value,
    pub book: Book,
}

// The number, and a list's length, 0 where the call is refused.
#[repr(C)]
#[derive(Clone, Copy, Debug, PartialEq, Eq)]
pub struct Length {
    pub refusal: Refusal,
    pub length: u16,
}

// The number, and how many values were written, 0 where the call is refused.
#[repr(C)]
#[derive(Clone, Copy, Debug, PartialEq, Eq)]
pub struct Read {
    pub refusal: Refusal,
    pub count: u16,
}

impl Entry {
    // The all-zero entry, which no list has.
    pub fn zero() -> Self
        ensures { result ≡ zero_entry }
    {
        Entry {
            head: 0,
            tail: 0,
            share: 0,
            limit: 0,
            length: 0,
        }
    }
}

impl Refusal {
    // A number that sets no place.
    pub fn numbered(number: u16) -> Self
        ensures { result ≡ numbered number }
    {
        Refusal {
            number,
            list: 0,
            position: 0,
        }
    }
}

impl From<Number> for u16 {
    ghost from_gives = { λ number n. n ≡ error_number number };

    fn from(number: Number) -> u16 {
        number as u16
    }
}

// A number that refuses no call: 0, 3, or one above 17.
#[derive(Clone, Copy, Debug, PartialEq, Eq)]
pub struct NoNumber;

impl TryFrom<u16> for Number {
    type Error = NoNumber;

    ghost try_from_gives = { λ n answer. MatchResult answer (λ number. number_from n ≡ Some number) (λ _. number_from n ≡ None) };

    #[tactic(auto, unfolding(crate::specs::Errors::number_from))]
    fn try_from(n: u16) -> Result<Number, NoNumber> {
        match n {
            1 => Ok(Number::Sizes),
            2 => Ok(Number::Setup),
            4 => Ok(Number::NoList),
            5 => Ok(Number::Empty),
            6 => Ok(Number::AtLimit),
            7 => Ok(Number::NoSlot),
            8 => Ok(Number::Buffer),
            9 => Ok(Number::BookRules),
            10 => Ok(Number::NullSlot),
            11 => Ok(Number::LiveChain),
            12 => Ok(Number::IdleChain),
            13 => Ok(Number::NoChain),
            14 => Ok(Number::NotWiped),
            15 => Ok(Number::Limits),
            16 => Ok(Number::Counts),
            17 => Ok(Number::Untrusted),
            _ => Err(NoNumber),
        }
    }
}

// A number that sets no place.
impl From<Number> for Refused {
    ghost from_gives = { λ number refused. refused ≡ refused_by_number number };

    fn from(number: Number) -> Refused {
        Refused {
            number,
            list: 0,
            position: 0,
        }
    }
}

impl From<Refused> for Refusal {
    ghost from_gives = { λ refused refusal. refusal ≡ refusal_by refused };

    fn from(refused: Refused) -> Refusal {
        Refusal {
            number: refused.number.into(),
            list: refused.list,
            position: refused.position,
        }
    }
}

impl From<Result<(), Refused>> for Refusal {
    ghost from_gives = { λ answer refusal. refusal ≡ refusal_told answer };

    fn from(answer: Result<(), Refused>) -> Refusal {
        match answer {
            Ok(()) => Refusal::numbered(0),
            Err(refused) => refused.into(),
        }
    }
}

impl Book {
    // The slot that never holds an element.
    pub const NULL: u16 = 0;
    // The most slots that a pool may have, the null slot among them.
    pub const LARGEST: usize = 4096;
    // What the value cell of a free slot holds.
    pub const WIPE: u64 = 0;

    // The all-zero book, which a refused setup returns.
    pub fn zero() -> Self
        ensures { result ≡ zero_book }
    {
        let none = Entry::zero();
        Book {
            lists: 0,
            entries: [none; 8],
            free: Free { head: 0, count: 0 },
        }
    }
}
