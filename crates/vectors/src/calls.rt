// The calls of a pool, by the rows of 01's table, and how each is shown: its name, its list, and its value or place.
use std::fmt;

// A call that may change the pool and the book. A setup has the shares and the limits of the first two lists, and none for the others.
#[derive(Clone, Copy)]
pub(crate) enum Change {
    Setup {
        lists: u16,
        shares: [u16; 2],
        limits: [u16; 2],
    },
    PushBack {
        list: u16,
        value: u64,
    },
    PushFront {
        list: u16,
        value: u64,
    },
    PopBack {
        list: u16,
    },
    PopFront {
        list: u16,
    },
    QuickPushBack {
        list: u16,
        value: u64,
    },
    QuickPushFront {
        list: u16,
        value: u64,
    },
    QuickPopBack {
        list: u16,
    },
    QuickPopFront {
        list: u16,
    },
    Clear {
        list: u16,
    },
}

// A call that may change the buffer alone.
#[derive(Clone, Copy)]
pub(crate) enum Look {
    Check,
    Length { list: u16 },
    ReadForward { list: u16, at: usize },
    ReadBackward { list: u16, at: usize },
}

// The shares and the limits of a setup as one number of four digits.
fn four_digits(shares: [u16; 2], limits: [u16; 2]) -> u64 {
    let [a, b] = shares.map(u64::from);
    let [c, d] = limits.map(u64::from);
    1000 * a + 100 * b + 10 * c + d
}

// A name has thirteen letters, with the blanks, and a quick one has `quick ` before it. A call with no value shows a 0 in its place.
impl fmt::Display for Change {
    fn fmt<W: fmt::Write>(&self, f: &mut fmt::Formatter<W>) -> fmt::Result {
        match *self {
            Change::Setup {
                lists,
                shares,
                limits,
            } => write!(f, "setup         {lists} {}", four_digits(shares, limits)),
            Change::PushBack { list, value } => write!(f, "push back     {list} {value}"),
            Change::PushFront { list, value } => write!(f, "push front    {list} {value}"),
            Change::PopBack { list } => write!(f, "pop back      {list} 0"),
            Change::PopFront { list } => write!(f, "pop front     {list} 0"),
            Change::QuickPushBack { list, value } => {
                write!(f, "quick push back     {list} {value}")
            }
            Change::QuickPushFront { list, value } => {
                write!(f, "quick push front    {list} {value}")
            }
            Change::QuickPopBack { list } => write!(f, "quick pop back      {list} 0"),
            Change::QuickPopFront { list } => write!(f, "quick pop front     {list} 0"),
            Change::Clear { list } => write!(f, "clear         {list} 0"),
        }
    }
}

impl fmt::Display for Look {
    fn fmt<W: fmt::Write>(&self, f: &mut fmt::Formatter<W>) -> fmt::Result {
        match *self {
            Look::Check => write!(f, "check         0 0"),
            Look::Length { list } => write!(f, "length        {list} 0"),
            Look::ReadForward { list, at } => write!(f, "read forward  {list} {at}"),
            Look::ReadBackward { list, at } => write!(f, "read backward {list} {at}"),
        }
    }
}
