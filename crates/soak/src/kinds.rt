// What a call is: its kind, and all that it is asked with.
ghost use Rattle.std.specs.Prelude.{◌<◌};

use crate::book::Book;

// The ends of a list. A reading begins at one.
#[derive(Clone, Copy, PartialEq, Eq)]
pub(crate) enum End {
    Front,
    Back,
}

// The ten calls. A quick call has its checked call's kind.
#[derive(Clone, Copy, PartialEq, Eq)]
pub(crate) enum Kind {
    Setup,
    Check,
    Length,
    Push(End),
    Pop(End),
    Read(End),
    Clear,
}

// A call with its arguments: how many links and values of the pool are lent, how many cells of the buffer, and where in it a read begins.
#[derive(Clone, Copy)]
pub(crate) struct Call {
    pub(crate) kind: Kind,
    pub(crate) quick: bool,
    pub(crate) list: u16,
    pub(crate) value: u64,
    pub(crate) links: u16,
    pub(crate) values: u16,
    pub(crate) room: usize,
    pub(crate) at: usize,
    pub(crate) asked: Book,
}

impl Kind {
    // The call at the same end that undoes this one, where there is one.
    pub(crate) fn opposite(self) -> Option<Kind> {
        match self {
            Kind::Push(end) => Some(Kind::Pop(end)),
            Kind::Pop(end) => Some(Kind::Push(end)),
            _ => None,
        }
    }

    // Has the call a quick one beside it?
    pub(crate) fn may_be_quick(self) -> bool {
        matches!(self, Kind::Push(_) | Kind::Pop(_))
    }
}

impl Call {
    // No call, before the first one.
    pub(crate) const NONE: Call = Call {
        kind: Kind::Check,
        quick: false,
        list: 0,
        value: 0,
        links: 0,
        values: 0,
        room: 0,
        at: 0,
        asked: Book::ZERO,
    };

    // The row of document 01's table, in its order; the quick calls stand below the checked ones.
    pub(crate) fn row(&self) -> usize
        ensures { result < 14 }
    {
        match (self.kind, self.quick) {
            (Kind::Setup, _) => 0,
            (Kind::Check, _) => 1,
            (Kind::Length, _) => 2,
            (Kind::Push(End::Back), false) => 3,
            (Kind::Push(End::Front), false) => 4,
            (Kind::Pop(End::Back), false) => 5,
            (Kind::Pop(End::Front), false) => 6,
            (Kind::Read(End::Front), _) => 7,
            (Kind::Read(End::Back), _) => 8,
            (Kind::Clear, _) => 9,
            (Kind::Push(End::Back), true) => 10,
            (Kind::Push(End::Front), true) => 11,
            (Kind::Pop(End::Back), true) => 12,
            (Kind::Pop(End::Front), true) => 13,
        }
    }
}
