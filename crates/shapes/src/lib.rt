// What is true of no engine in particular: the records in which a step and a walk answer. It has no functions.
#![tactic(auto)]

use books::{Entry, Free};

// The end of a list at which a step works.
#[derive(Clone, Copy, Debug, PartialEq, Eq)]
pub enum End {
    Front,
    Back,
}

// The two chains that a step on one list works on: the list, and the idle chain. They are handed over and given back together.
#[derive(Clone, Copy, Debug, PartialEq, Eq)]
pub struct Chains {
    pub list: Entry,
    pub idle: Free,
}

// Whether the walk along a list came to the null slot, the last slot that it passed, 0 for none, and how many it passed.
// No `Result`: `LiveWalked` says the last slot and the count of a walk that failed too.
#[derive(Clone, Copy, Debug, PartialEq, Eq)]
pub struct LiveWalk {
    pub ok: bool,
    pub last: usize,
    pub length: usize,
}

// Whether the walk along the idle chain came to the end, how many slots it passed, and the lowest of them that is not wiped, or 0.
// No `Result`: `IdleWalked` says the count and the lowest slot of a walk that failed too.
#[derive(Clone, Copy, Debug, PartialEq, Eq)]
pub struct IdleWalk {
    pub ok: bool,
    pub length: usize,
    pub unwiped: u16,
}
