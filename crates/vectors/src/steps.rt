// The calls of the pools to try, in order, and what is asked of every pool at its end.
use crate::calls::{Change, Look};

const TWO_LISTS: Change = Change::Setup {
    lists: 2,
    shares: [2, 1],
    limits: [5, 3],
};

// P1 to P7, each of which goes on from the pool before: P1 is the first call, P2 the first four, and so on. No pool of 01's has the clear at
// the end: what it gives was worked out from its words.
pub(crate) const TO_P7: [Change; 11] = [
    // P1
    TWO_LISTS,
    // P2
    Change::PushBack { list: 0, value: 20 },
    Change::PushBack { list: 0, value: 30 },
    Change::PushFront { list: 0, value: 10 },
    // P3
    Change::PushBack { list: 0, value: 40 },
    // P4
    Change::PushBack { list: 0, value: 50 },
    // P5
    Change::PushBack { list: 1, value: 60 },
    Change::PushBack { list: 1, value: 61 },
    // P6
    Change::PopFront { list: 0 },
    // P7
    Change::PushBack { list: 1, value: 61 },
    Change::Clear { list: 0 },
];

pub(crate) const P9: [Change; 5] = [
    Change::PushBack { list: 0, value: 5 },
    Change::PushFront { list: 0, value: 5 },
    Change::PopBack { list: 0 },
    Change::PopFront { list: 0 },
    Change::Clear { list: 0 },
];

pub(crate) const P10: [Change; 2] = [TWO_LISTS, Change::PopBack { list: 1 }];

// One list with share and limit 1, at the sizes about the smallest and the largest.
pub(crate) const ONE_LIST: [Change; 1] = [Change::Setup {
    lists: 1,
    shares: [1, 0],
    limits: [1, 0],
}];

// Shares about the largest sum.
pub(crate) const SHARES_2_AND_3: [Change; 1] = [Change::Setup {
    lists: 2,
    shares: [2, 3],
    limits: [5, 3],
}];

pub(crate) const SHARES_3_AND_3: [Change; 1] = [Change::Setup {
    lists: 2,
    shares: [3, 3],
    limits: [5, 3],
}];

pub(crate) const LIMIT_0: [Change; 3] = [
    Change::Setup {
        lists: 1,
        shares: [0, 0],
        limits: [0, 0],
    },
    Change::PushBack { list: 0, value: 5 },
    Change::PushFront { list: 0, value: 5 },
];

// P1 to P7 once more, by quick calls.
pub(crate) const QUICK_TO_P7: [Change; 10] = [
    TWO_LISTS,
    Change::QuickPushBack { list: 0, value: 20 },
    Change::QuickPushBack { list: 0, value: 30 },
    Change::QuickPushFront { list: 0, value: 10 },
    Change::QuickPushBack { list: 0, value: 40 },
    Change::QuickPushBack { list: 0, value: 50 },
    Change::QuickPushBack { list: 1, value: 60 },
    Change::QuickPushBack { list: 1, value: 61 },
    Change::QuickPopFront { list: 0 },
    Change::QuickPushBack { list: 1, value: 61 },
];

// P9 by a quick call, which does not check the chain.
pub(crate) const QUICK_P9: [Change; 1] = [Change::QuickPopBack { list: 0 }];

// What is asked of every pool at its end: check, the length and both readings of the first two lists, and both readings of list 0 at the
// buffer's length and one place further.
pub(crate) const LOOKS: [Look; 11] = [
    Look::Check,
    Look::Length { list: 0 },
    Look::ReadForward { list: 0, at: 1 },
    Look::ReadBackward { list: 0, at: 1 },
    Look::Length { list: 1 },
    Look::ReadForward { list: 1, at: 1 },
    Look::ReadBackward { list: 1, at: 1 },
    Look::ReadForward { list: 0, at: 8 },
    Look::ReadBackward { list: 0, at: 8 },
    Look::ReadForward { list: 0, at: 9 },
    Look::ReadBackward { list: 0, at: 9 },
];
