// Long random sequences of the ten calls and the four quick ones on pools of many sizes, against an independent deque, with damage in between
// and some calls undone.
#![tactic(auto)]

mod asks;
mod book;
mod broken;
mod calls;
mod damage;
mod deque;
mod dice;
mod expect;
mod kinds;
mod model;
mod pool;
mod quick;
mod soak;
mod sound;
mod tally;
mod undo;

use crate::soak::Soak;
use std::io;

// The sizes of the pools, and how many calls are made on each. On a small one several rules are broken at once more often.
const POOLS: [(u16, u32); 12] = [
    (2, 1100),
    (3, 3000),
    (4, 3000),
    (5, 3000),
    (6, 3000),
    (8, 3000),
    (16, 3000),
    (61, 1100),
    (256, 1100),
    (1000, 1600),
    (4095, 320),
    (4096, 3200),
];

fn main(rt: HostRuntime) -> io::Result<()> {
    let mut soak = Soak::NEW;
    for (size, calls) in POOLS {
        soak.pool(&rt, size, calls)?;
    }
    soak.tally.write(&rt)
}
