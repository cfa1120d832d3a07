// Document 01's pools to try and a pool for each broken rule, run through the compiled calls, with every cell shown. `stdout` beside src/
// was read line by line beside document 01, and beside document 02 for the counts and where a rule is broken.
#![tactic(auto)]

ghost use Rattle.std.specs.Prelude.{◌≤◌};

mod broken;
mod calls;
mod out;
mod pool;
mod steps;

use books::{Book, Entry, Free};
use calls::Change;
use pool::Pool;
use std::io;
use steps::{
    LIMIT_0, ONE_LIST, P9, P10, QUICK_P9, QUICK_TO_P7, SHARES_2_AND_3, SHARES_3_AND_3, TO_P7,
};

// A book of one list with share 0.
fn one_list(entry: Entry, free: Free) -> Book {
    let none = Entry::zero();
    Book {
        lists: 1,
        entries: [entry, none, none, none, none, none, none, none],
        free,
    }
}

// 01 gives the values of P8's slots 0, 2 and 5. The list's are 10, 20 and 30.
fn p8(rt: &impl Print) -> io::Result<()> {
    let entry = Entry {
        head: 3,
        tail: 4,
        share: 0,
        limit: 5,
        length: 3,
    };
    let pool = Pool {
        title: "P8",
        links: &mut [0, 7, 5, 1, 1, 0],
        values: &mut [0, 20, 0, 10, 30, 0],
        book: one_list(entry, Free { head: 2, count: 2 }),
    };
    pool.run(rt, &[])
}

// 01 says nothing of P9's counts, so it is tried with several. Its chain is broken whatever they are.
fn p9(rt: &impl Print, title: &str, length: u16, count: u16, steps: &[Change]) -> io::Result<()> {
    let entry = Entry {
        head: 1,
        tail: 1,
        share: 0,
        limit: 3,
        length,
    };
    let pool = Pool {
        title,
        links: &mut [0, 2, 0, 0],
        values: &mut [0; 4],
        book: one_list(entry, Free { head: 0, count }),
    };
    pool.run(rt, steps)
}

// A pool of so many slots, of which every cell is 9 before. The largest tried has one slot more than a pool may have.
fn nines<const SIZE: usize>(rt: &impl Print, title: &str, steps: &[Change]) -> io::Result<()>
    requires { SIZE ≤ 4097 }
{
    let pool = Pool {
        title,
        links: &mut [9; SIZE],
        values: &mut [9; SIZE],
        book: Book::zero(),
    };
    pool.run(rt, steps)
}

fn intro(rt: &impl Print) -> io::Result<()> {
    rt.println(
        "A call has its list and its value or place behind it; a setup its lists, and its shares and limits.",
    )?;
    rt.println(
        "A book is how many lists it has, the free head and the free count, then head, tail, share, limit and length of each.",
    )?;
    rt.println("A number that names a broken rule has the rule's list and position behind it.\n")
}

fn main(rt: HostRuntime) -> io::Result<()> {
    intro(&rt)?;
    // P2 to P7 go on from the pool before, so each begins at the first step.
    nines::<6>(&rt, "P1", &TO_P7[..1])?;
    nines::<6>(&rt, "P2", &TO_P7[..4])?;
    nines::<6>(&rt, "P3", &TO_P7[..5])?;
    nines::<6>(&rt, "P4", &TO_P7[..6])?;
    nines::<6>(&rt, "P5", &TO_P7[..8])?;
    nines::<6>(&rt, "P6", &TO_P7[..9])?;
    nines::<6>(&rt, "P7", &TO_P7[..10])?;
    nines::<6>(&rt, "P7, then a clear", &TO_P7)?;
    p8(&rt)?;
    p9(&rt, "P9", 0, 0, &P9)?;
    p9(&rt, "P9, counts 3, 0", 3, 0, &[])?;
    p9(&rt, "P9, counts 2, 1", 2, 1, &[])?;
    p9(&rt, "P9, counts 65535", 65535, 65535, &[])?;
    nines::<6>(&rt, "P10", &P10)?;
    nines::<1>(&rt, "1 slot", &ONE_LIST)?;
    nines::<2>(&rt, "2 slots", &ONE_LIST)?;
    nines::<4096>(&rt, "4,096 slots", &ONE_LIST)?;
    nines::<4097>(&rt, "4,097 slots", &ONE_LIST)?;
    nines::<6>(&rt, "shares 2 and 3", &SHARES_2_AND_3)?;
    nines::<6>(&rt, "shares 3 and 3", &SHARES_3_AND_3)?;
    nines::<6>(&rt, "limit 0", &LIMIT_0)?;
    nines::<6>(&rt, "P7, quick calls", &QUICK_TO_P7)?;
    p9(&rt, "P9, 3, 0, quick", 3, 0, &QUICK_P9)?;
    p9(&rt, "P9, 65535, quick", 65535, 65535, &QUICK_P9)?;
    broken::rules(&rt)
}
