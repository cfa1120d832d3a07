// What every crate above asks: whether a pool may have so many slots, a number as an index, and the table of calls and numbers.
#![tactic(auto)]

pub mod rows;

ghost use Rattle.std.specs.Prelude.{◌≡◌, ◌<◌};
ghost use Rattle.books.specs.Test.{size_fits};

use books::Book;

// May a pool have so many slots?
pub fn size_fits(size: usize) -> bool
    ensures { result ≡ size_fits size }
{
    (2..=Book::LARGEST).contains(&size)
}

// A 16-bit number as an index. The walks and the lists widen a slot's number by it and not by `usize::from`: G6 of docs/CONTRACTS.md names
// it, and its edit `index_halved` breaks what they do.
pub fn wide(x: u16) -> usize
    ensures { (result ≡ x) × (result < 65536) }
{
    usize::from(x)
}
