// Layer 3: the pool and its book as a whole. Which pools are sound, and the check that tells.
#![tactic(auto)]

ghost use Rattle.std.specs.Prelude.{◌≡◌, ◌&&◌, eqb};
ghost use Rattle.books.specs.Test.{size_fits};

mod book;
pub mod check;
mod gather;
pub mod quick;
mod word;
pub mod words;

// Number 1 is given exactly where this is false.
pub fn sizes_fit(links: usize, values: usize) -> bool
    ensures { result ≡ (eqb links values && size_fits links) }
{
    links == values && rules::size_fits(links)
}
