// Which number a call on a list is refused by of its own, once 1, 9 to 16 and 4 are asked.
ghost use Rattle.std.specs.Prelude.{◌≡◌};
ghost use Rattle.books.specs.Errors.{number_by};
ghost use Rattle.shapes.specs.Numbers.{first_that};
ghost use Rattle.shapes.specs.Tests.{push_own_tests, pop_own_tests, read_own_tests};

use books::{Entry, Number};

// 6 or 7 for a push on a list that has `many` slots.
pub(crate) fn push_number(list: Entry, many: u16, lacks: usize, free: u16) -> Result<(), Number>
    ensures { number_by result ≡ first_that (push_own_tests list many lacks free) }
{
    if many == list.limit {
        return Err(Number::AtLimit);
    }
    if many < list.limit && list.share <= many && usize::from(free) <= lacks {
        return Err(Number::NoSlot);
    }
    Ok(())
}

// 5 for a pop on a list that has `many` slots.
pub(crate) fn pop_number(many: u16) -> Result<(), Number>
    ensures { number_by result ≡ first_that (pop_own_tests many) }
{
    if many == 0 {
        return Err(Number::Empty);
    }
    Ok(())
}

// 8 for a read of `many` values into a buffer of `places` places from `at` on. No sum is made that could wrap.
pub(crate) fn read_number(many: u16, places: usize, at: usize) -> Result<(), Number>
    ensures { number_by result ≡ first_that (read_own_tests many places at) }
{
    if at <= places && usize::from(many) <= places - at {
        return Ok(());
    }
    Err(Number::Buffer)
}
