// Which numbers each call can give: 01's table, with 02 b)'s numbers, 02 c)'s, and 02 d)'s four calls and number.
ghost use Rattle.std.specs.Prelude.{◌≡◌};
ghost use Rattle.books.specs.Table.{may_give};

const Y: bool = true;

const N: bool = false;

// What 02 d)'s quick calls can give: they do not check the pool first, so none of 9 to 16.
const QUICK_PUSH: [bool; 18] = [Y, Y, N, N, Y, N, Y, Y, N, N, N, N, N, N, N, N, N, Y];

const QUICK_POP: [bool; 18] = [Y, Y, N, N, Y, Y, N, N, N, N, N, N, N, N, N, N, N, Y];

// A row for each call, in 01's order: setup, check, length, push back, push front, pop back, pop front, read forward, read backward, clear.
// Then 02 d)'s quick push back, quick push front, quick pop back and quick pop front. A place for each number from 0 to 17.
const TABLE: [[bool; 18]; 14] = [
    [Y, Y, Y, N, N, N, N, N, N, N, N, N, N, N, N, N, N, N],
    [Y, Y, N, N, N, N, N, N, N, Y, Y, Y, Y, Y, Y, Y, Y, N],
    [Y, Y, N, N, Y, N, N, N, N, Y, Y, Y, Y, Y, Y, Y, Y, N],
    [Y, Y, N, N, Y, N, Y, Y, N, Y, Y, Y, Y, Y, Y, Y, Y, N],
    [Y, Y, N, N, Y, N, Y, Y, N, Y, Y, Y, Y, Y, Y, Y, Y, N],
    [Y, Y, N, N, Y, Y, N, N, N, Y, Y, Y, Y, Y, Y, Y, Y, N],
    [Y, Y, N, N, Y, Y, N, N, N, Y, Y, Y, Y, Y, Y, Y, Y, N],
    [Y, Y, N, N, Y, N, N, N, Y, Y, Y, Y, Y, Y, Y, Y, Y, N],
    [Y, Y, N, N, Y, N, N, N, Y, Y, Y, Y, Y, Y, Y, Y, Y, N],
    [Y, Y, N, N, Y, N, N, N, N, Y, Y, Y, Y, Y, Y, Y, Y, N],
    QUICK_PUSH,
    QUICK_PUSH,
    QUICK_POP,
    QUICK_POP,
];

// Can the call give the number? False for a call or a number that there is not.
pub fn may_give(call: usize, number: usize) -> bool
    ensures { result ≡ may_give call number }
{
    if call < 14 {
        if number < 18 {
            return TABLE[call][number];
        }
    }
    false
}
