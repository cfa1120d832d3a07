// The text of every number from 0 to 17, and of two numbers that this version does not know, each on a line after its number.
#![tactic(auto)]

ghost use Rattle.std.specs.Prelude.{◌+◌, ◌≤◌, length};
ghost use Rattle.wording.specs.Digits.{Written};
ghost use Rattle.wording.specs.Notices.{notice_of, all_notices};

use std::io;

fn main(rt: HostRuntime) -> io::Result<()> {
    let mut out = [0u8; 1800];
    let count = all(&mut out);
    rt.write_all(&out[..count])
}

// The lines of 0 to 18 and of the largest number. Answers how many bytes they have.
fn all(out: &mut [u8]) -> usize
    requires { 1800 ≤ length out.old }
    ensures { Written all_notices out.old 0 result out.new }
{
    let mut at = 0;
    for number in 0..19 {
        at += notice(out, at, number);
    }
    at + notice(out, at, 65535)
}

// The number in decimal digits, its text, and the line's end.
fn notice(out: &mut [u8], at: usize, number: u16) -> usize
    requires { at + 87 ≤ length out.old }
    ensures { Written (notice_of number) out.old at result out.new }
{
    let first = digits::write(out, at, u64::from(number));
    let both = first + texts::put(out, at + first, b": ");
    let most = both + texts::write(out, at + both, number);
    most + texts::put(out, at + most, b"\n")
}
