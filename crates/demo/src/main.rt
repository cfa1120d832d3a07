// The demonstration: what upstream's `main` does, on one list in a pool of six slots, shown line by line.
#![tactic(auto)]

mod calls;
mod lines;

ghost use Rattle.std.specs.Prelude.{◌+◌, ◌≤◌, length};
ghost use Rattle.wording.specs.Digits.{Written};
ghost use Rattle.shows.specs.Demo.{shown_pops, shown_of, six_lines};

use shows::Gone;
use std::io;

fn main(rt: HostRuntime) -> io::Result<()> {
    let mut out = [0u8; 192];
    let count = run(&mut out);
    rt.write_all(&out[..count])
}

// The demonstration in a pool of its own: six slots. Answers how many bytes it put into `out`.
fn run(out: &mut [u8]) -> usize
    requires { 192 ≤ length out.old }
    ensures { Written six_lines out.old 0 result out.new }
{
    let mut links = [0u16; 6];
    let mut values = [0u64; 6];
    show(&mut links, &mut values, out)
}

// The demonstration in any memory. Where a call is refused its number's text is shown, and nothing after it.
fn show(links: &mut [u16], values: &mut [u64], out: &mut [u8]) -> usize
    requires { 192 ≤ length out.old }
    ensures { Written (shown_of links.old values.old) out.old 0 result out.new }
{
    let pushed = calls::push_three(links, values);
    if pushed.refusal.number != 0 {
        return lines::refused(out, 0, pushed.refusal.number);
    }
    let at = lines::three(out, 0, b"pushed: ", 2, 3, 1);
    let gone = calls::pop_three(links, values, pushed.book);
    at + show_pops(out, at, gone)
}

// The lines of the pops, or the text of the first that was refused.
#[tactic(auto, unfolding(shows::specs::Demo::shown_pops))]
fn show_pops(out: &mut [u8], at: usize, gone: Gone) -> usize
    requires { at + 87 ≤ length out.old }
    ensures { Written (shown_pops gone) out.old at result out.new }
{
    if gone.number != 0 {
        return lines::refused(out, at, gone.number);
    }
    lines::three(out, at, b"popped: ", gone.last, gone.first, gone.left)
}
