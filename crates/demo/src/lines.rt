// The lines of the demonstration, put into a buffer one after the other.
ghost use Rattle.std.specs.Prelude.{◌+◌, ◌*◌, ◌≤◌, length};
ghost use Rattle.wording.specs.Digits.{Written};
ghost use Rattle.shows.specs.Demo.{line_of, refusal_line, three_of};

// Three lines with one label. Answers how many bytes they have.
pub(crate) fn three(out: &mut [u8], at: usize, label: &[u8], x: u64, y: u64, z: u64) -> usize
    requires { at + 3 * (length label.now + 21) ≤ length out.old }
    ensures { Written (three_of label.now x y z) out.old at result out.new }
{
    let first = line(out, at, label, x);
    let both = first + line(out, at + first, label, y);
    both + line(out, at + both, label, z)
}

// A label, a number in decimal digits, and the line's end.
fn line(out: &mut [u8], at: usize, label: &[u8], number: u64) -> usize
    requires { at + (length label.now + 21) ≤ length out.old }
    ensures { Written (line_of label.now number) out.old at result out.new }
{
    let first = texts::put(out, at, label);
    let both = first + digits::write(out, at + first, number);
    both + texts::put(out, at + both, b"\n")
}

// The text of a refusal, and the line's end.
pub(crate) fn refused(out: &mut [u8], at: usize, number: u16) -> usize
    requires { at + 65 ≤ length out.old }
    ensures { Written (refusal_line number) out.old at result out.new }
{
    let first = texts::write(out, at, number);
    first + texts::put(out, at + first, b"\n")
}
