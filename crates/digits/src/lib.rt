// A number's decimal digits, the most significant first, worked out by dividing by ten.
#![tactic(auto)]

ghost use Rattle.std.specs.Prelude.{◌≡◌, ◌<◌, IfSome, unwrap_or};
ghost use Rattle.wording.specs.Digits.{ascii_of, bytes_of, Written};

// The number's digits into `out` from place `at` on. Answers how many, which is at least 1.
// Where they do not all fit it answers 0, and nothing is written.
pub fn write(out: &mut [u8], at: usize, number: u64) -> usize
    ensures { Written (bytes_of number) out.old at result out.new }
{
    // Where `out.get_mut(at..)` gives `None`, its promise does not say that `out` is as it was, and the proof of the 0 does not close.
    if at <= out.len() {
        put(&mut out[at..], number).unwrap_or(0)
    } else {
        0
    }
}

// The same from the first place on, `None` where they do not all fit. It calls itself for the digits of the tenth, with one place less, and
// then stores the last digit. Each call stores on the way back, so where a place is missing nothing was stored.
fn put(out: &mut [u8], number: u64) -> Option<usize>
    ensures written { Written (bytes_of number) out.old 0 (unwrap_or result 0) out.new }
    ensures some { IfSome result (λ count. 0 < count) }
{
    let room = out.len().checked_sub(1)?;
    if number < 10 {
        out[0] = ascii(number);
        return Some(1);
    }
    let count = put(&mut out[..room], number / 10)?;
    out[count] = ascii(number % 10);
    Some(count + 1)
}

// The byte that shows a digit.
fn ascii(digit: u64) -> u8
    requires { digit < 10 }
    ensures { result ≡ ascii_of digit }
{
    b'0' + digit as u8
}
