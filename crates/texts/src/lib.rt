// One short text for each number that a call answers with, written into a buffer that the caller lends.
#![tactic(auto)]

ghost use Rattle.std.specs.Prelude.{◌≡◌};
ghost use Rattle.wording.specs.Digits.{Written};
ghost use Rattle.wording.specs.Texts.{text_of};

// The number's text into `out` from place `at` on. Answers how many bytes, which is at least 1.
// Where they do not all fit it answers 0, and nothing is written.
pub fn write(out: &mut [u8], at: usize, number: u16) -> usize
    ensures { Written (text_of number) out.old at result out.new }
{
    put(out, at, text(number))
}

// What a call answers up to 8, what is wrong with the pool or its book from 9 on, and the text of a number that this version does not know.
#[tactic(auto, unfolding(wording::specs::Texts::text_of))]
fn text(number: u16) -> &'static [u8]
    ensures { result.now ≡ text_of number }
{
    match number {
        0 => b"done",
        1 => b"the pool is too small or large, or its parts differ in length",
        2 => b"the lists, shares or limits asked for break the rules",
        3 => b"the pool or its book is damaged",
        4 => b"there is no such list",
        5 => b"the list is empty",
        6 => b"the list is at its limit",
        7 => b"no slot is free but those kept for other lists",
        8 => b"the buffer is too small",
        9 => b"the book's lists, shares or limits break the rules",
        10 => b"slot 0 is not zero",
        11 => b"a list's chain is broken",
        12 => b"the free chain is broken",
        13 => b"a slot is in no chain",
        14 => b"a free slot is not wiped",
        15 => b"a list is over its limit, or the shares are not covered",
        16 => b"a stored count is wrong",
        17 => b"a quick call cannot trust the book or a slot",
        18..=65535 => b"this version does not know the number",
    }
}

// The bytes into `out` from place `at` on. Answers how many, or 0 where they do not all fit; nothing is written then.
pub fn put(out: &mut [u8], at: usize, bytes: &[u8]) -> usize
    ensures { Written bytes.now out.old at result out.new }
{
    if out.len() < at || out.len() - at < bytes.len() {
        return 0;
    }
    // `copy_from_slice` would have the archive ask the C library for memmove, and include/flailreeve.h says memset alone (tried).
    for (k, byte) in bytes.iter().enumerate() {
        out[at + k] = *byte;
    }
    bytes.len()
}
