// What firmware asks of the library itself: which version it is, and the text of a number. Neither is one of the calls.
ghost use Rattle.std.specs.Prelude.{◌≡◌};
ghost use Rattle.wording.specs.Digits.{Written};
ghost use Rattle.wording.specs.Texts.{text_of};
ghost use Rattle.faces.specs.Version.{face_version};

// The version of the header that this archive is for, so that firmware can see whether it was linked with another one.
#[unsafe(no_mangle)]
pub extern "C" fn flailreeve_version() -> u16
    ensures { result ≡ face_version }
{
    4
}

// The number's text, with no null behind it. Answers how many bytes, or 0 where they do not all fit; nothing is written then.
#[unsafe(no_mangle)]
pub extern "C" fn flailreeve_text(number: u16, out: &mut [u8]) -> usize
    ensures { Written (text_of number) out.old 0 result out.new }
{
    texts::write(out, 0, number)
}
