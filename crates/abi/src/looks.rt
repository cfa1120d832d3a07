// Check, length and the reads for C. They change neither the pool nor the book, and write the place, 0 and 0 where their number sets none.
ghost use Rattle.std.specs.Prelude.{◌≡◌};
ghost use Rattle.books.specs.Words.{place_from};
ghost use Rattle.faces.specs.Face.{checked, told, shown, check_face, length_face, read_forward_face, read_backward_face};

use crate::words::told;
use books::Words;
use shapes::End;

#[unsafe(no_mangle)]
pub extern "C" fn flailreeve_check(
    links: &[u16],
    values: &[u64],
    book: &Words,
    place: &mut [u16; 2],
) -> u16
    ensures { checked result (place_from place.new) ≡ check_face links.now values.now book.now }
{
    *place = [0, 0];
    let refusal = shares::check::check_words(links, values, book);
    if refusal.number != 0 {
        *place = [refusal.list, refusal.position];
    }
    refusal.number
}

#[unsafe(no_mangle)]
pub extern "C" fn flailreeve_length(
    links: &[u16],
    values: &[u64],
    book: &Words,
    list: u16,
    length: &mut u16,
    place: &mut [u16; 2],
) -> u16
    ensures { told result (place_from place.new) length.new ≡ length_face links.now values.now book.now list }
{
    *place = [0, 0];
    let answer = shares::reads::length_words(links, values, book, list);
    let refusal = answer.refusal;
    *length = answer.length;
    if refusal.number != 0 {
        *place = [refusal.list, refusal.position];
    }
    refusal.number
}

#[unsafe(no_mangle)]
pub extern "C" fn flailreeve_read_forward(
    links: &[u16],
    values: &[u64],
    book: &Words,
    list: u16,
    out: &mut [u64],
    at: usize,
    count: &mut u16,
    place: &mut [u16; 2],
) -> u16
    ensures { shown result (place_from place.new) count.new out.new ≡ read_forward_face links.now values.now book.now list out.old at }
{
    let answer = shares::reads::read_words(links, values, End::Front, book, list, out, at);
    *count = answer.count;
    told(answer.refusal, place)
}

#[unsafe(no_mangle)]
pub extern "C" fn flailreeve_read_backward(
    links: &[u16],
    values: &[u64],
    book: &Words,
    list: u16,
    out: &mut [u64],
    at: usize,
    count: &mut u16,
    place: &mut [u16; 2],
) -> u16
    ensures { shown result (place_from place.new) count.new out.new ≡ read_backward_face links.now values.now book.now list out.old at }
{
    let answer = shares::reads::read_words(links, values, End::Back, book, list, out, at);
    *count = answer.count;
    told(answer.refusal, place)
}
