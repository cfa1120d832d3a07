// The values of a chain, written into a lent buffer from a place on. The part from that place is handed on as such.
ghost use Rattle.std.specs.Prelude.{◌≡◌, ◌<◌, length, set};
ghost use Rattle.std.specs.Int.Bits.{bit_xor};
ghost use Rattle.books.specs.Book.{null_slot};
ghost use Rattle.chains.specs.Chain.{cell};
ghost use Rattle.engines.specs.Reads.{is_slot, values_along, count_read, buffer_after};
ghost use Rattle.xor.specs.Engine.{xor};
ghost use Rattle.walks.specs.Read.{Filled};

use shapes::End;

// The values of the chain that starts with `start`, into `buffer` from place `at` on, as many as there is room for. Answers how many.
// From its last slot a chain is read backward. The chain ends at the null slot, or at a number that is no slot.
// Where `at` is past the buffer's end nothing is written.
pub fn read(links: &[u16], values: &[u64], start: u16, buffer: &mut [u64], at: usize) -> usize
    ensures { (result ≡ count_read xor End.Front links.now values.now start buffer.old at) × (buffer.new ≡ buffer_after xor End.Front links.now values.now start buffer.old at) }
{
    if at <= buffer.len() {
        fill(links, values, start, &mut buffer[at..])
    } else {
        0
    }
}

// The same from the first place of `out` on. Two values are copied in a turn, so that the slot and the one before it change places and
// nothing is moved, and the room is tested once for both; a last place is filled after the loop. Chunks of two places would be no plainer:
// how many were copied is answered from within a turn, so they are counted in any case.
fn fill(links: &[u16], values: &[u64], start: u16, out: &mut [u64]) -> usize
    ensures { Filled (values_along (xor.onward End.Front links.now) (length links.now) values.now (length out.old) null_slot start) out.old result out.new }
{
    let size = crate::least(links.len(), values.len());
    let mut slot = rules::wide(start);
    let mut previous: usize = 0;
    let mut count: usize = 0;
    while count + 1 < out.len() {
        if !is_slot(slot, size) {
            return count;
        }
        let next = copy_value(links, values, slot, previous, out, count);
        if !is_slot(next, size) {
            return count + 1;
        }
        previous = next;
        slot = copy_value(links, values, next, slot, out, count + 1);
        count += 2;
    }
    if count < out.len() {
        if is_slot(slot, size) {
            out[count] = values[slot];
            return count + 1;
        }
    }
    count
}

// Is the number a slot of a pool with so many links and values?
#[tactic(auto, unfolding(engines::specs::Reads::is_slot))]
fn is_slot(slot: usize, size: usize) -> bool
    ensures { result ≡ is_slot size size slot }
{
    slot != 0 && slot < size
}

// The slot's value is copied to a place, and the slot after it is its link XORed with the one before it.
fn copy_value(
    links: &[u16],
    values: &[u64],
    slot: usize,
    before: usize,
    out: &mut [u64],
    place: usize,
) -> usize
    requires { (slot < length links.now) × (slot < length values.now) × (place < length out.old) }
    ensures { (result ≡ bit_xor (cell links.now slot) before) × (out.new ≡ set out.old place (cell values.now slot)) }
{
    out[place] = values[slot];
    rules::wide(links[slot]) ^ before
}
