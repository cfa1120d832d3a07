// The check: in stages, the book, slot 0, the lists and the idle chain, and where it finds a pool unsound.
ghost use Rattle.std.specs.Prelude.{◌≡◌, true, not, ◌+◌, ◌-◌, ◌≤◌, ◌<◌, length, take, find, IfSome};
ghost use Rattle.std.specs.List.{range_with_len};
ghost use Rattle.books.specs.Book.{eight};
ghost use Rattle.books.specs.Rules.{Size};
ghost use Rattle.books.specs.Words.{entries_from, book_from};
ghost use Rattle.shapes.specs.Records.{Fault};
ghost use Rattle.shapes.specs.Met.{is_met_of, unmet};
ghost use Rattle.shapes.specs.Faults.{no_fault, round, nothing_met, idle_fault, spare_fault, count_fault, looked_by};
ghost use Rattle.engines.specs.Sound.{Fit};
ghost use Rattle.engines.specs.Check.{null_slot_zero, idle_path, idle_found, pool_found, look_of};
ghost use Rattle.xor.specs.Engine.{xor};
ghost use Rattle.pools.specs.Found.{fault_or, rule_broken_at, no_rule_broken, lowest_by, gathered_by, ListsBelow, look_found};
ghost use Rattle.pools.specs.Word.{told_in, told_by, NoMore};

use crate::gather::Counts;
use crate::word::{told, word_of};
use books::{Book, Free, Number, Refused, Words};
use shapes::IdleWalk;

// Has slot 0 link 0 and value 0?
#[tactic(auto, unfolding(engines::specs::Check::null_slot_zero))]
fn null_slot_zero(links: &[u16], values: &[u64]) -> bool
    requires { (0 < length links.now) × (0 < length values.now) }
    ensures { result ≡ null_slot_zero xor links.now values.now }
{
    // A pool has slots. It is asked here, so that the compiler does not ask before each walk.
    links.len() != 0 && links[0] == 0 && values[0] == 0
}

// The lowest slot from 1 on that was not met.
fn lowest_unmet(met: &[u8], size: usize) -> Option<usize>
    ensures { result ≡ find (λ slot. not (is_met_of met.now slot)) (range_with_len 1 (size - 1)) }
{
    (1..size).find(|slot| !walks::walk::is_met(met, *slot))
}

// Is none of the rules 12 to 16 broken? It is asked first, since nearly every pool is sound. Each test has its own branch: of tests joined by
// `&&` the compiler makes numbers first, which costs more in every call.
fn none_broken(size: usize, counts: Counts, idle: IdleWalk, stored: u16) -> bool
    requires { counts.live + idle.length < 18446744073709551615 }
    ensures { result ≡ no_rule_broken size counts idle stored }
{
    if idle.unwiped != Book::NULL {
        return false;
    }
    if !idle.ok {
        return false;
    }
    if counts.live + idle.length + 1 != size {
        return false;
    }
    if counts.over.is_some() {
        return false;
    }
    if counts.wrong.is_some() {
        return false;
    }
    if usize::from(stored) != idle.length {
        return false;
    }
    counts.lacks <= idle.length
}

// Rules 12 to 16, once every list was walked and the idle chain too.
fn idle_fault(
    met: &[u8],
    size: usize,
    lists: u16,
    counts: Counts,
    idle: IdleWalk,
    stored: u16,
) -> Result<(), Refused>
    requires { (0 < size) × (size ≤ 4096) × (counts.live + idle.length ≤ 4096) × ListsBelow lists counts }
    ensures { fault_or result no_fault ≡ idle_fault met.now size lists (gathered_by lists counts) idle.ok idle.length idle.unwiped stored }
{
    let many = idle.length;
    if !idle.ok {
        return Err(Refused {
            position: many as u16,
            ..Number::IdleChain.into()
        });
    }
    if counts.live + many + 1 != size {
        let slot = lowest_unmet(met, size).unwrap_or(size);
        return Err(Refused {
            position: slot as u16,
            ..Number::NoChain.into()
        });
    }
    if idle.unwiped != Book::NULL {
        return Err(Refused {
            position: idle.unwiped,
            ..Number::NotWiped.into()
        });
    }
    spare_fault(lists, counts.over, counts.lacks, many)?;
    count_fault(lists, counts.wrong, stored, many)
}

// Rule 15: the lowest list over its limit, or else L where the free slots do not cover what the lists lack.
fn spare_fault(lists: u16, over: Option<u16>, lacks: usize, free: usize) -> Result<(), Refused>
    requires { IfSome over (λ l. l < lists) }
    ensures { (later : Fault) → fault_or result later ≡ spare_fault lists (lowest_by lists over) lacks free later }
{
    broken_at(Number::Limits, over.or((free < lacks).then_some(lists)))
}

// Rule 16: the lowest list whose stored length is wrong, or else L where the stored count of the free slots is.
fn count_fault(lists: u16, wrong: Option<u16>, stored: u16, free: usize) -> Result<(), Refused>
    requires { IfSome wrong (λ l. l < lists) }
    ensures { fault_or result no_fault ≡ count_fault lists (lowest_by lists wrong) stored free }
{
    broken_at(
        Number::Counts,
        wrong.or((usize::from(stored) != free).then_some(lists)),
    )
}

// The rule is broken at the list, where there is one.
fn broken_at(rule: Number, list: Option<u16>) -> Result<(), Refused>
    ensures { result ≡ rule_broken_at rule list }
{
    match list {
        Some(list) => Err(Refused {
            list,
            ..rule.into()
        }),
        None => Ok(()),
    }
}

// The idle stages, after the walks along the lists.
fn find_idle(
    links: &[u16],
    values: &[u64],
    met: &mut [u8],
    lists: u16,
    free: Free,
    counts: Counts,
) -> Result<usize, Refused>
    requires { Size (length links.now) × (counts.live + unmet met.old ≤ length links.now) × ListsBelow lists counts }
    ensures { looked_by result ≡ look_found (idle_found (length links.now) values.now free lists (round (gathered_by lists counts) met.old) (idle_path xor links.now values.now met.old free)) }
{
    let idle = walks::walk::walk_idle(links, values, met, free);
    let size = links.len();
    if none_broken(size, counts, idle, free.count) {
        return Ok(counts.lacks);
    }
    idle_fault(met, size, lists, counts, idle, free.count)?;
    Ok(counts.lacks)
}

// Rules 11 to 16, with the record of slots met.
fn find_over(links: &[u16], values: &[u64], met: &mut [u8], words: &Words) -> Result<usize, Refused>
    requires { Fit xor links.now values.now × (met.old ≡ nothing_met (length links.now)) × ((book_from words.now).lists ≤ 8) × (null_slot_zero xor links.now values.now ≡ true) }
    ensures { looked_by result ≡ look_found (pool_found xor links.now values.now (take (book_from words.now).lists (entries_from words.now)) (book_from words.now).free) }
{
    let lists = crate::words::lists_of(words);
    // The null slot is not met. It is said here, so that the compiler does not ask again before each walk.
    met[0] = 0;
    let counts = crate::gather::gather(links, met, lists, words)?;
    find_idle(
        links,
        values,
        met,
        lists,
        crate::words::free_of(words),
        counts,
    )
}

// `look` where the sizes fit, with a record that has a place for each slot, and nothing met. The slices are lent on as parts of
// themselves: the compiler then hands them over in registers. A book without lists is refused first: the compiler then knows that there
// is one, and does not ask before the walks. The record may be longer than the pool. It is cut to the pool's size: a walk goes over no
// other.
fn look_over(links: &[u16], values: &[u64], met: &mut [u8], words: &Words) -> usize
    requires { Fit xor links.now values.now × (length links.now ≤ length met.old) × (met.old ≡ nothing_met (length met.old)) }
    ensures seen { looked_by (told_in result) ≡ look_of xor links.now values.now (eight (book_from words.now)) }
    ensures alone { (told_by result ≡ look_of xor links.now values.now (eight (book_from words.now))) × NoMore result }
{
    let size = links.len();
    if crate::words::lists_of(words) == 0 || !crate::book::keeps_rules(words, size) {
        return word_of(Err(Number::BookRules.into()));
    }
    if !null_slot_zero(&links[..size], &values[..size]) {
        return word_of(Err(Number::NullSlot.into()));
    }
    let met = &mut met[..size];
    word_of(find_over(&links[..size], &values[..size], met, words))
}

// Any pool of at most `N` slots: the record is made here, one byte for each slot, and lent on. To clear a large one costs as much as to
// walk along dozens of slots, so smaller pools have smaller ones. It saves no stack: the three have one place in the frame.
fn look_in<const N: usize>(links: &[u16], values: &[u64], words: &Words) -> usize
    requires { Fit xor links.now values.now × (length links.now ≤ N) × (N ≤ 4096) }
    ensures seen { looked_by (told_in result) ≡ look_of xor links.now values.now (eight (book_from words.now)) }
    ensures alone { (told_by result ≡ look_of xor links.now values.now (eight (book_from words.now))) × NoMore result }
{
    let mut met = [0u8; N];
    look_over(links, values, &mut met, words)
}

// 1 where the sizes do not fit; where the pool is not sound the rule that is first broken, with its place; else what the lists lack of
// their shares. It is always inlined: the calls below it hand over a number (crates/pools/src/word.rt), where a `Result` would go through
// memory.
#[inline(always)]
pub fn look(links: &[u16], values: &[u64], words: &Words) -> Result<usize, Refused>
    ensures { looked_by result ≡ look_of xor links.now values.now (eight (book_from words.now)) }
{
    told(look_told(links, values, words))
}

// The same as a number, which is told apart in one place. The largest size is asked for last, since a small pool then needs no such test.
#[inline(always)]
fn look_told(links: &[u16], values: &[u64], words: &Words) -> usize
    ensures seen { looked_by (told_in result) ≡ look_of xor links.now values.now (eight (book_from words.now)) }
    ensures alone { (told_by result ≡ look_of xor links.now values.now (eight (book_from words.now))) × NoMore result }
{
    let size = links.len();
    if size != values.len() {
        return word_of(Err(Number::Sizes.into()));
    }
    if size <= 64 {
        if size < 2 {
            return word_of(Err(Number::Sizes.into()));
        }
        return look_in::<64>(links, values, words);
    }
    if size <= 256 {
        return look_in::<256>(links, values, words);
    }
    if size <= Book::LARGEST {
        return look_in::<4096>(links, values, words);
    }
    word_of(Err(Number::Sizes.into()))
}
