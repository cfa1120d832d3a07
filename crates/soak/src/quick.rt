// 02 d)'s quick calls on a pool that is not sound: the program's own reading of the number, and the step on the cells, with the stored counts
// taken as they are. On a sound pool the deque tells both, as of the checked calls.
use crate::book::{Book, Entry, Refusal};
use crate::expect;
use crate::kinds::{Call, End, Kind};
use crate::model::Model;
use crate::pool::{NULL, Pool};

// What the lists that there are lack of their shares by their stored lengths; none where one of these, or the free count, is above N-1.
fn stored_lacks(book: &Book, size: u16) -> Option<u32> {
    let lists = &book.entries[..usize::from(book.lists).min(8)];
    let above = size <= book.free_count || lists.iter().any(|entry| size <= entry.length);
    // A fold, as in `sound::lacks`.
    let lacks = lists
        .iter()
        .map(|entry| entry.lack(entry.length))
        .fold(0, u32::wrapping_add);
    (!above).then_some(lacks)
}

// The slot at an end of a list.
fn end_slot(entry: &Entry, end: End) -> u16 {
    match end {
        End::Front => entry.head,
        End::Back => entry.tail,
    }
}

// Are the slots whose cells the call would read or write from 1 to N-1, and two? Of a push these are the free head, and the slot at its
// end unless the tail is 0; of a pop the slot at its end, and the one beside it unless the link is 0.
fn may_touch(pool: &Pool, entry: &Entry, kind: Kind, size: u16) -> bool {
    let (first, second, alone) = match kind {
        Kind::Push(end) => (
            pool.book.free_head,
            end_slot(entry, end),
            entry.tail == NULL,
        ),
        Kind::Pop(end) => {
            let slot = end_slot(entry, end);
            let beside = pool.link(slot);
            (slot, beside, beside == NULL)
        }
        _ => return true,
    };
    let slots = 1..size;
    slots.contains(&first) && (alone || slots.contains(&second) && first != second)
}

// 5 to 7 by the stored counts, and 17 for the rest. The list's length and the free count must stay from 0 to N-1: below 0 a count is
// above all others.
fn list_number(pool: &Pool, entry: &Entry, kind: Kind, lacks: u32, size: u16) -> Option<u16> {
    let free = pool.book.free_count;
    let (number, length, left) = match kind {
        Kind::Push(_) => (
            expect::push_number(entry, entry.length, free, lacks),
            entry.length.wrapping_add(1),
            free.wrapping_sub(1),
        ),
        _ => (
            expect::pop_number(entry.length),
            entry.length.wrapping_sub(1),
            free.wrapping_add(1),
        ),
    };
    let stays = length < size && left < size && may_touch(pool, entry, kind, size);
    match number {
        None if !stays => Some(17),
        _ => number,
    }
}

// The number that a quick call must give, once 1 is asked. It has no place.
fn number(pool: &Pool, call: &Call, size: u16) -> Option<u16> {
    let book = &pool.book;
    if !(1..=8).contains(&book.lists) {
        return Some(17);
    }
    if book.lists <= call.list {
        return Some(4);
    }
    let Some(lacks) = stored_lacks(book, size) else {
        return Some(17);
    };
    let entry = book.entries.get(usize::from(call.list))?;
    list_number(pool, entry, call.kind, lacks, size)
}

pub(crate) fn refusal(pool: &Pool, call: &Call, size: u16) -> Option<Refusal> {
    number(pool, call, size).map(Refusal::numbered)
}

// The free head becomes an end of the list, or both where the tail is 0.
fn push(pool: &mut Pool, entry: &mut Entry, end: End, value: u64) {
    let slot = pool.book.free_head;
    let near = end_slot(entry, end);
    pool.book.free_head = pool.link(slot);
    pool.book.free_count = pool.book.free_count.wrapping_sub(1);
    pool.set_value(slot, value);
    let alone = entry.tail == NULL;
    if alone || end == End::Front {
        entry.head = slot;
    }
    if alone || end == End::Back {
        entry.tail = slot;
    }
    entry.length = entry.length.wrapping_add(1);
    if alone {
        pool.set_link(slot, 0);
    } else {
        pool.set_link(slot, near);
        pool.set_link(near, pool.link(near) ^ slot);
    }
}

// The slot at an end becomes the free head, and the one beside it the end; where there is none, the list has no ends.
fn pop(pool: &mut Pool, entry: &mut Entry, end: End) -> u64 {
    let slot = end_slot(entry, end);
    let beside = pool.link(slot);
    let value = pool.value(slot);
    pool.set_link(slot, pool.book.free_head);
    pool.set_value(slot, 0);
    pool.book.free_head = slot;
    pool.book.free_count = pool.book.free_count.wrapping_add(1);
    if beside == NULL || end == End::Front {
        entry.head = beside;
    }
    if beside == NULL || end == End::Back {
        entry.tail = beside;
    }
    entry.length = entry.length.wrapping_sub(1);
    if beside != NULL {
        pool.set_link(beside, pool.link(beside) ^ slot);
    }
    value
}

// The call done on the cells. It may have made the pool sound, as a push over a free slot's value does; the deque takes its sequences then.
pub(crate) fn done(model: &mut Model, call: &Call) -> Option<u64> {
    // The entry is a copy and is put back, since it lies in the pool, which is changed beside it.
    let mut entry = *model.pool.book.entries.get(usize::from(call.list))?;
    let value = match call.kind {
        Kind::Push(end) => {
            push(&mut model.pool, &mut entry, end, call.value);
            0
        }
        Kind::Pop(end) => pop(&mut model.pool, &mut entry, end),
        _ => 0,
    };
    *model.pool.book.entries.get_mut(usize::from(call.list))? = entry;
    model.test();
    Some(value)
}
