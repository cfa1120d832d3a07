// Damage: cells or words of the book are changed, and the changes are undone later.
use crate::book::{Book, Entry};
use crate::dice::Dice;
use crate::model::{Model, State};
use crate::pool::Pool;
use crate::soak::Soak;

// The words of an entry.
#[derive(Clone, Copy)]
enum Field {
    Head,
    Tail,
    Share,
    Limit,
    Length,
}

// A word of the book.
#[derive(Clone, Copy)]
enum Word {
    Lists,
    FreeHead,
    FreeCount,
    Of(usize, Field),
}

const FIELDS: [Field; 5] = [
    Field::Head,
    Field::Tail,
    Field::Share,
    Field::Limit,
    Field::Length,
];

fn word_in(entry: &mut Entry, field: Field) -> &mut u16 {
    match field {
        Field::Head => &mut entry.head,
        Field::Tail => &mut entry.tail,
        Field::Share => &mut entry.share,
        Field::Limit => &mut entry.limit,
        Field::Length => &mut entry.length,
    }
}

fn word_of(book: &mut Book, word: Word) -> Option<&mut u16> {
    match word {
        Word::Lists => Some(&mut book.lists),
        Word::FreeHead => Some(&mut book.free_head),
        Word::FreeCount => Some(&mut book.free_count),
        Word::Of(list, which) => Some(word_in(book.entries.get_mut(list)?, which)),
    }
}

// Another number: one more, one less, other bits, or a number about the pool's size. One bit alone may change, any of them.
fn other(dice: Dice, old: u64, size: u16) -> u64 {
    match dice.roll(20, 5) {
        0 => old.wrapping_add(1),
        1 => old.wrapping_sub(1),
        2 => old ^ dice.wide(21, 65536),
        3 => old ^ (1 << (dice.wide(27, 64) % 64)),
        _ => dice.wide(22, u64::from(size) + 2),
    }
}

// The same of 16 bits.
fn other_word(dice: Dice, old: u16, size: u16) -> u16 {
    (other(dice, u64::from(old), size) & 0xffff) as u16
}

fn change_link(dice: Dice, pool: &mut Pool, size: u16) {
    let slot = dice.roll(24, size);
    let new = other_word(dice, pool.link(slot), size);
    pool.set_link(slot, new);
}

fn change_value(dice: Dice, pool: &mut Pool, size: u16) {
    let slot = dice.roll(24, size);
    let new = other(dice, pool.value(slot), size);
    pool.set_value(slot, new);
}

// The five words of an entry, the free head, the free count or how many lists there are.
fn any_word(dice: Dice) -> Word {
    match dice.roll(23, 43) {
        40 => Word::FreeHead,
        41 => Word::FreeCount,
        42 => Word::Lists,
        k => Word::Of(usize::from(k / 5), FIELDS[usize::from(k % 5)]),
    }
}

fn change_word(dice: Dice, book: &mut Book, size: u16) {
    if let Some(word) = word_of(book, any_word(dice)) {
        *word = other_word(dice, *word, size);
    }
}

// A list's limit becomes smaller than its length, with share 0, or its share as large as its limit. Rule 15 is one of the last, and other
// damage seldom breaks it alone.
fn change_entry(dice: Dice, model: &mut Model) {
    let list = usize::from(dice.roll(29, model.pool.book.lists) % 8);
    let limit = dice.roll(30, model.length(list).saturating_add(1));
    let entry = &mut model.pool.book.entries[list];
    if limit == 0 {
        entry.share = entry.limit;
    } else {
        entry.share = 0;
        entry.limit = limit - 1;
    }
}

// The length of a list that there is, or one of its ends now and then, or the free count.
fn count(dice: Dice, lists: u16) -> Word {
    let list = dice.wide(31, u64::from(lists) + 1);
    let field = match dice.roll(35, 8) {
        0 => Field::Head,
        1 => Field::Tail,
        _ => Field::Length,
    };
    if list < u64::from(lists) {
        return Word::Of((list % 8) as usize, field);
    }
    Word::FreeCount
}

// A stored count becomes another number. Rule 16 is the last one. By a length of 0 a list lacks its whole share: rule 15 must not go by it.
// An end may become 0, or the free head: a quick call must see the slots that it would touch for itself.
fn change_count(dice: Dice, book: &mut Book, size: u16) {
    let count = count(dice, book.lists);
    if let Some(word) = word_of(book, count) {
        *word = match dice.roll(33, 4) {
            0 => 0,
            _ => other_word(dice, *word, size),
        };
    }
}

// A link, a value or a word of the book is changed, or a list's entry, or a stored count.
fn change(dice: Dice, model: &mut Model) {
    let size = model.size;
    match dice.roll(25, 7) {
        0 => change_link(dice, &mut model.pool, size),
        1 => change_value(dice, &mut model.pool, size),
        2 => change_word(dice, &mut model.pool.book, size),
        3 | 4 => change_entry(dice, model),
        _ => change_count(dice, &mut model.pool.book, size),
    }
}

// One to three changes, so that several rules may be broken, and the program's own test says whether the pool is sound all the same.
fn hurt(dice: Dice, soak: &mut Soak) {
    let mut each = dice;
    soak.saved = soak.model.pool;
    for _ in 0..=dice.roll(28, 3) {
        change(each, &mut soak.model);
        each = each.stirred();
    }
    soak.model.test();
    soak.tally.damaged = soak.tally.damaged.saturating_add(1);
    if soak.model.state == State::Damaged {
        soak.tally.unsound = soak.tally.unsound.saturating_add(1);
    }
}

// Before a call: a sound pool is damaged now and then, and the damage is undone now and then: the pool is as it was before, and the deques
// take its sequences again.
pub(crate) fn perhaps(dice: Dice, soak: &mut Soak) {
    match (soak.model.state, dice.roll(26, 8)) {
        (State::Sound, 0) => hurt(dice, soak),
        (State::Damaged, 0..=2) => {
            soak.model.pool = soak.saved;
            soak.model.test();
        }
        _ => {}
    }
}
