// What is asked for: a call with its arguments, by dice. Many arguments are bad on purpose.
use crate::book::{Book, Entry};
use crate::dice::Dice;
use crate::kinds::End::{Back, Front};
use crate::kinds::Kind::{Check, Clear, Length, Pop, Push, Read, Setup};
use crate::kinds::{Call, Kind};
use crate::model::{Model, State};

// The calls while a pool is to fill.
const FILLING: [Kind; 16] = [
    Setup,
    Check,
    Length,
    Push(Back),
    Push(Back),
    Push(Back),
    Push(Back),
    Push(Front),
    Push(Front),
    Push(Front),
    Push(Front),
    Pop(Back),
    Pop(Front),
    Read(Front),
    Read(Back),
    Clear,
];

// The calls while it is to empty.
const EMPTYING: [Kind; 16] = [
    Setup,
    Check,
    Length,
    Push(Back),
    Push(Front),
    Pop(Back),
    Pop(Back),
    Pop(Back),
    Pop(Back),
    Pop(Front),
    Pop(Front),
    Pop(Front),
    Pop(Front),
    Read(Front),
    Read(Back),
    Clear,
];

// Which call. A setup or a clear of a large pool is seldom, so that it may fill.
fn kind(dice: Dice, step: u32, size: u16) -> Kind {
    let fills = step / (u32::from(size) + 16) % 2 == 0;
    let kinds = if fills { FILLING } else { EMPTYING };
    let kind = kinds[usize::from(dice.roll(1, 16) % 16)];
    match kind {
        Setup | Clear if dice.roll(2, size / 64 + 1) != 0 => Push(Back),
        _ => kind,
    }
}

// A list that there is, or now and then one that there is not.
fn list(dice: Dice, lists: u16) -> u32 {
    match dice.roll(3, 16) {
        0 => u32::from(lists),
        1 => u32::from(lists) + u32::from(dice.roll(4, 60000)),
        _ => u32::from(dice.roll(4, lists)),
    }
}

// How many cells are lent: all of the pool's, or now and then one more or one less. A damaged pool is lent as it is.
fn lent(dice: Dice, throw: u64, state: State, size: u16) -> u16 {
    if state == State::Sound && dice.roll(5, 8) == 0 {
        return size.wrapping_add(dice.roll(throw, 3)).wrapping_sub(1);
    }
    size
}

// Shares and limits that keep the rules, for as many lists.
fn entries(dice: Dice, lists: u16, most: u16) -> [Entry; 8] {
    let mut entries = [Entry::ZERO; 8];
    let mut left = most;
    for (list, entry) in (0..u64::from(lists)).zip(&mut entries) {
        let share = dice.roll(list ^ 16, left / 2 + 1);
        let more = dice.roll(list ^ 24, most.wrapping_sub(share).wrapping_add(1));
        entry.share = share;
        entry.limit = share.wrapping_add(more);
        left = left.wrapping_sub(share);
    }
    entries
}

// What a setup asks for. In half of the cases one number is changed, but not at the first setup.
fn setup(dice: Dice, state: State, size: u16) -> Book {
    let lists = dice.roll(6, 8) % 8 + 1;
    let mut asked = Book {
        lists,
        entries: entries(dice, lists, size.wrapping_sub(1)),
        ..Book::ZERO
    };
    let changed = dice.roll(7, 34);
    if changed <= 16 && state != State::NotSetUp {
        let other = dice.roll(8, size.wrapping_add(2));
        match asked.entries.get_mut(usize::from(changed / 2)) {
            Some(entry) if changed % 2 == 0 => entry.share = other,
            Some(entry) => entry.limit = other,
            None => asked.lists = other,
        }
    }
    asked
}

// The call. Half of the pushes and pops are quick calls. A value is 0 now and then; a read has room enough, or too little, or begins past the buffer's end.
pub(crate) fn ask(dice: Dice, model: &Model, step: u32) -> Call {
    let Model { size, state, .. } = *model;
    let list = list(dice, model.pool.book.lists);
    let kind = match state {
        State::NotSetUp => Setup,
        _ => kind(dice, step, size),
    };
    Call {
        kind,
        quick: kind.may_be_quick() && dice.roll(34, 2) == 1,
        // A number of more than 16 bits comes only of a damaged book, whose rules are broken; the call is made on list 0.
        list: u16::try_from(list).unwrap_or(0),
        value: dice.wide(9, u64::from(dice.roll(10, 8)) << 61),
        links: lent(dice, 13, state, size),
        values: lent(dice, 14, state, size),
        room: usize::from(model.length(list as usize)) + usize::from(dice.roll(11, 6)),
        at: usize::from(dice.roll(12, 8)).wrapping_sub(1),
        asked: setup(dice, state, size),
    }
}
