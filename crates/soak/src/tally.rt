// What is counted and written: the table of calls and numbers, and the differences. Its numbers are written by `digits`, as those of the
// demonstration and of the notices are.
use crate::book::{Answer, Book};
use crate::kinds::Call;
use std::{fmt, io};

// A number in decimal digits.
#[derive(Clone, Copy)]
struct Digits(u64);

impl fmt::Display for Digits {
    fn fmt<W: fmt::Write>(&self, f: &mut fmt::Formatter<W>) -> fmt::Result {
        let mut room = [0u8; 20];
        let count = digits::write(&mut room, 0, self.0);
        for digit in room.iter().take(count) {
            f.write_char(char::from(*digit))?;
        }
        Ok(())
    }
}

// Which number each call can give, by documents 01 and 02: eighteen digits for each call, from number 0 to number 17, 1 where the call
// can give it.
const MAY_GIVE: [&[u8; 18]; 14] = [
    b"111000000000000000",
    b"110000000111111110",
    b"110010000111111110",
    b"110010110111111110",
    b"110010110111111110",
    b"110011000111111110",
    b"110011000111111110",
    b"110010001111111110",
    b"110010001111111110",
    b"110010000111111110",
    b"110010110000000001",
    b"110010110000000001",
    b"110011000000000001",
    b"110011000000000001",
];

// How often a call gave each number.
#[derive(Clone, Copy)]
struct Row {
    times: [u64; 18],
}

#[derive(Clone, Copy)]
pub(crate) struct Tally {
    pub(crate) calls: u64,
    pub(crate) damaged: u64,
    pub(crate) unsound: u64,
    // How many pushes a pop has taken back, and how many pops a push has put back.
    pub(crate) taken_back: u64,
    pub(crate) put_back: u64,
    pub(crate) differences: u64,
    // A row for each call, and one for all of them together.
    table: [Row; 14],
    all: Row,
}

// What a difference is about: which call on a pool of how many slots, of what row of the table and on what list, and what it is held to.
#[derive(Clone, Copy)]
pub(crate) struct About<'a> {
    pub(crate) calls: u64,
    pub(crate) size: u16,
    pub(crate) row: usize,
    pub(crate) list: u16,
    pub(crate) held_to: &'a str,
}

impl fmt::Display for About<'_> {
    fn fmt<W: fmt::Write>(&self, f: &mut fmt::Formatter<W>) -> fmt::Result {
        let held_to = self.held_to;
        let calls = Digits(self.calls);
        let size = Digits(self.size.into());
        let row = Digits(self.row as u64);
        let list = Digits(self.list.into());
        write!(
            f,
            "difference at call {calls} on slots {size}, kind {row}, list {list}, held to {held_to}"
        )
    }
}

impl fmt::Display for Row {
    fn fmt<W: fmt::Write>(&self, f: &mut fmt::Formatter<W>) -> fmt::Result {
        for times in &self.times {
            write!(f, " {}", Digits(*times))?;
        }
        Ok(())
    }
}

impl Row {
    const NEW: Row = Row { times: [0; 18] };

    fn count(&mut self, number: u16) {
        if let Some(times) = self.times.get_mut(usize::from(number)) {
            *times = times.saturating_add(1);
        }
    }

    // Did the call give every number that it can, and no other?
    fn is_right(&self, may_give: &[u8; 18]) -> bool {
        self.times
            .iter()
            .zip(may_give)
            .all(|(times, may)| (*times != 0) == (*may == b'1'))
    }
}

impl Tally {
    pub(crate) const NEW: Tally = Tally {
        calls: 0,
        damaged: 0,
        unsound: 0,
        taken_back: 0,
        put_back: 0,
        differences: 0,
        table: [Row::NEW; 14],
        all: Row::NEW,
    };

    // A call gave a number.
    pub(crate) fn count(&mut self, call: &Call, number: u16) {
        self.table[call.row()].count(number);
        self.all.count(number);
    }

    // Of two lists of cells, or of other parts, the first place at which they differ is written.
    pub(crate) fn compare<T: PartialEq + Copy + fmt::Debug>(
        &mut self,
        rt: &impl Print,
        about: &About<'_>,
        part: &str,
        got: &[T],
        wanted: &[T],
    ) -> io::Result<()> {
        for (place, (cell, must)) in got.iter().zip(wanted).enumerate() {
            if cell != must {
                self.differences = self.differences.saturating_add(1);
                return println!(rt; "{about}, {part} {place}: got {cell:?}, wanted {must:?}");
            }
        }
        Ok(())
    }

    // The refusal, the value, and the book by its entries and its other words.
    pub(crate) fn compare_answers(
        &mut self,
        rt: &impl Print,
        about: &About<'_>,
        got: &Answer,
        wanted: &Answer,
    ) -> io::Result<()> {
        self.compare(rt, about, "refusal", &[got.refusal], &[wanted.refusal])?;
        self.compare(rt, about, "answered value", &[got.value], &[wanted.value])?;
        self.compare(rt, about, "entry", &got.book.entries, &wanted.book.entries)?;
        let others = |book: &Book| [book.lists, book.free_head, book.free_count];
        self.compare(
            rt,
            about,
            "count of lists, free head or free count",
            &others(&got.book),
            &others(&wanted.book),
        )
    }

    // The table, and how many calls gave every number of their row, and no other.
    fn write_table(&self, rt: &impl Print) -> io::Result<()> {
        print!(rt;
            "how often each call gave the numbers 0 to 17: setup, check, length, push back, push front, "
        )?;
        print!(rt; "pop back, pop front, read forward, read backward, clear, ")?;
        println!(rt;
            "quick push back, quick push front, quick pop back, quick pop front, and all together"
        )?;
        for row in &self.table {
            rt.println(row)?;
        }
        rt.println(&self.all)?;
        let right = self
            .table
            .iter()
            .zip(MAY_GIVE)
            .filter(|(row, may_give)| row.is_right(may_give))
            .count();
        let right = Digits(right as u64);
        println!(rt; "calls that gave every number of their row, and no other: {right} of 14")
    }

    pub(crate) fn write(&self, rt: &impl Print) -> io::Result<()> {
        let calls = Digits(self.calls);
        let damaged = Digits(self.damaged);
        let unsound = Digits(self.unsound);
        let taken_back = Digits(self.taken_back);
        let put_back = Digits(self.put_back);
        let differences = Digits(self.differences);
        self.write_table(rt)?;
        println!(rt; "calls {calls}")?;
        println!(rt; "damaged pools {damaged}, not sound {unsound}")?;
        println!(rt; "pushes taken back {taken_back}, pops put back {put_back}")?;
        println!(rt; "differences {differences}")
    }
}
