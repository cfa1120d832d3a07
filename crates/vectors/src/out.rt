// How cells, a book and what a call gives are written.
use books::{Book, Entry, Refusal};
use std::{fmt, io};

// The links, the values or the buffer, with commas between. Of more than forty cells the first three and the last three are shown.
#[derive(Drop)]
pub(crate) struct Row<'a, T>(pub(crate) &'a [T]);

impl<T: fmt::Display> fmt::Display for Row<'_, T> {
    fn fmt<W: fmt::Write>(&self, f: &mut fmt::Formatter<W>) -> fmt::Result {
        match self.0 {
            [a, b, c, .., x, y, z] if self.0.len() > 40 => {
                write!(f, "{a},{b},{c} .. {x},{y},{z}")
            }
            [first, rest @ ..] => {
                write!(f, "{first}")?;
                for cell in rest {
                    write!(f, ",{cell}")?;
                }
                Ok(())
            }
            [] => Ok(()),
        }
    }
}

// How many lists there are, the free head and the free count, then head, tail, share, limit and length of each entry.
pub(crate) fn book(rt: &impl Print, book: &Book) -> io::Result<()> {
    print!(rt;
        ", book {} {} {}",
        book.lists, book.free.head, book.free.count
    )?;
    for entry in &book.entries {
        let Entry {
            head,
            tail,
            share,
            limit,
            length,
        } = *entry;
        print!(rt; ", {head} {tail} {share} {limit} {length}")?;
    }
    Ok(())
}

// What a call gives. A number below 9, and 17, names no rule and has no place: a place that it has all the same is shown.
pub(crate) fn given(rt: &impl Print, refusal: Refusal, value: u64) -> io::Result<()> {
    let Refusal {
        number,
        list,
        position,
    } = refusal;
    print!(rt; ": number {number}")?;
    if matches!(number, 9..=16) || list != 0 || position != 0 {
        print!(rt; " at list {list} position {position}")?;
    }
    print!(rt; ", returns {value}")
}
