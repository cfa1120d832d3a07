// The walks along the lists, one list after the other, with what is gathered on the way: rule 11, and what rules 13, 15 and 16
// need.
ghost use Rattle.std.specs.Prelude.{◌≡◌, ◌&&◌, ◌+◌, ◌≤◌, ◌<◌, eqb, length, take, MatchResult};
ghost use Rattle.books.specs.Words.{entries_from};
ghost use Rattle.shapes.specs.Faults.{gathered_none};
ghost use Rattle.engines.specs.Check.{gather_all};
ghost use Rattle.xor.specs.Engine.{xor};
ghost use Rattle.pools.specs.Found.{fault_by, gathered_by, count_one, ListsBelow};

use crate::words::entry_at;
use books::{Entry, Number, Refused, Words};
use shapes::LiveWalk;

// What the walks along the lists so far have gathered: how many slots are live; what the lists lack of their shares; the lowest list over
// its limit; and the lowest list whose stored length is not the number of its slots.
#[derive(Clone, Copy, Debug, PartialEq, Eq)]
pub(crate) struct Counts {
    pub(crate) live: usize,
    pub(crate) lacks: usize,
    pub(crate) over: Option<u16>,
    pub(crate) wrong: Option<u16>,
}

// Did the walk come to its end, at the tail of that list? The tail is asked last.
fn ends_well(walk: LiveWalk, entry: Entry) -> bool
    ensures { result ≡ (walk.ok && eqb walk.last entry.tail) }
{
    walk.ok && walk.last == usize::from(entry.tail)
}

// One list more, number `list`, whose walk passed `many` slots. Neither sum wraps. What is right is asked first, so that nothing is kept of
// a list that is within its limit and has its stored length: nearly every list is so. An empty one lacks its whole share.
fn gather_one(list: u16, entry: Entry, many: usize, counts: Counts) -> Counts
    requires { (counts.live + many < 18446744073709551616) × (counts.lacks + 65536 < 18446744073709551616) }
    ensures { (result ≡ count_one list entry many counts) × (result.lacks ≤ counts.lacks + 65535) }
{
    let share = usize::from(entry.share);
    if many == 0 && entry.length == 0 {
        return Counts {
            lacks: counts.lacks + share,
            ..counts
        };
    }
    let right = Counts {
        live: counts.live + many,
        lacks: counts.lacks + share.saturating_sub(many),
        ..counts
    };
    let limit = usize::from(entry.limit);
    let length = usize::from(entry.length);
    // Two branches, as in `book::is_fair`.
    if length == many {
        if many <= limit {
            return right;
        }
    }
    Counts {
        over: counts.over.or((limit < many).then_some(list)),
        wrong: counts.wrong.or((length != many).then_some(list)),
        ..right
    }
}

// The walks along the first `lists` lists, in number order, up to the first that fails. What the walk does not need of a list is read
// after it: the walk leaves few registers for it.
pub(crate) fn gather(
    links: &[u16],
    met: &mut [u8],
    lists: u16,
    words: &Words,
) -> Result<Counts, Refused>
    requires { (lists ≤ 8) × (length met.old ≤ 4096) }
    ensures gathered { MatchResult result (λ counts. ListsBelow lists counts × (gathered_by lists counts ≡ (gather_all xor lists links.now 0 (take lists (entries_from words.now)) met.old (gathered_none lists)).gathered)) (λ refused. fault_by refused ≡ (gather_all xor lists links.now 0 (take lists (entries_from words.now)) met.old (gathered_none lists)).gathered.fault) }
    ensures met { met.new ≡ (gather_all xor lists links.now 0 (take lists (entries_from words.now)) met.old (gathered_none lists)).met }
{
    let mut counts = Counts {
        live: 0,
        lacks: 0,
        over: None,
        wrong: None,
    };
    for list in 0..lists {
        let k = usize::from(list);
        let walk = walks::walk::walk_live(links, met, entry_at(words, k).head);
        let entry = entry_at(words, k);
        if !ends_well(walk, entry) {
            return Err(Refused {
                number: Number::LiveChain,
                list,
                position: walk.length as u16,
            });
        }
        counts = gather_one(list, entry, walk.length, counts);
    }
    Ok(counts)
}
