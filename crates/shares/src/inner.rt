// The core below every face: a push, a pop and a clear on one list, handed its chains, and giving them back; a push also has what the check
// found that the lists lack. The value of a pop goes into the word that the caller lends, and nowhere else. The pool must be sound: of any
// other the promises say what comes, but a call may be done and have done nothing.
ghost use Rattle.std.specs.Prelude.{◌≡◌, Ok};
ghost use Rattle.shapes.specs.Records.{list_change_by};
ghost use Rattle.engines.specs.OnList.{on_list, push_on, pop_on};
ghost use Rattle.xor.specs.Along.{clear_on_list};
ghost use Rattle.xor.specs.Engine.{xor};

use crate::refusals::{pop_number, push_number};
use books::{Free, Number};
use shapes::{Chains, End};

// Refused by 6 or 7; nothing changes then.
#[tactic(auto, unfolding(engines::specs::OnList::push_on, shapes::specs::Numbers::decided))]
pub fn push(
    links: &mut [u16],
    values: &mut [u64],
    end: End,
    chains: Chains,
    lacks: usize,
    value: u64,
) -> Result<Chains, Number>
    ensures { on_list (list_change_by chains result) 0 links.new values.new ≡ push_on xor links.old values.old chains.list chains.idle lacks end value }
{
    push_number(chains.list, chains.list.length, lacks, chains.idle.count)?;
    Ok(crate::counted::push(links, values, end, chains, value).unwrap_or(chains))
}

// Refused by 5; the word is 0 then, and nothing else changes. The word is stored once, after the cells.
#[tactic(auto, unfolding(engines::specs::OnList::pop_on, shapes::specs::Numbers::decided))]
pub fn pop(
    links: &mut [u16],
    values: &mut [u64],
    end: End,
    chains: Chains,
    value: &mut u64,
) -> Result<Chains, Number>
    ensures { on_list (list_change_by chains result) value.new links.new values.new ≡ pop_on xor links.old values.old chains.list chains.idle end }
{
    if let Err(number) = pop_number(chains.list.length) {
        *value = 0;
        return Err(number);
    }
    let (popped, after) = crate::counted::pop(links, values, end, chains).unwrap_or((0, chains));
    *value = popped;
    Ok(after)
}

// The list's slots, as many as its length says, are wiped and free. It is not refused.
#[tactic(auto, unfolding(xor::specs::Along::clear_on_list))]
pub fn clear(links: &mut [u16], values: &mut [u64], chains: Chains) -> Chains
    ensures { on_list (list_change_by chains (Ok result)) 0 links.new values.new ≡ clear_on_list links.old values.old chains.list chains.idle }
{
    let Chains { list, idle } = chains;
    let rest = walks::clear::clear(links, values, list.head, idle, usize::from(list.length));
    Chains {
        list: lists::new(list.share, list.limit),
        idle: Free {
            count: idle.count.wrapping_add(list.length),
            ..rest
        },
    }
}
