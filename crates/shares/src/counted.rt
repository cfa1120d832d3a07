// The steps on one list with the stored counts: one slot more or less in the list, one less or more free. A step that the list refuses
// changes nothing. The counts are words of 16 bits; no count of a sound pool leaves its word.
ghost use Rattle.std.specs.Prelude.{◌≡◌, IsNone};
ghost use Rattle.books.specs.Outcome.{outcome};
ghost use Rattle.shapes.specs.Counts.{word_up, word_down};
ghost use Rattle.shapes.specs.Records.{push_step_by, pop_step_by};
ghost use Rattle.engines.specs.Counted.{if_made};
ghost use Rattle.xor.specs.Engine.{pushed_as, popped_as};
ghost use Rattle.xor.specs.Steps.{push_of, pop_of};

use books::{Entry, Free};
use shapes::{Chains, End};

// A value at an end of the list.
#[tactic(auto, using(xor::proofs::Steps::push_step_refused))]
pub(crate) fn push(
    links: &mut [u16],
    values: &mut [u64],
    end: End,
    chains: Chains,
    value: u64,
) -> Option<Chains>
    ensures stays { IsNone result → (links.new ≡ links.old) × (values.new ≡ values.old) }
    ensures made { pushed_as (outcome (push_step_by chains result) links.new values.new) ≡ if_made (word_up chains.list.length) (word_down chains.idle.count) (pushed_as (push_of end links.old values.old chains.list chains.idle value)) }
{
    let after = push_at(links, values, end, chains, value)?;
    Some(Chains {
        list: Entry {
            length: chains.list.length.wrapping_add(1),
            ..after.list
        },
        idle: Free {
            count: chains.idle.count.wrapping_sub(1),
            ..after.idle
        },
    })
}

// The value at an end of the list, out of it. It is always inlined, as `lists::pop` is, so that the value never lies in memory.
#[inline(always)]
#[tactic(auto, using(xor::proofs::Steps::pop_step_refused))]
pub(crate) fn pop(
    links: &mut [u16],
    values: &mut [u64],
    end: End,
    chains: Chains,
) -> Option<(u64, Chains)>
    ensures stays { IsNone result → (links.new ≡ links.old) × (values.new ≡ values.old) }
    ensures made { popped_as (outcome (pop_step_by chains result) links.new values.new) ≡ if_made (word_down chains.list.length) (word_up chains.idle.count) (popped_as (pop_of end links.old values.old chains.list chains.idle)) }
{
    let (value, after) = pop_at(links, values, end, chains)?;
    let list = Entry {
        length: chains.list.length.wrapping_sub(1),
        ..after.list
    };
    let idle = Free {
        count: chains.idle.count.wrapping_add(1),
        ..after.idle
    };
    Some((value, Chains { list, idle }))
}

// The step of the list at an end, by the name that 000 gives it.
fn push_at(
    links: &mut [u16],
    values: &mut [u64],
    end: End,
    chains: Chains,
    value: u64,
) -> Option<Chains>
    ensures { outcome (push_step_by chains result) links.new values.new ≡ push_of end links.old values.old chains.list chains.idle value }
{
    match end {
        End::Front => lists::push_front(links, values, chains, value),
        End::Back => lists::push_back(links, values, chains, value),
    }
}

#[inline(always)]
fn pop_at(links: &mut [u16], values: &mut [u64], end: End, chains: Chains) -> Option<(u64, Chains)>
    ensures { outcome (pop_step_by chains result) links.new values.new ≡ pop_of end links.old values.old chains.list chains.idle }
{
    match end {
        End::Front => lists::pop_front(links, values, chains),
        End::Back => lists::pop_back(links, values, chains),
    }
}
