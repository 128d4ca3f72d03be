//! What is told of some of the messages.

ghost use Rattle.std.specs.Prelude.{◌≡◌, ◌<◌, ℕ, [], IfOk, length, slice_index_or};
ghost use Rattle.waff_plan.specs.Timetable.{work_in};
ghost use Rattle.waff_plan.specs.Chain.{IsListed};
ghost use Rattle.waff_figures.specs.Tally.{is_in, no_tally, tally_of};

use crate::grouped::Grouped;
use std::alloc::{AllocError, Global};

/// What is told of some of the messages: how many there are, the sum of their costs, and that of
/// those on a chain, in ticks.
#[derive(Clone, Copy)]
pub struct Tally {
    pub messages: u32,
    pub cost: u64,
    pub chain: u64,
}

/// The tally of each group of messages.
pub(crate) fn tallies(
    alloc: Global,
    grouped: &Grouped<'_>,
    chain: &[u32],
) -> Result<Vec<Tally>, AllocError>
    requires chain { IsListed (length grouped.now.plan.now.timings) chain.now }
    ensures count { IfOk result (λ tallies. length tallies.items ≡ grouped.now.count) }
    ensures each { IfOk result (λ tallies. (g : ℕ) → g < grouped.now.count
        → slice_index_or tallies.items g no_tally
        ≡ tally_of (work_in grouped.now.plan.now) chain.now (is_in grouped.now.groups.now g)) }
{
    let mut tallies = counted(alloc, grouped)?;
    count_chain(&mut tallies, grouped, chain);
    Ok(tallies)
}

/// The tallies of all messages, each counted in its group, and of no chain.
fn counted(alloc: Global, grouped: &Grouped<'_>) -> Result<Vec<Tally>, AllocError>
    ensures count { IfOk result (λ tallies. length tallies.items ≡ grouped.now.count) }
    ensures each { IfOk result (λ tallies. (g : ℕ) → g < grouped.now.count
        → slice_index_or tallies.items g no_tally
        ≡ tally_of (work_in grouped.now.plan.now) [] (is_in grouped.now.groups.now g)) }
{
    let nothing = Tally {
        messages: 0,
        cost: 0,
        chain: 0,
    };
    let mut tallies = vec![in alloc; nothing; grouped.count]?;
    for n in 1..grouped.plan.len() + 1 {
        let place = grouped.groups[n as usize - 1] as usize;
        let Tally {
            messages,
            cost,
            chain,
        } = tallies[place];
        tallies[place] = Tally {
            messages: messages + 1,
            cost: cost + grouped.plan.cost(n),
            chain,
        };
    }
    Ok(tallies)
}

/// Adds the costs of the messages of the chain.
fn count_chain(tallies: &mut Vec<Tally>, grouped: &Grouped<'_>, chain: &[u32])
    requires chain { IsListed (length grouped.now.plan.now.timings) chain.now }
    requires count { length tallies.old.items ≡ grouped.now.count }
    requires each { (g : ℕ) → g < grouped.now.count
        → slice_index_or tallies.old.items g no_tally
        ≡ tally_of (work_in grouped.now.plan.now) [] (is_in grouped.now.groups.now g) }
    ensures count { length tallies.new.items ≡ grouped.now.count }
    ensures each { (g : ℕ) → g < grouped.now.count
        → slice_index_or tallies.new.items g no_tally
        ≡ tally_of (work_in grouped.now.plan.now) chain.now (is_in grouped.now.groups.now g) }
{
    let _messages = grouped.plan.len();
    for message in chain {
        let place = grouped.groups[*message as usize - 1] as usize;
        let tally = tallies[place];
        tallies[place] = Tally {
            chain: tally.chain + grouped.plan.cost(*message),
            ..tally
        };
    }
}
