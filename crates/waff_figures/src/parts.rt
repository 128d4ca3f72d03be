//! What is told of a part of the messages of a plan.

ghost use Rattle.std.specs.Prelude.{◌≡◌, ◌^◌, ◌<◌, ℕ, IfOk, count_by, length, slice_index_or, sum_by};
ghost use Rattle.waff_plan.specs.Chain.{IsListed};
ghost use Rattle.waff_plan.specs.Timetable.{starts_in, work_in};
ghost use Rattle.waff_plan.specs.Work.{greatest, numbers};
ghost use Rattle.waff_figures.specs.Figures.{latencies_among, waits_among};
ghost use Rattle.waff_figures.specs.Members.{AreMembers};
ghost use Rattle.waff_figures.specs.Parts.{ArePartFigures, no_part, part_where};
ghost use Rattle.waff_figures.specs.Tally.{is_in, no_tally};

use crate::figures::latency;
use crate::grouped::Grouped;
use crate::members::{Members, between, group_members};
use crate::percentile::percentile;
use crate::tally::Tally;
use std::alloc::{AllocError, Global};
use waff_plan::Plan;

/// What is told of some of the messages of a plan, in ticks.
#[derive(Clone, Copy)]
pub struct PartFigures {
    /// The sum of the times from the issues to the starts.
    pub waits: u128,
    /// The sum of the latencies: of the times from the issues to the finishes.
    pub latencies: u128,
    /// At least half of the messages have a latency of at most this.
    pub p50: u64,
    /// And 99 of 100.
    pub p99: u64,
    /// The greatest latency, 0 for no message.
    pub latency: u64,
}

/// The figures of each group of messages, by the tallies of the groups.
pub(crate) fn parts(
    alloc: Global,
    grouped: &Grouped<'_>,
    tallies: &[Tally],
) -> Result<Vec<PartFigures>, AllocError>
    requires count { length tallies.now ≡ grouped.now.count }
    requires tallies { (g : ℕ) → g < grouped.now.count
        → (slice_index_or tallies.now g no_tally).messages
        ≡ count_by (is_in grouped.now.groups.now g) (numbers (work_in grouped.now.plan.now)) }
    ensures count { IfOk result (λ parts. length parts.items ≡ grouped.now.count) }
    ensures each { IfOk result (λ parts. (g : ℕ) → g < grouped.now.count
        → ArePartFigures (work_in grouped.now.plan.now) (starts_in grouped.now.plan.now)
        (part_where (work_in grouped.now.plan.now) (is_in grouped.now.groups.now g))
        (slice_index_or parts.items g no_part)) }
{
    let members = group_members(alloc, grouped, tallies)?;
    let parts = parts_of(alloc, grouped, &members);
    drop(members);
    parts
}

/// The figures of each group, by its members.
fn parts_of(
    alloc: Global,
    grouped: &Grouped<'_>,
    members: &Members,
) -> Result<Vec<PartFigures>, AllocError>
    requires members { AreMembers (work_in grouped.now.plan.now) grouped.now.groups.now
        grouped.now.count members.now.order.items members.now.ends.items }
    ensures count { IfOk result (λ parts. length parts.items ≡ grouped.now.count) }
    ensures each { IfOk result (λ parts. (g : ℕ) → g < grouped.now.count
        → ArePartFigures (work_in grouped.now.plan.now) (starts_in grouped.now.plan.now)
        (part_where (work_in grouped.now.plan.now) (is_in grouped.now.groups.now g))
        (slice_index_or parts.items g no_part)) }
{
    let mut parts = Vec::with_capacity(alloc, grouped.count)?;
    let mut from = 0;
    for g in 0..grouped.count {
        let to = members.ends[g] as usize;
        let messages = between(members.order.as_slice(), from, to);
        let part = part_figures(alloc, grouped.plan, messages)?;
        parts.push_reserved(part);
        from = to;
    }
    Ok(parts)
}

/// The figures of these messages of a plan.
fn part_figures(alloc: Global, plan: &Plan, messages: &[u32]) -> Result<PartFigures, AllocError>
    requires messages { IsListed (length plan.now.timings) messages.now }
    ensures { IfOk result (ArePartFigures (work_in plan.now) (starts_in plan.now) messages.now) }
{
    let _messages = plan.len();
    let waits = waits(plan, messages);
    let mut sorted = latencies(alloc, plan, messages)?;
    let latencies = sum(sorted.as_slice());
    let latency = greatest(sorted.as_slice());
    sorted.sort_unstable();
    Ok(PartFigures {
        waits,
        latencies,
        p50: percentile(sorted.as_slice(), 50),
        p99: percentile(sorted.as_slice(), 99),
        latency,
    })
}

/// How long these messages wait in all, from their issues to their starts.
fn waits(plan: &Plan, messages: &[u32]) -> u128
    requires { IsListed (length plan.now.timings) messages.now }
    ensures { result ≡ waits_among (work_in plan.now) (starts_in plan.now) messages.now }
{
    let _messages = plan.len();
    let mut waits = 0;
    for message in messages {
        let n = *message;
        waits += u128::from(plan.start(n).saturating_sub(plan.issue(n)));
    }
    waits
}

/// The latencies of these messages.
fn latencies(alloc: Global, plan: &Plan, messages: &[u32]) -> Result<Vec<u64>, AllocError>
    requires { IsListed (length plan.now.timings) messages.now }
    ensures { IfOk result (λ latencies. latencies.items
        ≡ latencies_among (work_in plan.now) (starts_in plan.now) messages.now) }
{
    let mut latencies = Vec::with_capacity(alloc, messages.len())?;
    for message in messages {
        latencies.push_reserved(latency(plan, *message));
    }
    Ok(latencies)
}

/// The sum of these numbers.
fn sum(numbers: &[u64]) -> u128
    requires { length numbers.now < 2 ^ 32 }
    ensures { result ≡ sum_by (λ n. n) numbers.now }
{
    let mut sum = 0;
    for n in numbers {
        sum += u128::from(*n);
    }
    sum
}

/// The greatest of these numbers, 0 where there are none.
fn greatest(numbers: &[u64]) -> u64
    ensures { result ≡ greatest numbers.now }
{
    let mut greatest = 0;
    for n in numbers {
        greatest = (*n).max(greatest);
    }
    greatest
}
