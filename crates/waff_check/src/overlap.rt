//! Pairs of messages that exclude each other, of which the second starts too early, or which run at a
//! common tick.

ghost use Rattle.std.specs.Prelude.{◌+◌, ◌-◌, ◌<◌, ◌≤◌, ◌↔◌, ℕ, IfOk, IsTrue, MatchOption};
ghost use Rattle.waff_model.specs.declared.limits.TheConstants.{MAX_MESSAGES};
ghost use Rattle.waff_plan.specs.Planned.{planned_starts, planned_work};
ghost use Rattle.waff_plan.specs.Timetable.{starts_in, work_in};
ghost use Rattle.waff_plan.specs.Work.{IsNumber, finish_of};
ghost use Rattle.waff_check.specs.Searches.{AreAtOddsWhere, HasOverlap, IsFirstPlace, IsSearchable};
ghost use Rattle.waff_check.specs.Searches.{NoneAmong, planned_clients, planned_overlaps};
ghost use Rattle.waff_check.specs.Faults.{IsFirstPair, IsLeastOf, NoneOf};

use crate::worker::run_together;
use rayon::prelude::*;
use std::alloc::{AllocError, Global};
use std::thread::Threads;
use waff_assign::is_ordered;
use waff_plan::apart::keeps_apart;
use waff_plan::ordered::keeps_order;
use waff_plan::{Plan, Planned};

/// Whether message `j` starts before message `i` has finished.
fn is_too_soon(plan: &Plan, i: u32, j: u32) -> bool
    requires first { IsNumber (work_in plan.now) i }
    requires second { IsNumber (work_in plan.now) j }
    ensures { IsTrue result
        ↔ (starts_in plan.now j < finish_of (work_in plan.now) (starts_in plan.now) i) }
{
    plan.start(j) < plan.finish(i)
}

/// Whether two messages are at odds, if they exclude each other: `j` starts before `i` has finished, or
/// where messages have clients both run at a common tick.
fn are_at_odds(planned: &Planned<'_>, i: u32, j: u32) -> bool
    requires first { IsNumber (planned_work planned.now) i }
    requires second { IsNumber (planned_work planned.now) j }
    ensures { IsTrue result ↔ AreAtOddsWhere (planned_clients planned.now)
        (planned_work planned.now) (planned_starts planned.now) i j }
{
    let plan = planned.plan;
    if planned.case.trace.version().has_clients() {
        run_together(plan, i, j)
    } else {
        is_too_soon(plan, i, j)
    }
}

/// Whether messages `i` and `j` are a pair that overlaps.
fn overlaps(planned: &Planned<'_>, i: u32, j: u32) -> bool
    requires first { IsNumber (planned_work planned.now) i }
    requires second { IsNumber (planned_work planned.now) j }
    ensures { IsTrue result ↔ planned_overlaps planned.now i j }
{
    if !are_at_odds(planned, i, j) {
        return false;
    }
    is_ordered(planned.case.tree, planned.case.assigned, i, j)
}

/// The least message with which message `i` overlaps.
fn second_of(planned: &Planned<'_>, i: u32) -> Option<u32>
    requires number { IsNumber (planned_work planned.now) i }
    ensures { MatchOption result
        (NoneOf (planned_overlaps planned.now i))
        (IsLeastOf (planned_overlaps planned.now i)) }
{
    let messages = planned.plan.len();
    for j in i + 1..messages + 1 {
        if overlaps(planned, i, j) {
            return Some(j);
        }
    }
    None
}

/// Whether none of the first `count` messages overlaps with a later one.
fn is_kept(alloc: Global, planned: &Planned<'_>, count: u32) -> Result<bool, AllocError>
    ensures { IfOk result (λ kept. IsTrue kept ↔ NoneAmong planned.now count) }
{
    if planned.case.trace.version().has_clients() {
        keeps_apart(alloc, planned, count)
    } else {
        keeps_order(alloc, planned, count)
    }
}

/// So many of the first messages overlap with no later one: all, or those before the first that does,
/// as the number is halved in on. No clause says that there are no more: that decides the time alone.
fn kept_ones(alloc: Global, planned: &Planned<'_>) -> Result<u32, AllocError>
    ensures many { IfOk result (λ kept. kept ≤ (planned_work planned.now).count) }
    ensures kept { IfOk result (NoneAmong planned.now) }
{
    let messages = planned.plan.len();
    if is_kept(alloc, planned, messages)? {
        return Ok(messages);
    }
    let mut kept = 0;
    let mut broken = messages;
    while kept + 1 < broken {
        let half = kept + (broken - kept) / 2;
        if is_kept(alloc, planned, half)? {
            kept = half;
        } else {
            broken = half;
        }
    }
    Ok(kept)
}

/// The first place, from the one that is `from`, of a message that overlaps with another one. A
/// thread looks at one message after another.
fn first_place<R: Threads + Sync>(rt: &R, planned: &Planned<'_>, from: u32) -> Option<usize>
    requires many { from ≤ (planned_work planned.now).count }
    ensures few { (planned_work planned.now).count ≤ MAX_MESSAGES }
    ensures first { IsFirstPlace (λ i. HasOverlap planned.now (from + i))
        ((planned_work planned.now).count - from) result }
{
    (from as usize..planned.plan.len() as usize)
        .into_par_iter()
        .position_first(
            rt,
            |i: usize| -> bool
                requires { IsSearchable planned.now i }
                ensures { IsTrue result ↔ HasOverlap planned.entry.now i }
            { second_of(planned, i as u32 + 1).is_some() },
        )
}

/// The first pair that overlaps, by a walk over the pairs of which the first message is none of the
/// `kept` first.
fn first_pair<R: Threads + Sync>(rt: &R, planned: &Planned<'_>, kept: u32) -> Option<(u32, u32)>
    requires many { kept ≤ (planned_work planned.now).count }
    requires kept { NoneAmong planned.now kept }
    ensures { MatchOption result
        ((i j : ℕ) → planned_overlaps planned.now i j → ⊥)
        (λ pair. IsFirstPair (planned_overlaps planned.now) pair.0 pair.1) }
{
    match first_place(rt, planned, kept) {
        None => None,
        Some(place) => {
            let first = kept + place as u32 + 1;
            match second_of(planned, first) {
                Some(second) => Some((first, second)),
                None => unreachable!("the place is that of an overlap"),
            }
        }
    }
}

/// The first pair that overlaps: the least first message, and the least second message with it. The
/// pairs are walked over only from the first message on that overlaps with a later one.
pub(crate) fn first_overlap<R: Threads + Sync>(
    rt: &R,
    alloc: Global,
    planned: &Planned<'_>,
) -> Result<Option<(u32, u32)>, AllocError>
    ensures { IfOk result (λ found. MatchOption found
        ((i j : ℕ) → planned_overlaps planned.now i j → ⊥)
        (λ pair. IsFirstPair (planned_overlaps planned.now) pair.0 pair.1)) }
{
    let kept = kept_ones(alloc, planned)?;
    Ok(first_pair(rt, planned, kept))
}
