//! Ticks at which more messages run than there are workers.

ghost use Rattle.std.specs.Prelude.{◌≡◌, ℕ, Some, IfOk, MatchOption};
ghost use Rattle.waff_plan.specs.Timetable.{starts_in, work_in};
ghost use Rattle.waff_plan.specs.Work.{Work};
ghost use Rattle.waff_check.specs.Crowds as crowds;
ghost use Rattle.waff_check.specs.Crowds.{AreTicks};
ghost use Rattle.waff_check.specs.Faults.{IsCrowded, IsLeastOf, NoneOf};

use crate::ticks::Ticks;
use std::alloc::{AllocError, Global};
use waff_plan::Plan;

/// Whether a tick is before another, which need not be there.
fn is_earlier(tick: u64, other: Option<u64>) -> bool
    ensures { result ≡ crowds.is_earlier tick other }
{
    match other {
        Some(other) => tick < other,
        None => true,
    }
}

/// The first tick so far at which more than `k` messages run, with one more tick.
fn with_tick(ticks: &Ticks, k: u32, first: Option<u64>, tick: u64) -> Option<u64>
    ensures { (work : Work) (start : ℕ → ℕ)
        → AreTicks work start ticks.now.starts.items ticks.now.finishes.items
        → result ≡ crowds.with_tick work start k first tick }
{
    if is_earlier(tick, first) && ticks.is_crowded(k, tick) {
        Some(tick)
    } else {
        first
    }
}

/// The first tick at which more than `k` messages run: it is the start of a message.
fn crowded_for(alloc: Global, plan: &Plan, k: u32) -> Result<Option<u64>, AllocError>
    ensures { IfOk result (λ found. MatchOption found
        (NoneOf (IsCrowded (work_in plan.now) (starts_in plan.now) (Some k)))
        (IsLeastOf (IsCrowded (work_in plan.now) (starts_in plan.now) (Some k)))) }
{
    let ticks = Ticks::new(alloc, plan)?;
    let mut first = None;
    for n in 1..plan.len() + 1 {
        first = with_tick(&ticks, k, first, plan.start(n));
    }
    Ok(first)
}

/// The first tick at which more messages run than there are workers, if the plan has workers.
pub(crate) fn crowded(
    alloc: Global,
    plan: &Plan,
    workers: Option<u32>,
) -> Result<Option<u64>, AllocError>
    ensures { IfOk result (λ found. MatchOption found
        (NoneOf (IsCrowded (work_in plan.now) (starts_in plan.now) workers))
        (IsLeastOf (IsCrowded (work_in plan.now) (starts_in plan.now) workers))) }
{
    match workers {
        None => Ok(None),
        Some(k) => crowded_for(alloc, plan, k),
    }
}
