//! Who awaits whom, and which messages await none.

ghost use Rattle.std.specs.Prelude.{◌≤◌, ℕ, length, map, IfOk, OnOk, []};
ghost use Rattle.waff_model.specs.Numbers.{IsAmongFirst};
ghost use Rattle.waff_model.specs.declared.limits.TheConstants.{MAX_MESSAGES};
ghost use Rattle.waff_plan.specs.Awaiting.{AreAwaiting};
ghost use Rattle.waff_plan.specs.Obeys.{AwaitsEarlier};
ghost use Rattle.waff_plan.specs.Pending.{AreFirst};
ghost use Rattle.waff_plan.specs.Timing.{awaits_by, work_of};
ghost use Rattle.waff_plan.specs.declared.timing.Awaited.TheVariants.{Every};
ghost use Rattle.waff_plan.specs.Work.{IsAwaited, issue_of};
ghost use Rattle.waff_waits.specs.Waits.{Enters};

use crate::{Due, Timing};
use std::alloc::{AllocError, Global};
use std::cmp::Reverse;
use waff_model::Await;
use waff_waits::Waits;

/// Each message waits for those that it awaits.
pub fn awaiting(alloc: Global, timings: &[Timing]) -> Result<Waits, AllocError>
    requires few { length timings.now ≤ MAX_MESSAGES }
    requires earlier { AwaitsEarlier (work_of timings.now) }
    ensures { IfOk result (AreAwaiting (work_of timings.now) []) }
{
    let mut waits = Waits::none(alloc, timings.len())?;
    for m in 1..timings.len() as u32 + 1 {
        enter(&mut waits, m, &timings[m as usize - 1])?;
    }
    Ok(waits)
}

/// Message `m`, which has this timing, waits for all that it awaits.
fn enter(waits: &mut Waits, m: u32, timing: &Timing) -> Result<(), AllocError>
    requires number { IsAmongFirst (length waits.old.awaited) m }
    requires awaited { (i : ℕ) → IsAwaited (awaits_by Every timing.now) i
        → IsAmongFirst (length waits.old.awaited) i }
    ensures { OnOk result (Enters waits.old m
        (map (λ a. a.message) (awaits_by Every timing.now)) waits.new) }
{
    if timing.follows != 0 {
        waits.enter(m, &[timing.follows])?;
    }
    enter_all(waits, m, timing.after.as_slice())?;
    Ok(())
}

/// Message `m` waits for each of these.
fn enter_all(waits: &mut Waits, m: u32, after: &[Await]) -> Result<(), AllocError>
    requires number { IsAmongFirst (length waits.old.awaited) m }
    requires awaited { (i : ℕ) → IsAwaited after.now i → IsAmongFirst (length waits.old.awaited) i }
    ensures { OnOk result (Enters waits.old m (map (λ a. a.message) after.now) waits.new) }
{
    for k in 0..after.len() {
        waits.enter(m, &[after[k].message])?;
    }
    Ok(())
}

/// The messages that await none, which are issued at their floors.
pub fn first_issues(alloc: Global, timings: &[Timing]) -> Result<Due, AllocError>
    requires few { length timings.now ≤ MAX_MESSAGES }
    ensures { IfOk result (AreFirst (work_of timings.now) (issue_of (work_of timings.now))) }
{
    let mut issues = Vec::with_capacity(alloc, timings.len())?;
    for m in 1..timings.len() as u32 + 1 {
        let timing = &timings[m as usize - 1];
        if timing.is_alone() {
            issues.push_reserved(Reverse((u64::from(timing.floor), m)));
        }
    }
    Ok(Due::of(alloc, issues))
}
