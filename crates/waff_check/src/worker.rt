//! Workers that rows tell.

ghost use Rattle.std.specs.Prelude.{◌<◌, ◌≤◌, ◌↔◌, ℕ, IfOk, IsTrue, MatchOption, Some};
ghost use Rattle.waff_plan.specs.Planned.{planned_starts, planned_work};
ghost use Rattle.waff_plan.specs.Timetable.{starts_in, work_in};
ghost use Rattle.waff_plan.specs.Work.{IsNumber};
ghost use Rattle.waff_check.specs.Faults.{HasWrongWorker, IsLeastOf, IsMisplaced, IsTaken, NoneOf};
ghost use Rattle.waff_check.specs.Faults.{RunTogether};
ghost use Rattle.waff_check.specs.Shifts.{first_of};
ghost use Rattle.waff_check.specs.Verdicts.{worker_in};

use crate::claim::Claim;
use crate::shifts::are_right;
use std::alloc::{AllocError, Global};
use waff_plan::Plan;

/// Whether messages `i` and `j` run at a common tick.
pub(crate) fn run_together(plan: &Plan, i: u32, j: u32) -> bool
    requires first { IsNumber (work_in plan.now) i }
    requires second { IsNumber (work_in plan.now) j }
    ensures { IsTrue result
        ↔ RunTogether (work_in plan.now) (starts_in plan.now) i j }
{
    plan.start(i).max(plan.start(j)) < plan.finish(i).min(plan.finish(j))
}

/// Whether message `i` has this worker and runs at a tick at which message `n` runs.
fn is_taken_by(claim: &Claim<'_>, worker: u64, n: u32, i: u32) -> bool
    requires number { IsNumber (planned_work claim.now.planned) n }
    requires from { 1 ≤ i }
    requires earlier { i < n }
    ensures { IsTrue result ↔ IsTaken (planned_work claim.now.planned)
        (planned_starts claim.now.planned) (worker_in claim.now.given.now) worker n i }
{
    claim.given.row(i).worker == Some(worker) && run_together(claim.planned.plan, i, n)
}

/// Whether a message of lower number than `n` has this worker and runs at a tick at which message
/// `n` runs.
fn is_taken(claim: &Claim<'_>, worker: u64, n: u32) -> bool
    requires number { IsNumber (planned_work claim.now.planned) n }
    ensures { IsTrue result ↔ ((i : ℕ) × IsTaken (planned_work claim.now.planned)
        (planned_starts claim.now.planned) (worker_in claim.now.given.now) worker n i) }
{
    for i in 1..n {
        if is_taken_by(claim, worker, n, i) {
            return true;
        }
    }
    false
}

/// Whether the worker that the row of message `n` tells is wrong.
fn is_misplaced(claim: &Claim<'_>, workers: Option<u32>, n: u32) -> bool
    requires number { IsNumber (planned_work claim.now.planned) n }
    ensures { IsTrue result ↔ IsMisplaced (planned_work claim.now.planned)
        (planned_starts claim.now.planned) (worker_in claim.now.given.now) workers n
        (worker_in claim.now.given.now n) }
{
    let worker = claim.given.row(n).worker;
    match workers {
        None => worker.is_some(),
        Some(k) => match worker {
            None => true,
            Some(worker) => worker < 1 || u64::from(k) < worker || is_taken(claim, worker, n),
        },
    }
}

/// The first message whose row tells a wrong worker, where those of the first messages are right.
/// Each message is looked at with all before it.
fn first_misplaced(claim: &Claim<'_>, workers: Option<u32>, right: u32) -> Option<u32>
    requires many { right ≤ (planned_work claim.now.planned).count }
    requires right { NoneOf (HasWrongWorker (first_of (planned_work claim.now.planned) right)
        (planned_starts claim.now.planned) (worker_in claim.now.given.now) workers) }
    ensures { MatchOption result
        (NoneOf (HasWrongWorker (planned_work claim.now.planned)
        (planned_starts claim.now.planned) (worker_in claim.now.given.now) workers))
        (IsLeastOf (HasWrongWorker (planned_work claim.now.planned)
        (planned_starts claim.now.planned) (worker_in claim.now.given.now) workers)) }
{
    let messages = claim.planned.plan.len();
    for n in right + 1..messages + 1 {
        if is_misplaced(claim, workers, n) {
            return Some(n);
        }
    }
    None
}

/// So many of the first messages tell right ones of `k` workers: all, or those before the first that
/// does not. The number is halved in on.
fn right_ones(alloc: Global, claim: &Claim<'_>, k: u32) -> Result<u32, AllocError>
    ensures many { IfOk result (λ right. right ≤ (planned_work claim.now.planned).count) }
    ensures right { IfOk result (λ right. NoneOf
        (HasWrongWorker (first_of (planned_work claim.now.planned) right)
        (planned_starts claim.now.planned) (worker_in claim.now.given.now) (Some k))) }
{
    let messages = claim.planned.plan.len();
    if are_right(alloc, claim, k, messages)? {
        return Ok(messages);
    }
    let mut right = 0;
    let mut wrong = messages;
    while right + 1 < wrong {
        let half = right + (wrong - right) / 2;
        if are_right(alloc, claim, k, half)? {
            right = half;
        } else {
            wrong = half;
        }
    }
    Ok(right)
}

/// The first message whose row tells a wrong worker.
pub(crate) fn wrong_worker(
    alloc: Global,
    claim: &Claim<'_>,
    workers: Option<u32>,
) -> Result<Option<u32>, AllocError>
    ensures { IfOk result (λ found. MatchOption found
        (NoneOf (HasWrongWorker (planned_work claim.now.planned)
        (planned_starts claim.now.planned) (worker_in claim.now.given.now) workers))
        (IsLeastOf (HasWrongWorker (planned_work claim.now.planned)
        (planned_starts claim.now.planned) (worker_in claim.now.given.now) workers))) }
{
    match workers {
        None => Ok(first_misplaced(claim, None, 0)),
        Some(k) => {
            let right = right_ones(alloc, claim, k)?;
            Ok(first_misplaced(claim, Some(k), right))
        }
    }
}
