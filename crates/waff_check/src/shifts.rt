//! Shifts: the messages that run, by worker and then by start.

ghost use Rattle.std.specs.Prelude.{◌+◌, ◌<◌, ◌≤◌, ◌↔◌, ℕ, All, IfOk, IsTrue, Some};
ghost use Rattle.waff_plan.specs.Planned.{planned_starts, planned_work};
ghost use Rattle.waff_plan.specs.Timetable.{starts_in, work_in};
ghost use Rattle.waff_plan.specs.Work.{IsNumber};
ghost use Rattle.waff_check.specs.Faults.{HasWrongWorker, NoneOf};
ghost use Rattle.waff_check.specs.Shifts.{AreApart, AreShifts, Follows, IsOneOf, IsShiftOf};
ghost use Rattle.waff_check.specs.Shifts.{first_of};
ghost use Rattle.waff_check.specs.Verdicts.{worker_in};

use crate::claim::Claim;
use std::alloc::{AllocError, Global};
use waff_plan::Plan;

/// Whether the row of each of the first messages tells one of `k` workers.
fn are_seated(claim: &Claim<'_>, k: u32, many: u32) -> bool
    requires many { many ≤ (planned_work claim.now.planned).count }
    ensures { IsTrue result
        ↔ ((n : ℕ) → IsNumber (first_of (planned_work claim.now.planned) many) n
        → IsOneOf k (worker_in claim.now.given.now n)) }
{
    for n in 1..many + 1 {
        if !is_one_of(k, claim.given.row(n).worker) {
            return false;
        }
    }
    true
}

/// Whether a worker is there, and is one of `k`.
fn is_one_of(k: u32, worker: Option<u64>) -> bool
    ensures { IsTrue result ↔ IsOneOf k worker }
{
    match worker {
        None => false,
        Some(worker) => 1 <= worker && worker <= u64::from(k),
    }
}

/// A message that runs: the worker that its row tells, its start and its number.
#[derive(Clone, Copy)]
struct Shift {
    worker: u64,
    start: u64,
    number: u32,
}

/// The shift of message `n`: none where its row tells no worker, or it runs at no tick.
fn find_shift(claim: &Claim<'_>, n: u32) -> Option<Shift>
    requires number { IsNumber (planned_work claim.now.planned) n }
    ensures { (many : ℕ) → n ≤ many
        → IsShiftOf (first_of (planned_work claim.now.planned) many)
        (planned_starts claim.now.planned) (worker_in claim.now.given.now) n result }
{
    let start = claim.planned.plan.start(n);
    match claim.given.row(n).worker {
        Some(worker) if start < claim.planned.plan.finish(n) => Some(Shift {
            worker,
            start,
            number: n,
        }),
        _ => None,
    }
}

/// The shifts of the first messages, by worker and then by start.
fn shifts(alloc: Global, claim: &Claim<'_>, many: u32) -> Result<Vec<Shift>, AllocError>
    requires many { many ≤ (planned_work claim.now.planned).count }
    ensures { IfOk result (λ shifts. AreShifts (first_of (planned_work claim.now.planned) many)
        (planned_starts claim.now.planned) (worker_in claim.now.given.now) shifts.items) }
{
    let mut shifts = Vec::with_capacity(alloc, many as usize)?;
    for n in 1..many + 1 {
        if let Some(shift) = find_shift(claim, n) {
            shifts.push(shift)?;
        }
    }
    shifts.sort_unstable_by_key(|shift| (shift.worker, shift.start));
    Ok(shifts)
}

/// Whether one shift has ended when the next begins, where both are of one worker.
fn follows(plan: &Plan, one: Shift, next: Shift) -> bool
    requires number { IsNumber (work_in plan.now) one.number }
    ensures { IsTrue result
        ↔ Follows (work_in plan.now) (starts_in plan.now) one next }
{
    one.worker != next.worker || plan.finish(one.number) <= next.start
}

/// Whether each shift follows the one before it.
fn are_apart(plan: &Plan, shifts: &[Shift]) -> bool
    requires { All (λ shift. IsNumber (work_in plan.now) shift.number) shifts.now }
    ensures { IsTrue result
        ↔ AreApart (work_in plan.now) (starts_in plan.now) shifts.now }
{
    for index in 1..shifts.len() {
        if !follows(plan, shifts[index - 1], shifts[index]) {
            return false;
        }
    }
    true
}

/// Whether the row of each of the first messages tells a right one of `k` workers. The shifts are
/// sorted, and only neighbours are looked at.
pub(crate) fn are_right(
    alloc: Global,
    claim: &Claim<'_>,
    k: u32,
    many: u32,
) -> Result<bool, AllocError>
    requires many { many ≤ (planned_work claim.now.planned).count }
    ensures { IfOk result (λ right. IsTrue right
        ↔ NoneOf (HasWrongWorker (first_of (planned_work claim.now.planned) many)
        (planned_starts claim.now.planned) (worker_in claim.now.given.now) (Some k))) }
{
    if !are_seated(claim, k, many) {
        return Ok(false);
    }
    let shifts = shifts(alloc, claim, many)?;
    Ok(are_apart(claim.planned.plan, shifts.as_slice()))
}
