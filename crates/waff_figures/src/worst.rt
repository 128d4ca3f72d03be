//! The messages that take longest in a plan.

ghost use Rattle.std.specs.Prelude.{◌≡◌, ℕ, IfOk, length, map};
ghost use Rattle.std.specs.List.{range_with_len};
ghost use Rattle.waff_plan.specs.Timetable.{starts_in, work_in};
ghost use Rattle.waff_plan.specs.Work.{Work, numbers};
ghost use Rattle.waff_figures.specs.Figures.{latency_of};
ghost use Rattle.waff_figures.specs.Worst.{AreWorst, FirstIsGreatest, WorstIsOne};

use crate::figures::latency;
use std::alloc::{AllocError, Global};
use std::cmp::Reverse;
use waff_plan::Plan;

/// A message with its latency.
#[derive(Clone, Copy)]
pub(crate) struct Timed {
    pub message: u32,
    /// The time from its issue to its finish, in ticks.
    pub latency: u64,
}

/// The messages of greatest latency, at most so many: the greatest first, of equal ones the lowest
/// number first.
pub(crate) fn worst(alloc: Global, plan: &Plan, most: u32) -> Result<Vec<Timed>, AllocError>
    ensures { IfOk result (λ worst. AreWorst most (work_in plan.now).count
        (latency_of (work_in plan.now) (starts_in plan.now))
        (map (λ timed. timed.message) worst.items)) }
{
    let mut worst = all_timed(alloc, plan)?;
    worst.sort_by_key(|timed| Reverse(timed.latency))?;
    worst.truncate(most as usize);
    Ok(worst)
}

/// All messages with their latencies, in the order of arrival.
fn all_timed(alloc: Global, plan: &Plan) -> Result<Vec<Timed>, AllocError>
    ensures { IfOk result (λ timed. timed.items
        ≡ map (λ m. record {
          message = m;
          latency = latency_of (work_in plan.now) (starts_in plan.now) m;
        }) (numbers (work_in plan.now))) }
{
    let mut timed = Vec::with_capacity(alloc, plan.len() as usize)?;
    for message in 1..plan.len() + 1 {
        let latency = latency(plan, message);
        timed.push_reserved(Timed { message, latency });
    }
    Ok(timed)
}

/// The worst of so many messages are one list: a function that does nothing and whose contract is the
/// law.
pub fn worst_is_one()
    ensures equal { WorstIsOne }
{}

/// The first of them takes as long as the one that takes longest.
pub fn first_is_greatest()
    ensures greatest { (work : Work) (start : ℕ → ℕ) → FirstIsGreatest work start }
{}
