//! The ticks at which messages start and finish.

ghost use Rattle.std.specs.Prelude.{◌≡◌, ◌≤◌, ℕ, IfOk, count_by, length, nat_le, nat_lt};
ghost use Rattle.std.specs.List.Sorted.{IsNonDecreasing};
ghost use Rattle.waff_plan.specs.Timetable.{starts_in, work_in};
ghost use Rattle.waff_plan.specs.Work.{Work};
ghost use Rattle.waff_plan.specs.Workers as workers;
ghost use Rattle.waff_check.specs.Crowds.{AreTicks};

use std::alloc::{AllocError, Global};
use waff_plan::Plan;

/// The starts of all messages of a plan, and their finishes, each in order.
#[derive(Drop)]
pub(crate) struct Ticks {
    starts: Vec<u64>,
    finishes: Vec<u64>,
    ghost starts_rise: { IsNonDecreasing starts.items },
    ghost finishes_rise: { IsNonDecreasing finishes.items },
}

impl Ticks {
    /// The ticks of a plan.
    pub fn new(alloc: Global, plan: &Plan) -> Result<Self, AllocError>
        ensures { IfOk result (λ ticks. AreTicks (work_in plan.now)
            (starts_in plan.now) ticks.starts.items ticks.finishes.items) }
    {
        let mut starts = Vec::with_capacity(alloc, plan.len() as usize)?;
        let mut finishes = Vec::with_capacity(alloc, plan.len() as usize)?;
        for n in 1..plan.len() + 1 {
            starts.push(plan.start(n))?;
            finishes.push(plan.finish(n))?;
        }
        starts.sort_unstable();
        finishes.sort_unstable();
        Ok(Ticks { starts, finishes })
    }

    /// Whether more than `k` messages run at a tick: more than `k` of those that have started by
    /// then have not finished.
    pub fn is_crowded(&self, k: u32, tick: u64) -> bool
        ensures { (work : Work) (start : ℕ → ℕ)
            → AreTicks work start self.now.starts.items self.now.finishes.items
            → result ≡ nat_lt k (workers.running work start tick) }
    {
        let finished = passed_by(self.finishes.as_slice(), tick);
        finished + (k as usize) < passed_by(self.starts.as_slice(), tick)
    }
}

/// How many of these ticks, which are in order, are no later than this one.
fn passed_by(ticks: &[u64], tick: u64) -> usize
    requires { IsNonDecreasing ticks.now }
    ensures count { result ≡ count_by (λ other. nat_le other tick) ticks.now }
    ensures within { result ≤ length ticks.now }
{
    ticks.partition_point(|other| *other <= tick)
}
