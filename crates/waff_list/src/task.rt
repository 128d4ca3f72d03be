//! What is planned: the messages of a trace, and when each may start whatever its needs are.

ghost use Rattle.std.specs.Prelude.{◌≡◌, ◌+◌, ◌^◌, ◌<◌, ◌≤◌, length, All, IfOk};
ghost use Rattle.std.specs.Option.{ForSome};
ghost use Rattle.waff_model.specs.Numbers.{IsAmongFirst};
ghost use Rattle.waff_model.specs.declared.limits.TheConstants.{MAX_MESSAGES};
ghost use Rattle.waff_plan.specs.Bound.{IsWorkers};
ghost use Rattle.waff_plan.specs.Obeys.{AwaitsEarlier};
ghost use Rattle.waff_plan.specs.Timing.{IsTiming, timing_of, work_of};
ghost use Rattle.waff_plan.specs.Timetable.{AreTimings, timings_of, work_of_messages};
ghost use Rattle.waff_list.specs.Tasks.{tail_in};

use crate::rule::Rule;
use crate::service::Service;
use crate::tails::tails;
use std::alloc::{AllocError, Global};
use waff_model::Trace;
use waff_plan::{Timing, timings};

/// The messages of a trace, their tails where the rule asks for them, and the number of workers.
#[derive(Drop)]
pub(crate) struct Task {
    pub timings: Vec<Timing>,
    pub tails: Option<Vec<u64>>,
    pub workers: u32,
    ghost few: { length timings.items ≤ MAX_MESSAGES },
    ghost small: { All IsTiming timings.items },
    ghost earlier: { AwaitsEarlier (work_of timings.items) },
    ghost tails_count: { ForSome tails (λ tails. length tails.items ≡ length timings.items) },
    ghost some: { IsWorkers workers },
}

impl Task {
    ghost use Rattle.waff_list.specs.Services.{ArePriorities, IsServiceFor};
    ghost use Rattle.waff_list.specs.Telling.{basis_of, priority_in};

    /// The messages of this trace, to be planned by this rule for `k` workers.
    pub fn new(
        alloc: Global,
        trace: &Trace,
        service: &Service,
        rule: Rule,
        k: u32,
    ) -> Result<Self, AllocError>
        requires workers { IsWorkers k }
        requires serves { IsServiceFor
            service.now trace.now.version (length trace.now.messages) }
        ensures are { AreTimings trace.now.version (timings_of trace.now.messages) }
        ensures timings { IfOk result (λ task.
            task.timings.items ≡ timings_of trace.now.messages) }
        ensures workers { IfOk result (λ task. task.workers ≡ k) }
        ensures priorities { IfOk result (λ task. ArePriorities rule (basis_of service.now)
            (work_of_messages trace.now.messages) (priority_in task)) }
    {
        let timings = timings(alloc, trace)?;
        let tails = match rule {
            Rule::Arrival => None,
            Rule::Longest => Some(tails(alloc, service, timings.as_slice())?),
        };
        Ok(Task {
            timings,
            tails,
            workers: k,
        })
    }

    /// How many messages there are.
    pub fn len(&self) -> u32
        ensures { result ≡ length self.now.timings.items }
    {
        self.timings.len() as u32
    }

    /// The priority of message `m`: its tail, or by arrival 0.
    pub fn priority(&self, m: u32) -> u64
        requires number { IsAmongFirst (length self.now.timings.items) m }
        ensures { result ≡ tail_in self.now.tails m }
    {
        match &self.tails {
            Some(tails) => tails[m as usize - 1],
            None => 0,
        }
    }

    /// How many ticks message `m` runs.
    pub fn cost(&self, m: u32) -> u64
        requires number { IsAmongFirst (length self.now.timings.items) m }
        ensures cost { result ≡ (timing_of self.now.timings.items m).cost }
        ensures small { result < 2 ^ 32 }
    {
        u64::from(self.timings[m as usize - 1].cost)
    }

    /// The timings of the messages.
    pub fn timings(self) -> Vec<Timing>
        ensures { result ≡ self.timings }
    {
        let Task {
            timings,
            tails,
            workers: _,
        } = self;
        drop(tails);
        timings
    }
}
