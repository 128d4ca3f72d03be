//! Plans.

ghost use Rattle.std.specs.Prelude.{◌≡◌, ◌+◌, ◌^◌, ◌<◌, ◌≤◌, length, replicate, All, IfOk};
ghost use Rattle.waff_plan.specs.Work.{IsAmongFirst, finish_of, issue_of, length_of, total_of};
ghost use Rattle.waff_model.specs.declared.limits.TheConstants.{MAX_COST, MAX_THINK};
ghost use Rattle.waff_plan.specs.Timing.{timing_of};
ghost use Rattle.waff_plan.specs.Timetable.{with_start, with_turn, work_in, starts_in};

use crate::Timing;
use crate::timing::{issue, timings};
use std::alloc::{AllocError, Global};
use std::marker::Model;
use waff_model::limits::MAX_TICK;
use waff_model::{Await, Trace, Version};

/// A plan: the start of each message of a trace. Messages are numbered from 1; all times are ticks.
pub struct Plan {
    version: Version,
    timings: Vec<Timing>,
    starts: Vec<u64>,
}

impl Model for Plan {
    ghost use Rattle.waff_plan.specs.Timetable.{Timetable, IsTimetable};

    ghost Value = { Timetable };

    ghost view = { λ p. record {
      version = p.version;
      timings = p.timings.items;
      starts = p.starts.items;
    } };

    ghost invariant = { λ p. IsTimetable (record {
      version = p.version;
      timings = p.timings.items;
      starts = p.starts.items;
    }) };
}

// Written out: a derived drop is proved again in each crate that lets go of the value.
impl Drop for Plan {
    fn drop(self) {
        let Plan {
            version: _,
            timings,
            starts,
        } = self;
        drop(timings);
        drop(starts);
    }
}

impl Plan {
    ghost use Rattle.waff_plan.specs.Timetable.{IsTimetable, timings_of};

    /// The plan of a trace of this version, with these timings and starts.
    pub fn new(version: Version, timings: Vec<Timing>, starts: Vec<u64>) -> Plan
        requires { IsTimetable (record {
          version = version;
          timings = timings.items;
          starts = starts.items;
        }) }
        ensures version { result.version ≡ version }
        ensures timings { result.timings ≡ timings.items }
        ensures starts { result.starts ≡ starts.items }
    {
        Plan {
            version,
            timings,
            starts,
        }
    }

    /// The plan of the trace in which the messages start at these ticks.
    pub fn of_starts(alloc: Global, trace: &Trace, starts: &[u64]) -> Result<Plan, AllocError>
        requires lengths { length starts.now ≡ length trace.now.messages }
        requires printable { All (λ start. start ≤ MAX_TICK) starts.now }
        ensures version { IfOk result (λ plan. plan.version ≡ trace.now.version) }
        ensures timings { IfOk result (λ plan. plan.timings ≡ timings_of trace.now.messages) }
        ensures starts { IfOk result (λ plan. plan.starts ≡ starts.now) }
    {
        let timings = timings(alloc, trace)?;
        let starts = Vec::from_slice(alloc, starts)?;
        Ok(Plan::new(trace.version(), timings, starts))
    }

    /// The plan of the trace in which each message starts at tick 0.
    pub fn unstarted(alloc: Global, trace: &Trace) -> Result<Plan, AllocError>
        ensures version { IfOk result (λ plan. plan.version ≡ trace.now.version) }
        ensures timings { IfOk result (λ plan. plan.timings ≡ timings_of trace.now.messages) }
    {
        let timings = timings(alloc, trace)?;
        let starts = no_starts(alloc, timings.len())?;
        Ok(Plan::new(trace.version(), timings, starts))
    }

    /// Message `n` starts at this tick.
    pub(crate) fn set_start(&mut self, n: u32, start: u64)
        requires number { IsAmongFirst (length self.old.timings) n }
        requires printable { start ≤ MAX_TICK }
        ensures { self.new ≡ with_start self.old n start }
    {
        self.starts[n as usize - 1] = start;
    }

    /// Message `n` starts at this tick and runs for this long.
    pub fn set_turn(&mut self, n: u32, start: u64, cost: u32)
        requires number { IsAmongFirst (length self.old.timings) n }
        requires printable { start ≤ MAX_TICK }
        requires some_cost { 1 ≤ cost }
        requires cost { cost ≤ MAX_COST }
        ensures { self.new ≡ with_turn self.old n start cost }
    {
        self.starts[n as usize - 1] = start;
        self.timings[n as usize - 1].cost = cost;
    }

    /// The timings of its messages.
    pub(crate) fn timings(&self) -> &[Timing]
        ensures { result.now ≡ self.now.timings }
    {
        self.timings.as_slice()
    }

    /// The starts of its messages.
    pub(crate) fn starts(&self) -> &[u64]
        ensures { result.now ≡ self.now.starts }
    {
        self.starts.as_slice()
    }

    /// The version of its trace.
    pub fn version(&self) -> Version
        ensures { result ≡ self.now.version }
    {
        self.version
    }

    /// How many messages there are.
    pub fn len(&self) -> u32
        ensures count { result ≡ length self.now.timings }
        ensures table { IsTimetable self.now }
    {
        self.timings.len() as u32
    }

    /// The tick at which message `n` starts.
    pub fn start(&self, n: u32) -> u64
        requires number { IsAmongFirst (length self.now.timings) n }
        ensures start { result ≡ starts_in self.now n }
        ensures printable { result ≤ MAX_TICK }
    {
        self.starts[n as usize - 1]
    }

    /// The tick at which message `n` has finished.
    pub fn finish(&self, n: u32) -> u64
        requires number { IsAmongFirst (length self.now.timings) n }
        ensures finish { result
            ≡ finish_of (work_in self.now) (starts_in self.now) n }
        ensures small { result < MAX_TICK + 2 ^ 32 }
    {
        self.start(n) + self.cost(n)
    }

    /// The floor of message `n`: the tick before which it may not start, whatever the others do. It is its
    /// release, or where it is the first of its client its think time, if that is later.
    pub fn release(&self, n: u32) -> u64
        requires number { IsAmongFirst (length self.now.timings) n }
        ensures release { result ≡ (timing_of self.now.timings n).floor }
        ensures small { result < 2 ^ 32 }
    {
        u64::from(self.timings[n as usize - 1].floor)
    }

    /// The number of the message that message `n` follows: the one before it of its client, 0 where
    /// there is none.
    pub fn follows(&self, n: u32) -> u32
        requires number { IsAmongFirst (length self.now.timings) n }
        ensures follows { result ≡ (timing_of self.now.timings n).follows }
        ensures earlier { result < n }
    {
        self.timings[n as usize - 1].follows
    }

    /// How many ticks after the finish of the one that it follows message `n` is issued.
    pub fn think(&self, n: u32) -> u64
        requires number { IsAmongFirst (length self.now.timings) n }
        ensures think { result ≡ (timing_of self.now.timings n).think }
        ensures small { result ≤ MAX_THINK }
    {
        u64::from(self.timings[n as usize - 1].think)
    }

    /// The earlier messages that message `n` awaits besides.
    pub fn after(&self, n: u32) -> &[Await]
        requires number { IsAmongFirst (length self.now.timings) n }
        ensures after { result.now ≡ (timing_of self.now.timings n).after }
        ensures small { All (λ a. a.gap ≤ MAX_THINK) result.now }
        ensures earlier { All (λ a. (1 ≤ a.message) × (a.message < n)) result.now }
    {
        self.timings[n as usize - 1].after.as_slice()
    }

    /// The tick at which message `n` is issued under the plan itself.
    pub fn issue(&self, n: u32) -> u64
        requires number { IsAmongFirst (length self.now.timings) n }
        ensures issue { result ≡ issue_of (work_in self.now) (starts_in self.now) n }
        ensures small { result < MAX_TICK + 2 ^ 33 }
    {
        issue(&self.timings, &self.starts, n)
    }

    /// The running time of message `n`.
    pub fn cost(&self, n: u32) -> u64
        requires number { IsAmongFirst (length self.now.timings) n }
        ensures cost { result ≡ (timing_of self.now.timings n).cost }
        ensures small { result < 2 ^ 32 }
    {
        u64::from(self.timings[n as usize - 1].cost)
    }

    /// The tick at which every message has finished, 0 for no message.
    pub fn length(&self) -> u64
        ensures length { result ≡ length_of (work_in self.now) (starts_in self.now) }
        ensures small { result < MAX_TICK + 2 ^ 32 }
    {
        let mut length = 0;
        for n in 1..self.len() + 1 {
            length = self.finish(n).max(length);
        }
        length
    }

    /// The sum of all running times.
    pub fn total(&self) -> u64
        ensures total { result ≡ total_of (work_in self.now) }
        ensures small { result ≤ 2 ^ 52 }
    {
        let mut total = 0;
        for n in 1..self.len() + 1 {
            let cost = self.cost(n);
            total += cost;
        }
        total
    }
}

/// The tick 0 this many times.
fn no_starts(alloc: Global, count: usize) -> Result<Vec<u64>, AllocError>
    ensures none { IfOk result (λ starts. starts.items ≡ replicate count 0) }
{
    vec![in alloc; 0; count]
}
