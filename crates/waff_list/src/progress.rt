//! A plan while it is made, tick after tick.

ghost use Rattle.std.specs.Prelude.{◌≡◌, ◌⊎◌, ℕ, ◌+◌, ◌-◌, ◌^◌, ◌<◌, ◌≤◌, List, [], ◌++◌, length};
ghost use Rattle.std.specs.Prelude.{replicate, slice_set, All, Contains, IfOk, IsPermutation, OnOk};
ghost use Rattle.waff_model.specs.Numbers.{IsAmongFirst};
ghost use Rattle.waff_plan.specs.Awaiting.{AreAwaiting};
ghost use Rattle.waff_plan.specs.Pending.{AreFirst};
ghost use Rattle.waff_plan.specs.Timing.{HasIssue, start_of, work_of};
ghost use Rattle.waff_plan.specs.Work.{issue_of};
ghost use Rattle.waff_waits.specs.Times.{AreEach};
ghost use Rattle.waff_list.specs.Issuing.{AreOpened, IsOpened, after_start};
ghost use Rattle.waff_list.specs.Planning.{IsStarted};

use crate::idle::Idle;
use crate::task::Task;
use std::alloc::{AllocError, Global};
use waff_plan::awaiting::{awaiting, first_issues};
use waff_plan::{Due, NEVER, issue};
use waff_waits::Waits;

/// The messages that are placed so far, and what is due.
#[derive(Drop)]
pub(crate) struct Progress {
    /// The start of each message.
    pub starts: Vec<u64>,
    /// The worker of each message, 0 where it is not placed yet.
    pub seats: Vec<u32>,
    /// The messages that are placed, in the order of their starts.
    pub order: Vec<u32>,
    /// The workers that are free, the least first.
    pub idle: Idle,
    /// The messages that run, the first to finish first.
    pub finishes: Due,
    /// The messages that are still to be issued, as far as what they await is placed.
    pub issues: Due,
    /// Who awaits whom, of the messages that are not placed yet.
    pub awaits: Waits,
}

impl Progress {
    /// Nothing is placed yet. The messages that await none are issued at their releases.
    pub fn new(alloc: Global, task: &Task) -> Result<Self, AllocError>
        ensures starts { IfOk result (λ progress.
            progress.starts.items ≡ replicate (length task.now.timings.items) NEVER) }
        ensures seats { IfOk result (λ progress.
            progress.seats.items ≡ replicate (length task.now.timings.items) 0) }
        ensures order { IfOk result (λ progress. progress.order.items ≡ []) }
        ensures idle { IfOk result (λ progress.
            AreEach (IsAmongFirst task.now.workers) progress.idle) }
        ensures finishes { IfOk result (λ progress. progress.finishes ≡ []) }
        ensures issues { IfOk result (λ progress.
            AreFirst (work_of task.now.timings.items)
            (issue_of (work_of task.now.timings.items)) progress.issues) }
        ensures awaits { IfOk result (λ progress.
            AreAwaiting (work_of task.now.timings.items) [] progress.awaits) }
    {
        let count = task.len() as usize;
        Ok(Progress {
            starts: vec![in alloc; NEVER; count]?,
            seats: vec![in alloc; 0; count]?,
            order: Vec::with_capacity(alloc, count)?,
            idle: Idle::all(alloc, task.workers)?,
            finishes: Due::of(alloc, Vec::new(alloc)),
            issues: first_issues(alloc, task.timings.as_slice())?,
            awaits: awaiting(alloc, task.timings.as_slice())?,
        })
    }

    /// Starts message `m` on the least worker that is free. Those that await nothing more have their
    /// issues.
    pub fn start(&mut self, task: &Task, m: u32, now: u64) -> Result<(), AllocError>
        requires tick { now + 2 ^ 33 < 2 ^ 64 }
        requires number { IsAmongFirst (length task.now.timings.items) m }
        requires starts { length self.old.starts.items ≡ length task.now.timings.items }
        requires seats { length self.old.seats.items ≡ length task.now.timings.items }
        requires free { 0 < length self.old.idle }
        requires many { length self.old.awaits.awaited ≡ length task.now.timings.items }
        requires issued { (d : ℕ) → IsOpened self.old.awaits m d → HasIssue
            task.now.timings.items (slice_set self.old.starts.items (m - 1) now) d }
        ensures { OnOk result (IsStarted (work_of task.now.timings.items) m now self.old self.new) }
    {
        let Some(worker) = self.idle.pop() else {
            unreachable!()
        };
        self.order.push(m)?;
        self.finishes.push(now + task.cost(m), m)?;
        self.starts[m as usize - 1] = now;
        self.seats[m as usize - 1] = worker;
        admit(
            task,
            m,
            self.starts.as_slice(),
            &mut self.awaits,
            &mut self.issues,
        )?;
        Ok(())
    }

    /// The tick at which the next message finishes or is issued, or `NEVER`.
    pub fn next(&self) -> u64
        ensures finishes { All (λ r. result ≤ r.0) self.now.finishes }
        ensures issues { All (λ r. result ≤ r.0) self.now.issues }
        ensures one { (result ≡ NEVER) ⊎ ((m : ℕ) × (Contains self.now.finishes (result, m)
            ⊎ Contains self.now.issues (result, m))) }
    {
        self.finishes.next().min(self.issues.next())
    }
}

/// Message `m` has its start: those that await nothing more have their issues, by these starts.
fn admit(
    task: &Task,
    m: u32,
    starts: &[u64],
    awaits: &mut Waits,
    issues: &mut Due,
) -> Result<(), AllocError>
    requires number { IsAmongFirst (length task.now.timings.items) m }
    requires many { length awaits.old.awaited ≡ length task.now.timings.items }
    requires issued { (d : ℕ) → IsOpened awaits.old m d
        → HasIssue task.now.timings.items starts.now d }
    ensures awaits { OnOk result (awaits.new ≡ after_start awaits.old m) }
    ensures issues { OnOk result ((opened : List (ℕ × ℕ))
        × AreOpened (work_of task.now.timings.items) (start_of starts.now) awaits.old m opened
        × IsPermutation (opened ++ issues.old) issues.new) }
{
    while let Some((next, is_open)) = awaits.let_go(m) {
        if is_open {
            issues.push(issue(task.timings.as_slice(), starts, next), next)?;
        }
    }
    awaits.finish(m);
    Ok(())
}
