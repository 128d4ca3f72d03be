//! The messages that have not started: who waits for whom, and which are ready.

ghost use Rattle.std.specs.Prelude.{◌≡◌, ℕ, ◌+◌, ◌-◌, ◌^◌, ◌<◌, ◌≤◌, List, [], ◌∷◌, ◌++◌};
ghost use Rattle.std.specs.Prelude.{length, true, All, Contains, IfOk, OnOk, slice_set};
ghost use Rattle.std.specs.List.Sorted.{IsPermutation};
ghost use Rattle.waff_plan.specs.Due.{IsDueFirst};
ghost use Rattle.waff_plan.specs.Timing.{HasIssue, start_of, work_of};
ghost use Rattle.waff_plan.specs.Work.{IsNumber, issue_of};
ghost use Rattle.waff_plan.specs.declared.due.TheConstants.{NEVER};
ghost use Rattle.waff_waits.specs.Ready.{AreRanked, ranked_in};
ghost use Rattle.waff_waits.specs.Times.{AreEach};
ghost use Rattle.waff_waits.specs.Waits.{IsFree, waiting_for};
ghost use Rattle.waff_list.specs.Planning.{AreIssuing, Fits, IsFresh, IsNoneIssued, IsPlanned};
ghost use Rattle.waff_list.specs.Telling.{basis_of, key_in, priority_in};

use crate::progress::Progress;
use crate::service::Service;
use crate::task::Task;
use std::alloc::{AllocError, Global};
use waff_waits::{Ready, Waits};

/// What is kept of the messages that have not started.
#[derive(Drop)]
pub(crate) struct Waiting<'a> {
    pub service: Service<'a>,
    /// Who waits for whom, of the messages that have been issued.
    pub waits: Waits,
    /// Those that wait for nothing.
    pub ready: Ready,
}

impl<'a> Waiting<'a> {
    /// No message has been issued yet.
    pub fn new(alloc: Global, service: Service<'a>, task: &Task) -> Result<Self, AllocError>
        requires fits { Fits service (work_of task.now.timings.items) }
        requires fresh { IsFresh service }
        ensures service { IfOk result (λ waiting. waiting.service ≡ service.entry) }
        ensures waits { IfOk result (λ waiting.
            IsNoneIssued waiting (work_of task.now.timings.items)) }
    {
        Ok(Waiting {
            service,
            waits: Waits::none(alloc, task.len() as usize)?,
            ready: Ready::none(alloc),
        })
    }

    /// Message `m`, the next of those that are issued, is issued at this tick or before it.
    pub fn issue(
        &mut self,
        task: &Task,
        progress: &Progress,
        now: u64,
        m: u32,
    ) -> Result<(), AllocError>
        requires tick { now + 2 ^ 33 < NEVER }
        requires begun { IsPlanned task.now (basis_of self.old.service) progress.now now 1 now }
        requires due { issue_of (work_of task.now.timings.items)
            (start_of progress.now.starts.items) m ≤ now }
        requires kept { AreIssuing task.now progress.now self.old ((
          issue_of
              (work_of task.now.timings.items) (start_of progress.now.starts.items) m,
          m,
        )
            ∷ progress.now.issues) now }
        requires first { All (λ s. IsDueFirst (
          issue_of (work_of task.now.timings.items)
              (start_of progress.now.starts.items) m,
          m,
        ) s) progress.now.issues }
        ensures kept { OnOk result
            (AreIssuing task.now progress.now self.new progress.now.issues now) }
        ensures basis { OnOk result (basis_of self.new.service ≡ basis_of self.old.service) }
    {
        let is_free = self.service.issue(task, m, &mut self.waits)?;
        if !is_free {
            return Ok(());
        }
        self.push(task, progress.starts.as_slice(), m)?;
        Ok(())
    }

    /// Message `m` has finished: those that wait for it are let go.
    pub fn finish(&mut self, task: &Task, starts: &[u64], m: u32) -> Result<(), AllocError>
        requires number { IsNumber (work_of task.now.timings.items) m }
        requires many { length self.old.waits.awaited ≡ length task.now.timings.items }
        requires issued { All (HasIssue task.now.timings.items starts.now)
            (waiting_for self.old.waits m) }
        ensures waits { OnOk result (self.new.waits ≡ record {
          awaited = slice_set self.old.waits.awaited (m - 1) [];
          finished = slice_set self.old.waits.finished (m - 1) true;
        }) }
        ensures ready { OnOk result ((issued order : List ℕ)
            → ((d : ℕ) → Contains (waiting_for self.old.waits m) d → Contains issued d)
            → AreEach (IsFree issued self.old.waits) (order ++ ranked_in self.old.ready)
            → AreEach (IsFree issued self.new.waits) (order ++ ranked_in self.new.ready)) }
        ensures ranked { OnOk result (AreRanked (priority_in task.now)
            (key_in self.old.service (work_of task.now.timings.items) (start_of starts.now))
            self.old.ready → AreRanked (priority_in task.now)
            (key_in self.old.service (work_of task.now.timings.items) (start_of starts.now))
            self.new.ready) }
        ensures service { OnOk result (self.new.service ≡ self.old.service) }
    {
        while let Some((waiter, is_free)) = self.waits.let_go(m) {
            if is_free {
                self.push(task, starts, waiter)?;
            }
        }
        self.waits.finish(m);
        Ok(())
    }

    /// Message `m` is ready.
    fn push(&mut self, task: &Task, starts: &[u64], m: u32) -> Result<(), AllocError>
        requires issued { HasIssue task.now.timings.items starts.now m }
        ensures ready { OnOk result (IsPermutation ((
          priority_in task.now m,
          (
            key_in self.old.service (work_of task.now.timings.items) (start_of starts.now) m,
            m,
          ),
        ) ∷ self.old.ready) self.new.ready) }
        ensures waits { OnOk result (self.new.waits ≡ self.old.waits) }
        ensures service { OnOk result (self.new.service ≡ self.old.service) }
    {
        let key = self.service.key(task, starts, m);
        self.ready.push(task.priority(m), key, m)
    }
}
