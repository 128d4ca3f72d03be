//! The messages that are to be served, and which is the next.

ghost use Rattle.std.specs.Prelude.{◌≡◌, ℕ, ◌-◌, ◌⊎◌, ◌++◌, true, List, [], length, map, Contains};
ghost use Rattle.std.specs.Prelude.{IfOk, OnOk, MatchOption, slice_set};
ghost use Rattle.waff_model.specs.Versions.{has_clients};
ghost use Rattle.waff_plan.specs.Awaiting.{AreAwaiting};
ghost use Rattle.waff_plan.specs.Due.{LeavesDue};
ghost use Rattle.waff_plan.specs.Order.{key_of};
ghost use Rattle.waff_plan.specs.Pending.{AreFirst, Issue};
ghost use Rattle.waff_plan.specs.Timetable.{starts_in, work_in};
ghost use Rattle.waff_plan.specs.Turns.{HoldsWaits, is_by_issue, turns_in};
ghost use Rattle.waff_plan.specs.Work.{IsNumber, issue_of};
ghost use Rattle.waff_waits.specs.Times.{AreEach};
ghost use Rattle.waff_waits.specs.Waits.{IsFree, WhoWaits, waiting_for};

use crate::Plan;
use crate::awaiting::{awaiting, first_issues};
use crate::due::Due;
use std::alloc::{AllocError, Global};
use waff_waits::Waits;

/// The messages that may have their turn.
#[derive(Drop)]
pub(crate) enum Turns {
    /// By number: all from the next one up to the end.
    Numbers { next: u32, end: u32 },
    /// By issue, and of equal issues by number: those that are issued, and who waits for whom.
    Issues(Due, Waits),
}

impl Turns {
    /// Message `m` has had its turn: those that await nothing more have theirs when they are issued.
    pub fn admit(&mut self, plan: &Plan, m: u32) -> Result<(), AllocError>
        requires number { IsNumber (work_in plan.now) m }
        requires many { is_by_issue self.old ≡ true → (w : WhoWaits) → HoldsWaits self.old w
            → length w.awaited ≡ length plan.now.timings }
        requires numbers { is_by_issue self.old ≡ true → (w : WhoWaits) → HoldsWaits self.old w
            → (d : ℕ) → Contains (waiting_for w m) d → IsNumber (work_in plan.now) d }
        ensures waits { OnOk result ((w : WhoWaits) → HoldsWaits self.old w
            → HoldsWaits self.new (record {
              awaited = slice_set w.awaited (m - 1) [];
              finished = slice_set w.finished (m - 1) true;
            })) }
        ensures free { OnOk result ((w new : WhoWaits) → HoldsWaits self.old w
            → HoldsWaits self.new new → (entered taken : List ℕ)
            → ((d : ℕ) → Contains (waiting_for w m) d → Contains entered d)
            → AreEach (IsFree entered w) (taken ++ map (λ x. x.1) (turns_in self.old))
            → AreEach (IsFree entered new) (taken ++ map (λ x. x.1) (turns_in self.new))) }
        ensures issued { OnOk result ((w : WhoWaits) → HoldsWaits self.old w → (x : Issue)
            → Contains (turns_in self.new) x
            → Contains (turns_in self.old) x ⊎ (Contains (waiting_for w m) x.1
            × (x.0 ≡ issue_of (work_in plan.now) (starts_in plan.now) x.1))) }
        ensures kept { OnOk result (is_by_issue self.new ≡ is_by_issue self.old) }
    {
        match self {
            Turns::Numbers { .. } => Ok(()),
            Turns::Issues(due, waits) => admit(due, waits, plan, m),
        }
    }

    /// The next message, with its key.
    pub fn take(&mut self) -> Option<(u64, u32)>
        ensures taken { MatchOption result (turns_in self.old ≡ [])
            (λ x. LeavesDue (turns_in self.old) x (turns_in self.new)) }
        ensures kept { is_by_issue self.new ≡ is_by_issue self.old }
        ensures waits { (w : WhoWaits) → HoldsWaits self.old w → HoldsWaits self.new w }
    {
        match self {
            Turns::Numbers { next, end } => {
                let number = *next;
                if number < *end {
                    *next = number + 1;
                    Some((0, number))
                } else {
                    None
                }
            }
            Turns::Issues(due, _) => due.pop(),
        }
    }
}

// Message `m` has had its turn: those that await nothing more are due when they are issued.
fn admit(due: &mut Due, waits: &mut Waits, plan: &Plan, m: u32) -> Result<(), AllocError>
    requires number { IsNumber (work_in plan.now) m }
    requires many { length waits.old.awaited ≡ length plan.now.timings }
    requires numbers { (d : ℕ) → Contains (waiting_for waits.old m) d → IsNumber (work_in plan.now) d }
    ensures waits { OnOk result (waits.new ≡ record {
      awaited = slice_set waits.old.awaited (m - 1) [];
      finished = slice_set waits.old.finished (m - 1) true;
    }) }
    ensures free { OnOk result ((entered taken : List ℕ)
        → ((d : ℕ) → Contains (waiting_for waits.old m) d → Contains entered d)
        → AreEach (IsFree entered waits.old) (taken ++ map (λ x. x.1) due.old)
        → AreEach (IsFree entered waits.new) (taken ++ map (λ x. x.1) due.new)) }
    ensures issued { OnOk result ((x : Issue) → Contains due.new x
        → Contains due.old x ⊎ (Contains (waiting_for waits.old m) x.1
        × (x.0 ≡ issue_of (work_in plan.now) (starts_in plan.now) x.1))) }
{
    while let Some((next, is_open)) = waits.let_go(m) {
        if is_open {
            due.push(plan.issue(next), next)?;
        }
    }
    waits.finish(m);
    Ok(())
}

/// The first turns of a plan's messages: by number all, by issue those that await none.
pub(crate) fn first_turns(alloc: Global, plan: &Plan) -> Result<Turns, AllocError>
    ensures by { IfOk result (λ turns. is_by_issue turns ≡ has_clients plan.now.version) }
    ensures first { IfOk result (λ turns. AreFirst (work_in plan.now)
        (key_of plan.now.version (work_in plan.now)) (turns_in turns)) }
    ensures waits { IfOk result (λ turns.
        (w : WhoWaits) × AreAwaiting (work_in plan.now) [] w × HoldsWaits turns w) }
{
    let end = plan.len() + 1;
    if plan.version().has_clients() {
        let waits = awaiting(alloc, plan.timings())?;
        Ok(Turns::Issues(first_issues(alloc, plan.timings())?, waits))
    } else {
        Ok(Turns::Numbers { next: 1, end })
    }
}
