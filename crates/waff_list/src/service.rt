//! The order in which messages that exclude each other are served: that of the trace, or that in
//! which they are issued.

ghost use Rattle.std.specs.Prelude.{◌≡◌, ◌↔◌, ℕ, List, length, IfOk, IsTrue, OnOk};
ghost use Rattle.waff_plan.specs.Timing.{HasIssue, start_of, work_of};
ghost use Rattle.waff_waits.specs.Waits.{WaitsForNone};
ghost use Rattle.waff_list.specs.Planning.{AreJoined, AreKnown, Fits, IsLearnt, IsNew};
ghost use Rattle.waff_list.specs.Telling.{basis_of, key_in};
ghost use Rattle.waff_list.specs.declared.service.Service.TheVariants.{ByIssue};

use crate::issued::Issued;
use crate::task::Task;
use std::alloc::AllocError;
use waff_order::Needs;
use waff_plan::issue;
use waff_waits::Waits;

/// The order of service, with the needs of messages.
#[derive(Drop)]
pub(crate) enum Service<'a> {
    /// By number: the needs of all messages are known.
    ByNumber(&'a Needs),
    /// By issue: the needs of those that are issued are known.
    ByIssue(Issued<'a>),
}

impl<'a> Service<'a> {
    /// Message `m`, the next one, is issued: it waits for those of its needs that have not finished,
    /// which by issue are known from now on. Whether it waits for nothing.
    pub fn issue(&mut self, task: &Task, m: u32, waits: &mut Waits) -> Result<bool, AllocError>
        requires fits { Fits self.old (work_of task.now.timings.items) }
        requires known { (issued : List ℕ) × (needs : List (List ℕ))
            × AreKnown self.old (length task.now.timings.items) issued needs
            × IsNew (work_of task.now.timings.items) issued m }
        requires many { length waits.old.awaited ≡ length task.now.timings.items }
        ensures basis { OnOk result (basis_of self.new ≡ basis_of self.old) }
        ensures fits { OnOk result (Fits self.new (work_of task.now.timings.items)) }
        ensures none { IfOk result (λ none. IsTrue none ↔ WaitsForNone waits.new m) }
        ensures learnt { OnOk result ((issued : List ℕ) (needs : List (List ℕ))
            → AreKnown self.old (length task.now.timings.items) issued needs
            → IsNew (work_of task.now.timings.items) issued m
            → IsLearnt self.new (work_of task.now.timings.items)
            issued needs m waits.old waits.new) }
    {
        match self {
            Service::ByNumber(needs) => waits.enter(m, needs.of(m)),
            Service::ByIssue(issued) => join(issued, task, m, waits),
        }
    }

    /// The key by which message `m`, which is issued, is taken: of equal priorities the least first,
    /// and of equal keys the least number.
    pub fn key(&self, task: &Task, starts: &[u64], m: u32) -> u64
        requires { HasIssue task.now.timings.items starts.now m }
        ensures { result ≡ key_in self.now (work_of task.now.timings.items) (start_of starts.now) m }
    {
        match self {
            Service::ByNumber(_) => 0,
            Service::ByIssue(_) => issue(task.timings.as_slice(), starts, m),
        }
    }
}

/// Message `m` joins the messages that have been issued, and waits for those of its needs that have
/// not finished. Whether it waits for nothing.
fn join(issued: &mut Issued, task: &Task, m: u32, waits: &mut Waits) -> Result<bool, AllocError>
    requires fits { length issued.old.case.assigned.now ≡ length task.now.timings.items }
    requires joined { (messages : List ℕ) × (needs : List (List ℕ))
        × AreJoined issued.old (length task.now.timings.items) messages needs
        × IsNew (work_of task.now.timings.items) messages m }
    requires many { length waits.old.awaited ≡ length task.now.timings.items }
    ensures case { OnOk result (issued.new.case ≡ issued.old.case) }
    ensures spans { OnOk result (issued.new.spans ≡ issued.old.spans) }
    ensures none { IfOk result (λ none. IsTrue none ↔ WaitsForNone waits.new m) }
    ensures learnt { OnOk result ((messages : List ℕ) (needs : List (List ℕ))
        → AreJoined issued.old (length task.now.timings.items) messages needs
        → IsNew (work_of task.now.timings.items) messages m
        → IsLearnt (ByIssue issued.new) (work_of task.now.timings.items)
        messages needs m waits.old waits.new) }
{
    issued.join(m)?;
    let none = waits.enter(m, issued.needs())?;
    Ok(none)
}
