//! The planner: at each tick at which a message finishes or is issued, ready messages start on the
//! workers that are free, those first that are taken first.

ghost use Rattle.std.specs.Prelude.{◌≡◌, ◌⊎◌, ℕ, ◌+◌, ◌^◌, ◌<◌, ◌≤◌, List, [], length, IfOk, OnOk};
ghost use Rattle.waff_plan.specs.Timing.{start_of, work_of};
ghost use Rattle.waff_plan.specs.Work.{IsNumber};
ghost use Rattle.waff_list.specs.Planning.{AreIssuing, AreStarting, Fits, IsFresh, IsPlanned};
ghost use Rattle.waff_list.specs.Planning.{placed_in, plannable_of};
ghost use Rattle.waff_list.specs.Plannable.{IsMade};
ghost use Rattle.waff_list.specs.Ready.{AreGathered};
ghost use Rattle.waff_list.specs.Telling.{basis_of};

use crate::progress::Progress;
use crate::service::Service;
use crate::task::Task;
use crate::waiting::Waiting;
use std::alloc::{AllocError, Global};
use waff_plan::NEVER;
use waff_waits::Ready;

/// Makes the plan of these messages in this order of service.
pub(crate) fn make(alloc: Global, task: &Task, service: Service) -> Result<Progress, AllocError>
    requires fits { Fits service (work_of task.now.timings.items) }
    requires fresh { IsFresh service }
    ensures made { IfOk result (λ made.
        IsMade (plannable_of task.now (basis_of service.entry)) (placed_in made)) }
{
    let mut waiting = Waiting::new(alloc, service, task)?;
    let mut progress = Progress::new(alloc, task)?;
    let done = go_on(alloc, task, &mut progress, &mut waiting);
    drop(waiting);
    match done {
        Ok(()) => Ok(progress),
        Err(error) => {
            drop(progress);
            Err(error)
        }
    }
}

/// Places all messages, from one tick to the next at which a message finishes or is issued.
fn go_on(
    alloc: Global,
    task: &Task,
    progress: &mut Progress,
    waiting: &mut Waiting,
) -> Result<(), AllocError>
    requires begun { IsPlanned task.now (basis_of waiting.old.service) progress.old 0 1 0 }
    requires kept { AreIssuing task.now progress.old waiting.old progress.old.issues 0 }
    ensures made { OnOk result (IsMade (plannable_of task.now (basis_of waiting.old.service))
        (placed_in progress.new)) }
{
    let mut started = Vec::new(alloc);
    let mut now = 0;
    loop {
        issue_all(task, now, progress, waiting)?;
        start_all(task, now, &mut started, progress, waiting)?;
        let next = progress.next();
        if next == NEVER {
            return Ok(());
        }
        finish_all(task, next, progress, waiting)?;
        now = next;
    }
}

/// The messages that are issued by now wait for that no more, in the order of their issues.
fn issue_all(
    task: &Task,
    now: u64,
    progress: &mut Progress,
    waiting: &mut Waiting,
) -> Result<(), AllocError>
    requires tick { now + 2 ^ 33 < NEVER }
    requires begun { IsPlanned task.now (basis_of waiting.old.service) progress.old now 1 now }
    requires kept { AreIssuing task.now progress.old waiting.old progress.old.issues now }
    ensures basis { OnOk result (basis_of waiting.new.service ≡ basis_of waiting.old.service) }
    ensures placed { OnOk result (placed_in progress.new ≡ placed_in progress.old) }
    ensures kept { OnOk result (AreStarting task.now progress.new waiting.new [] now) }
{
    while let Some((_, m)) = progress.issues.pop_by(now) {
        waiting.issue(task, progress, now, m)?;
    }
    Ok(())
}

/// Starts messages that are ready, as long as workers are free. Of the messages that start the one of
/// the lowest number takes the least worker.
fn start_all(
    task: &Task,
    now: u64,
    started: &mut Vec<u32>,
    progress: &mut Progress,
    waiting: &mut Waiting,
) -> Result<(), AllocError>
    requires tick { now + 2 ^ 33 < NEVER }
    requires begun { IsPlanned task.now (basis_of waiting.old.service) progress.old now 1 now }
    requires kept { AreStarting task.now progress.old waiting.old [] now }
    ensures basis { OnOk result (basis_of waiting.new.service ≡ basis_of waiting.old.service) }
    ensures filled { OnOk result (IsPlanned task.now (basis_of waiting.old.service) progress.new now
        (length task.now.timings.items + 1) (now + 1)) }
    ensures kept { OnOk result (AreStarting task.now progress.new waiting.new [] now) }
    ensures stay { OnOk result ((m : ℕ) → IsNumber (work_of task.now.timings.items) m
        → start_of progress.old.starts.items m ≤ now
        → start_of progress.new.starts.items m ≡ start_of progress.old.starts.items m) }
{
    started.clear();
    gather(progress.idle.len(), started, &mut waiting.ready)?;
    started.sort_unstable();
    for at in 0..started.len() {
        progress.start(task, started[at], now)?;
    }
    Ok(())
}

/// Takes out this many ready messages, or all, those first that are taken first.
fn gather(most: usize, started: &mut Vec<u32>, ready: &mut Ready) -> Result<(), AllocError>
    requires { started.old.items ≡ [] }
    ensures gathered { OnOk result (AreGathered ready.old most started.new.items ready.new) }
    ensures over { OnOk result ((length started.new.items ≡ most) ⊎ (ready.new ≡ [])) }
{
    while started.len() < most {
        match ready.pop() {
            Some((_, (_, m))) => started.push(m)?,
            None => return Ok(()),
        }
    }
    Ok(())
}

/// The messages that finish by `next`, the next tick, free their workers, and those that wait for them
/// are told.
fn finish_all(
    task: &Task,
    next: u64,
    progress: &mut Progress,
    waiting: &mut Waiting,
) -> Result<(), AllocError>
    requires next { next < NEVER }
    requires kept { (now : ℕ) × (now + 2 ^ 33 < NEVER) × IsPlanned task.now
        (basis_of waiting.old.service) progress.old now
        (length task.now.timings.items + 1) (now + 1)
        × AreStarting task.now progress.old waiting.old [] now }
    ensures basis { OnOk result (basis_of waiting.new.service ≡ basis_of waiting.old.service) }
    ensures placed { OnOk result (placed_in progress.new ≡ placed_in progress.old) }
    ensures woken { OnOk result ((now : ℕ) → now + 2 ^ 33 < NEVER → now < next → IsPlanned task.now
        (basis_of waiting.old.service) progress.old now
        (length task.now.timings.items + 1) (now + 1)
        → AreStarting task.now progress.old waiting.old [] now
        → AreIssuing task.now progress.new waiting.new progress.new.issues next) }
{
    while let Some((_, m)) = progress.finishes.pop_by(next) {
        progress.idle.push(progress.seats[m as usize - 1])?;
        waiting.finish(task, progress.starts.as_slice(), m)?;
    }
    Ok(())
}
