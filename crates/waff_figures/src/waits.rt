//! Who waits for whom: the waits of a plan.

ghost use Rattle.std.specs.Prelude.{◌≡◌, ◌++◌, true, All, IfOk, OnOk, IfSome, length};
ghost use Rattle.std.specs.List.{AllPairs};
ghost use Rattle.waff_model.specs.Versions.{has_clients};
ghost use Rattle.waff_plan.specs.Obeys.{Obeys};
ghost use Rattle.waff_plan.specs.Planned.{planned_order, planned_pairs, planned_starts};
ghost use Rattle.waff_plan.specs.Planned.{planned_work};
ghost use Rattle.waff_plan.specs.Timetable.{starts_in, work_in};
ghost use Rattle.waff_plan.specs.Work.{IsAmongFirst};
ghost use Rattle.waff_figures.specs.Waits.{AreWaits, ComesFirst, IsWaitAmong, ready_of};
ghost use Rattle.waff_figures.specs.Waits.{wait_of, waits_in};

use crate::wait_locks::{lock_of, locks_waited_for};
use std::alloc::{AllocError, Global};
use waff_plan::waited::waited;
use waff_plan::{Plan, Planned};

/// How long a message waits for another one, or for a worker.
#[derive(Clone, Copy)]
pub struct Wait {
    /// The message that waits.
    pub message: u32,
    /// The message that it waits for; none where it waits for a worker.
    pub on: Option<u32>,
    /// The lock by which the two exclude each other; none where they do so by their affinities.
    pub by: Option<u32>,
    /// The time that it waits, in ticks.
    pub ticks: u64,
}

/// All waits of the plan, in the order of the messages; that for a message comes before that for a
/// worker. A plan of a trace with clients has to obey.
pub(crate) fn waits(alloc: Global, planned: &Planned<'_>) -> Result<Vec<Wait>, AllocError>
    requires served { has_clients planned.now.plan.now.version ≡ true
        → Obeys (planned_order planned.now) (planned_work planned.now) (planned_starts planned.now) }
    ensures waits { IfOk result (λ waits. AreWaits planned.now.case.tree.now
        planned.now.case.assigned.now (planned_pairs planned.now) (planned_work planned.now)
        (planned_starts planned.now) waits.items) }
    ensures order { IfOk result (λ waits. AllPairs ComesFirst waits.items) }
    ensures among { IfOk result (λ waits.
        All (IsWaitAmong (length planned.now.case.assigned.now)) waits.items) }
{
    let plan = planned.plan;
    let links = waited(alloc, planned)?;
    let locks = locks_waited_for(alloc, &planned.case, links.as_slice())?;
    let mut waits = Vec::new(alloc);
    for m in 1..plan.len() + 1 {
        let by = lock_of(locks.as_slice(), m);
        push_waits(&mut waits, planned, m, links[m as usize - 1], by)?;
    }
    Ok(waits)
}

/// Appends the waits of a message: for the one that it waited for, by this lock, until it is ready, and then for a
/// worker until it starts.
fn push_waits(
    waits: &mut Vec<Wait>,
    planned: &Planned<'_>,
    message: u32,
    link: Option<u32>,
    by: Option<u32>,
) -> Result<(), AllocError>
    requires message { IsAmongFirst (length planned.now.case.assigned.now) message }
    requires link { IfSome link (IsAmongFirst (length planned.now.case.assigned.now)) }
    ensures { OnOk result (waits.new.items ≡ waits.old.items
        ++ waits_in (planned_work planned.now) (planned_starts planned.now) message link by) }
{
    let plan = planned.plan;
    let issue = plan.issue(message);
    let ready = ready(plan, message, link);
    push_wait(waits, message, link, by, ready.saturating_sub(issue))?;
    let ticks = plan.start(message).saturating_sub(ready);
    push_wait(waits, message, None, None, ticks)
}

/// From when on a message waits for a worker alone, where it waited for this one.
pub(crate) fn ready(plan: &Plan, message: u32, link: Option<u32>) -> u64
    requires message { IsAmongFirst (length plan.now.timings) message }
    requires link { IfSome link (IsAmongFirst (length plan.now.timings)) }
    ensures { result ≡ ready_of (work_in plan.now) (starts_in plan.now) message link }
{
    match link {
        Some(other) => plan.finish(other),
        None => plan.issue(message),
    }
}

/// Appends a wait, where it is one of any ticks.
fn push_wait(
    waits: &mut Vec<Wait>,
    message: u32,
    on: Option<u32>,
    by: Option<u32>,
    ticks: u64,
) -> Result<(), AllocError>
    ensures { OnOk result (waits.new.items ≡ waits.old.items ++ wait_of message on by ticks) }
{
    if ticks > 0 {
        waits.push(Wait {
            message,
            on,
            by,
            ticks,
        })?;
    }
    Ok(())
}
