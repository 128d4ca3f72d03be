//! For each message of a plan the one that it waited for, since its release or since its issue.

ghost use Rattle.std.specs.Prelude.{◌≡◌, ◌+◌, ◌<◌, ◌≤◌, true, length, All, IfOk};
ghost use Rattle.waff_model.specs.Versions.{has_clients};
ghost use Rattle.waff_model.specs.declared.limits.TheConstants.{MAX_THINK};
ghost use Rattle.waff_plan.specs.Latest.{later_of};
ghost use Rattle.waff_plan.specs.Links.{held_by, link_of};
ghost use Rattle.waff_plan.specs.ServesAs.{ObeysApart};
ghost use Rattle.waff_plan.specs.Serving.{started_in};
ghost use Rattle.waff_plan.specs.Timetable.{work_in, starts_in};
ghost use Rattle.waff_plan.specs.Waits.{AreWaits, wait_of};
ghost use Rattle.waff_plan.specs.Work.{IsNumber, finish_of};
ghost use Rattle.waff_assign.specs.Held.{AreKnown};

use crate::Plan;
use crate::latest::{Latest, is_later};
use crate::sequence::{in_order, number_at};
use crate::table::Table;
use std::alloc::{AllocError, Global};
use waff_assign::Assigned;
use waff_model::{Await, Tree};

/// From when on a message waits.
#[derive(Clone, Copy)]
pub(crate) enum Since {
    /// From its release on, for the messages that it awaits too.
    Release,
    /// From its issue on: what it awaits counts in the issue alone.
    Issue,
}

/// For each message the one that it waited for. A plan of a trace with clients has to obey in some order.
pub(crate) fn waits(
    alloc: Global,
    tree: &Tree,
    assigned: &Assigned,
    plan: &Plan,
    since: Since,
) -> Result<Vec<Option<u32>>, AllocError>
    requires lengths { length plan.now.timings ≡ length assigned.now }
    requires known { AreKnown tree.now assigned.now }
    requires apart { has_clients plan.now.version ≡ true → ObeysApart tree.now assigned.now
        (work_in plan.now) (starts_in plan.now) }
    ensures count { IfOk result (λ waits. length waits.items ≡ length plan.now.timings) }
    ensures waits { IfOk result (λ waits.
        AreWaits since (started_in tree.now assigned.now plan.now)
        (work_in plan.now) (starts_in plan.now)
        (length plan.now.timings) waits.items) }
{
    let started = in_order(alloc, plan)?;
    let mut table = Table::new(alloc, tree, assigned)?;
    let mut waits = vec![in alloc; None; plan.len() as usize]?;
    for place in 0..plan.len() {
        let m = number_at(&started, place);
        waits[m as usize - 1] = wait(plan, m, table.latest(m), since);
        let finish = plan.finish(m);
        table.note(Latest { finish, number: m });
    }
    Ok(waits)
}

/// What message `m` waited for, where this is the latest of those before it that exclude it.
pub(crate) fn wait(plan: &Plan, m: u32, latest: Option<Latest>, since: Since) -> Option<u32>
    requires number { IsNumber (work_in plan.now) m }
    ensures { result ≡ wait_of since (work_in plan.now) (starts_in plan.now) m latest }
{
    match since {
        Since::Release => waited_for(held_by(plan, m, latest), plan.release(m)),
        Since::Issue => waited_for(latest, plan.issue(m)),
    }
}

/// What holds message `m` back longest: the latest of those before it that exclude it, or one that it awaits.
fn held_by(plan: &Plan, m: u32, latest: Option<Latest>) -> Option<Latest>
    requires number { IsNumber (work_in plan.now) m }
    ensures { result ≡ held_by (finish_of (work_in plan.now) (starts_in plan.now)) latest
        ((work_in plan.now).awaits m) }
{
    let after = plan.after(m);
    let mut held = latest;
    for k in (0..after.len()).rev() {
        let Await { message, gap } = after[k];
        held = later(held, Some(awaited(plan, message, u64::from(gap))));
    }
    match plan.follows(m) {
        0 => held,
        before => later(held, Some(awaited(plan, before, plan.think(m)))),
    }
}

/// Message `i`, which is awaited, with the tick at which the gap behind its finish ends.
fn awaited(plan: &Plan, i: u32, gap: u64) -> Latest
    requires number { IsNumber (work_in plan.now) i }
    requires small { gap ≤ MAX_THINK }
    ensures { result ≡ record {
      finish = finish_of (work_in plan.now) (starts_in plan.now) i + gap;
      number = i;
    } }
{
    Latest {
        finish: plan.finish(i) + gap,
        number: i,
    }
}

/// The later of the two, where they are there.
fn later(one: Option<Latest>, other: Option<Latest>) -> Option<Latest>
    ensures { result ≡ later_of one other }
{
    match (one, other) {
        (None, other) => other,
        (Some(one), None) => Some(one),
        (Some(one), Some(other)) => {
            if is_later(one, other) {
                Some(other)
            } else {
                Some(one)
            }
        }
    }
}

/// The latest message, where it finishes after the release.
fn waited_for(latest: Option<Latest>, release: u64) -> Option<u32>
    ensures { result ≡ link_of latest release }
{
    match latest {
        Some(latest) if release < latest.finish => Some(latest.number),
        _ => None,
    }
}
