//! The unlimited plan: each message starts at the greatest of its issue and the finishes of the
//! messages that exclude it and are served before it.

ghost use Rattle.std.specs.Prelude.{◌≡◌, ◌<◌, max, length, All, IfOk, MatchOption};
ghost use Rattle.waff_plan.specs.Links.{AreLinks};
ghost use Rattle.waff_plan.specs.Obeys.{IsLeast};
ghost use Rattle.waff_plan.specs.Serving.{served_in, started_in};
ghost use Rattle.waff_plan.specs.Timetable.{timings_of, work_in, starts_in};
ghost use Rattle.waff_assign.specs.Held.{AreKnown};

use crate::Plan;
use crate::latest::Latest;
use crate::table::Table;
use crate::turns::first_turns;
use crate::waits::{Since, wait};
use std::alloc::{AllocError, Global};
use waff_assign::{Assigned, Case};
use waff_model::{Trace, Tree};

/// The unlimited plan of the trace: messages are taken in the order in which they are served, and each
/// starts at its issue, or where it is later at the finish of the latest message that was taken before
/// it and excludes it.
pub fn plan(
    alloc: Global,
    tree: &Tree,
    assigned: &Assigned,
    trace: &Trace,
) -> Result<Plan, AllocError>
    requires lengths { length trace.now.messages ≡ length assigned.now }
    requires known { AreKnown tree.now assigned.now }
    ensures version { IfOk result (λ plan. plan.version ≡ trace.now.version) }
    ensures timings { IfOk result (λ plan. plan.timings ≡ timings_of trace.now.messages) }
    ensures lengths { IfOk result (λ plan. length plan.timings ≡ length assigned.now) }
    ensures least { IfOk result (λ plan. IsLeast (served_in tree.now assigned.now plan)
        (work_in plan) (starts_in plan)) }
    ensures started { IfOk result (λ plan. IsLeast (started_in tree.now assigned.now plan)
        (work_in plan) (starts_in plan)) }
{
    let case = Case {
        tree,
        assigned,
        trace,
    };
    let (plan, _links) = linked_plan(alloc, &case)?;
    Ok(plan)
}

/// The same plan with its links, which the same walk finds: what a message waited for is known when it
/// has its turn.
pub fn linked_plan(alloc: Global, case: &Case<'_>) -> Result<(Plan, Vec<Option<u32>>), AllocError>
    ensures version { IfOk result (λ made. made.0.version ≡ case.now.trace.now.version) }
    ensures timings { IfOk result (λ made. made.0.timings ≡ timings_of case.now.trace.now.messages) }
    ensures lengths { IfOk result (λ made.
        length made.0.timings ≡ length case.now.assigned.now) }
    ensures least { IfOk result (λ made. IsLeast
        (served_in case.now.tree.now case.now.assigned.now made.0)
        (work_in made.0) (starts_in made.0)) }
    ensures started { IfOk result (λ made. IsLeast
        (started_in case.now.tree.now case.now.assigned.now made.0)
        (work_in made.0) (starts_in made.0)) }
    ensures count { IfOk result (λ made. length made.1.items ≡ length made.0.timings) }
    ensures links { IfOk result (λ made. AreLinks
        (started_in case.now.tree.now case.now.assigned.now made.0)
        (work_in made.0) (starts_in made.0) (length made.0.timings) made.1.items) }
{
    let mut plan = Plan::unstarted(alloc, case.trace)?;
    let mut left = plan.len();
    let mut turns = first_turns(alloc, &plan)?;
    let mut table = Table::new(alloc, case.tree, case.assigned)?;
    let mut links = vec![in alloc; None; plan.len() as usize]?;
    while let Some((_, m)) = turns.take() {
        left -= 1;
        let latest = table.latest(m);
        links[m as usize - 1] = wait(&plan, m, latest, Since::Release);
        let start = start_at(plan.issue(m), latest);
        plan.set_start(m, start);
        let finish = plan.finish(m);
        table.note(Latest { finish, number: m });
        turns.admit(&plan, m)?;
    }
    Ok((plan, links))
}

/// The start of a message that is issued at this tick, after the latest message that excludes it.
fn start_at(issue: u64, latest: Option<Latest>) -> u64
    ensures { MatchOption latest (result ≡ issue) (λ l. result ≡ max issue l.finish) }
{
    match latest {
        Some(latest) => issue.max(latest.finish),
        None => issue,
    }
}
