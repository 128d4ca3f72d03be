//! The chain of a text.

ghost use Rattle.std.specs.Prelude.{◌≡◌, ◌<◌, ◌≤◌, ◌↔◌, IsTrue, MatchOption};
ghost use Rattle.std.specs.List.{AllPairs};
ghost use Rattle.waff_plan.specs.Chain.{IsListed};
ghost use Rattle.waff_plan.specs.Planned.{planned_starts, planned_work};
ghost use Rattle.waff_plan.specs.Serving.{IsStartedBefore};
ghost use Rattle.waff_plan.specs.Work.{IsAwaited, IsNumber};
ghost use Rattle.waff_check.specs.Faults.{AreLinked, IsBroken, IsLeastOf};
ghost use Rattle.waff_check.specs.Searches.{planned_before, planned_links};

use waff_assign::{exclude_each_other, is_ordered};
use waff_model::Await;
use waff_plan::Planned;

/// Whether message `i` starts before message `j`, and they exclude each other.
fn starts_first(planned: &Planned<'_>, i: u32, j: u32) -> bool
    requires first { IsNumber (planned_work planned.now) i }
    requires second { IsNumber (planned_work planned.now) j }
    ensures { IsTrue result ↔ IsStartedBefore planned.now.case.tree.now
        planned.now.case.assigned.now (planned_starts planned.now) i j }
{
    let (tree, assigned) = (planned.case.tree, planned.case.assigned);
    planned.plan.start(i) < planned.plan.start(j) && exclude_each_other(tree, assigned, i, j)
}

/// Whether the plan serves message `i` before message `j`: they are an ordered pair, or where messages
/// have clients they exclude each other and `i` starts first.
fn is_before(planned: &Planned<'_>, i: u32, j: u32) -> bool
    requires first { IsNumber (planned_work planned.now) i }
    requires second { IsNumber (planned_work planned.now) j }
    ensures { IsTrue result ↔ planned_before planned.now i j }
{
    let case = &planned.case;
    if case.trace.version().has_clients() {
        starts_first(planned, i, j)
    } else {
        is_ordered(case.tree, case.assigned, i, j)
    }
}

/// Whether message `i` stands in a list whose messages rise.
fn is_listed(after: &[Await], i: u32) -> bool
    requires rising { AllPairs (λ a b. a.message < b.message) after.now }
    ensures { IsTrue result ↔ IsAwaited after.now i }
{
    let place = after.partition_point(|awaited| awaited.message < i);
    match after.get(place) {
        Some(awaited) => awaited.message == i,
        None => false,
    }
}

/// Whether message `i` is one that message `j` awaits.
fn is_awaited(planned: &Planned<'_>, i: u32, j: u32) -> bool
    requires first { 1 ≤ i }
    requires second { IsNumber (planned_work planned.now) j }
    ensures { IsTrue result ↔ IsAwaited ((planned_work planned.now).awaits j) i }
{
    let _messages = planned.case.trace.len();
    let plan = planned.plan;
    plan.follows(j) == i || is_listed(plan.after(j), i)
}

/// Whether a link goes from message `i` to message `j`: `i` is served before `j`, or `j` awaits it.
fn is_linked(planned: &Planned<'_>, i: u32, j: u32) -> bool
    requires first { IsNumber (planned_work planned.now) i }
    requires second { IsNumber (planned_work planned.now) j }
    ensures { IsTrue result ↔ planned_links planned.now i j }
{
    is_before(planned, i, j) || is_awaited(planned, i, j)
}

/// The first place of a chain, from 2 on, to whose message no link goes from the one before it.
pub(crate) fn broken_link(planned: &Planned<'_>, chain: &[u32]) -> Option<u64>
    requires chain { IsListed (planned_work planned.now).count chain.now }
    ensures { MatchOption result (AreLinked (planned_links planned.now) chain.now)
        (IsLeastOf (IsBroken (planned_links planned.now) chain.now)) }
{
    for index in 1..chain.len() {
        if !is_linked(planned, chain[index - 1], chain[index]) {
            return Some(index as u64 + 1);
        }
    }
    None
}
