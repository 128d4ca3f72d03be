//! Names, finishes and starts that rows tell.

ghost use Rattle.std.specs.Prelude.{◌<◌, ◌↔◌, ℕ, IsTrue, MatchOption};
ghost use Rattle.waff_assign.specs.Order.{affinity_name};
ghost use Rattle.waff_plan.specs.Planned.{planned_starts, planned_work};
ghost use Rattle.waff_plan.specs.Timetable.{client_work_in, starts_in, work_in};
ghost use Rattle.waff_plan.specs.Work.{IsNumber};
ghost use Rattle.waff_check.specs.Faults.{HasWrongFinish, HasWrongName, IsFirstPair, IsLeastOf, NoneOf};
ghost use Rattle.waff_check.specs.Faults.{StartsEarly, StartsUnissued};
ghost use Rattle.waff_check.specs.Searches.{planned_held};
ghost use Rattle.waff_check.specs.Verdicts.{told_finish, told_name};

use crate::claim::Claim;
use waff_model::Await;
use waff_plan::{Plan, Planned};

/// The first message whose row does not tell the name of its affinity, or no hyphen where it has none.
pub(crate) fn wrong_name(claim: &Claim<'_>) -> Option<u32>
    ensures { MatchOption result
        (NoneOf (HasWrongName (planned_work claim.now.planned) (told_name claim.now.given.now)
        (affinity_name claim.now.planned.case.tree.now claim.now.planned.case.assigned.now)))
        (IsLeastOf (HasWrongName (planned_work claim.now.planned) (told_name claim.now.given.now)
        (affinity_name claim.now.planned.case.tree.now claim.now.planned.case.assigned.now))) }
{
    for n in 1..claim.planned.plan.len() + 1 {
        if claim.given.row(n).affinity.as_str() != claim.planned.case.affinity_name(n) {
            return Some(n);
        }
    }
    None
}

/// The first message whose row does not tell the finish that its start and its cost make.
pub(crate) fn wrong_finish(claim: &Claim<'_>) -> Option<u32>
    ensures { MatchOption result
        (NoneOf (HasWrongFinish (planned_work claim.now.planned)
        (planned_starts claim.now.planned) (told_finish claim.now.given.now)))
        (IsLeastOf (HasWrongFinish (planned_work claim.now.planned)
        (planned_starts claim.now.planned) (told_finish claim.now.given.now))) }
{
    let plan = claim.planned.plan;
    for n in 1..plan.len() + 1 {
        if claim.given.finish(n) != plan.finish(n) {
            return Some(n);
        }
    }
    None
}

/// The first message that starts before its release.
pub(crate) fn early_start(plan: &Plan) -> Option<u32>
    ensures { MatchOption result
        (NoneOf (StartsEarly (work_in plan.now) (starts_in plan.now)))
        (IsLeastOf (StartsEarly (work_in plan.now) (starts_in plan.now))) }
{
    for n in 1..plan.len() + 1 {
        if plan.start(n) < plan.release(n) {
            return Some(n);
        }
    }
    None
}

/// Whether message `n` follows one, and starts sooner than its think time after the finish of that one.
fn starts_unissued(plan: &Plan, n: u32) -> bool
    requires number { IsNumber (client_work_in plan.now) n }
    ensures { IsTrue result ↔ StartsUnissued (client_work_in plan.now) (starts_in plan.now) n }
{
    let followed = plan.follows(n);
    if followed == 0 {
        return false;
    }
    plan.start(n) < plan.finish(followed) + plan.think(n)
}

/// The first message that starts before its client issues it.
pub(crate) fn unissued_start(plan: &Plan) -> Option<u32>
    ensures { MatchOption result
        (NoneOf (StartsUnissued (client_work_in plan.now) (starts_in plan.now)))
        (IsLeastOf (StartsUnissued (client_work_in plan.now) (starts_in plan.now))) }
{
    for n in 1..plan.len() + 1 {
        if starts_unissued(plan, n) {
            return Some(n);
        }
    }
    None
}

/// The first message of the list of message `n` that holds it back when it starts.
fn unawaited(planned: &Planned<'_>, n: u32) -> Option<u32>
    requires number { IsNumber (planned_work planned.now) n }
    ensures { MatchOption result (NoneOf (planned_held planned.now n))
        (IsLeastOf (planned_held planned.now n)) }
{
    let _messages = planned.case.trace.len();
    let plan = planned.plan;
    let start = plan.start(n);
    for awaited in plan.after(n) {
        let Await { message, gap } = *awaited;
        if start < plan.finish(message) + u64::from(gap) {
            return Some(message);
        }
    }
    None
}

/// The first message that starts while one of its list holds it back, and the first such one of its list.
pub(crate) fn unawaited_start(planned: &Planned<'_>) -> Option<(u32, u32)>
    ensures { MatchOption result ((n i : ℕ) → planned_held planned.now n i → ⊥)
        (λ found. IsFirstPair (planned_held planned.now) found.0 found.1) }
{
    for n in 1..planned.plan.len() + 1 {
        if let Some(awaited) = unawaited(planned, n) {
            return Some((n, awaited));
        }
    }
    None
}
