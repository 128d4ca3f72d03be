//! The check of a plan that is given.

ghost use Rattle.std.specs.Prelude.{◌≡◌, ◌↔◌, ◌+◌, ◌^◌, ◌<◌, length, IfOk, IsTrue};
ghost use Rattle.waff_assign.specs.Case.{instance_of};
ghost use Rattle.waff_check.specs.Claimed.{claim_under, claimed};
ghost use Rattle.waff_check.specs.Verdicts.{IsClaim, IsFaultless, IsManned, IsReleased, IsSummed};
ghost use Rattle.waff_check.specs.Verdicts.{IsShort, IsVerdict, chain_in, claim_of, lower_bound_in, start_in};
ghost use Rattle.waff_check.specs.Verdicts.{work_of_claim, workers_in};
ghost use Rattle.waff_plan.specs.Totals.{totals_of};
ghost use Rattle.waff_check.specs.Promises.{Promises};

use crate::claim::Claim;
use crate::crowd::crowded;
use crate::links::broken_link;
use crate::overlap::first_overlap;
use crate::told::{early_start, unawaited_start, unissued_start, wrong_finish, wrong_name};
use crate::totals::has_totals;
use crate::verdict::Verdict;
use crate::worker::wrong_worker;
use std::alloc::{AllocError, Global};
use std::thread::Threads;
use waff_assign::{Assigned, Case};
use waff_model::{Trace, Tree};
use waff_plan::lower_bound::lower_bound;
use waff_plan::{Planned, Totals};
use waff_plan_text::GivenPlan;

/// The verdict on a plan that is given for the messages of a trace, which hold what is assigned:
/// the first fault of the first kind that there is, or else how good the plan is. Pairs of messages
/// are walked over only to name an overlap that is there, in threads.
pub fn check<R: Threads + Sync>(
    rt: &R,
    alloc: Global,
    tree: &Tree,
    assigned: &Assigned,
    trace: &Trace,
    given: &GivenPlan,
) -> Result<Verdict, AllocError>
    requires claim { IsClaim (claim_under tree.now assigned.now trace.now given.now) }
    requires version { given.now.version ≡ trace.now.version }
    ensures verdict { IfOk result
        (IsVerdict (claim_under tree.now assigned.now trace.now given.now)) }
    ensures promises { IfOk result
        (Promises (claim_under tree.now assigned.now trace.now given.now)) }
{
    let _rows = given.len();
    let _messages = trace.len();
    let _affinities = tree.len();
    let case = Case {
        tree,
        assigned,
        trace,
    };
    find(rt, alloc, &case, given)
}

/// The verdict on the plan of the starts that are given.
fn find<'a, R: Threads + Sync>(
    rt: &R,
    alloc: Global,
    case: &Case<'a>,
    given: &'a GivenPlan,
) -> Result<Verdict, AllocError>
    requires rows { length given.now.rows ≡ length case.now.trace.now.messages }
    ensures { IfOk result (IsVerdict (claim_of (instance_of case.now) given.now)) }
{
    let plan = given.plan(alloc, case.trace)?;
    let planned = Planned {
        case: *case,
        plan: &plan,
    };
    let verdict = judge(rt, alloc, &Claim { planned, given });
    drop(plan);
    verdict
}

/// The verdict: each fault is looked for where no earlier one is there.
fn judge<R: Threads + Sync>(rt: &R, alloc: Global, claim: &Claim<'_>) -> Result<Verdict, AllocError>
    ensures { IfOk result (IsVerdict (claimed claim.now)) }
{
    let workers = claim.given.workers();
    if let Some((first, second)) = first_overlap(rt, alloc, &claim.planned)? {
        return Ok(Verdict::Overlap { first, second });
    }
    if let Some(tick) = crowded(alloc, claim.planned.plan, workers)? {
        return Ok(Verdict::TooManyAt { tick });
    }
    if let Some(message) = wrong_worker(alloc, claim, workers)? {
        return Ok(Verdict::Worker { message });
    }
    judge_manned(alloc, claim)
}

/// The verdict on a plan whose messages keep their order and have right workers.
fn judge_manned(alloc: Global, claim: &Claim<'_>) -> Result<Verdict, AllocError>
    requires { IsManned (claimed claim.now) }
    ensures { IfOk result (IsVerdict (claimed claim.now)) }
{
    if let Some(message) = wrong_name(claim) {
        return Ok(Verdict::Affinity { message });
    }
    if let Some(message) = wrong_finish(claim) {
        return Ok(Verdict::Finish { message });
    }
    if !has_totals(claim) {
        return Ok(Verdict::Totals);
    }
    judge_summed(alloc, claim)
}

/// The verdict on a plan whose rows and totals are right.
fn judge_summed(alloc: Global, claim: &Claim<'_>) -> Result<Verdict, AllocError>
    requires { IsSummed (claimed claim.now) }
    ensures { IfOk result (IsVerdict (claimed claim.now)) }
{
    if let Some(place) = broken_link(&claim.planned, claim.given.chain()) {
        return Ok(Verdict::NotAChain { place });
    }
    if let Some(message) = early_start(claim.planned.plan) {
        return Ok(Verdict::Early { message });
    }
    judge_released(alloc, claim)
}

/// The verdict on a plan whose chain is one, and whose messages do not start before their releases.
fn judge_released(alloc: Global, claim: &Claim<'_>) -> Result<Verdict, AllocError>
    requires { IsReleased (claimed claim.now) }
    ensures { IfOk result (IsVerdict (claimed claim.now)) }
{
    if let Some(message) = unissued_start(claim.planned.plan) {
        return Ok(Verdict::Client { message });
    }
    if let Some((message, awaited)) = unawaited_start(&claim.planned) {
        return Ok(Verdict::After { message, awaited });
    }
    praise(alloc, claim)
}

/// How good a plan without a fault is.
fn praise(alloc: Global, claim: &Claim<'_>) -> Result<Verdict, AllocError>
    requires { IsFaultless (claimed claim.now) }
    ensures { IfOk result (IsVerdict (claimed claim.now)) }
{
    let summary = claim.given.summary();
    let totals = claim.planned.plan.totals(summary.workers, &summary.chain);
    if is_short(alloc, claim, &totals)? {
        return Ok(Verdict::Shortest);
    }
    if reaches(&totals) {
        return Ok(Verdict::Tight);
    }
    if summary.workers.is_some() && totals.left <= totals.right {
        return Ok(Verdict::WithinBound);
    }
    Ok(Verdict::Obeys)
}

/// Whether the release and the cost of the chain are the length.
fn reaches(totals: &Totals) -> bool
    requires small { totals.now.release + totals.now.cost < 2 ^ 53 }
    ensures { IsTrue result ↔ (totals.now.release + totals.now.cost ≡ totals.now.length) }
{
    totals.release + totals.cost == totals.length
}

/// Whether the length is that below which no plan obeys, in whatever order.
fn is_least(alloc: Global, claim: &Claim<'_>, length: u64) -> Result<bool, AllocError>
    ensures { IfOk result (λ least. IsTrue least ↔ (length ≡ lower_bound_in (claimed claim.now))) }
{
    let bound = lower_bound(alloc, &claim.planned, claim.given.summary().workers)?;
    Ok(length == bound)
}

/// Whether the length is the least that any plan may have: where messages have no clients that is the
/// release and the cost of the chain.
fn is_short(alloc: Global, claim: &Claim<'_>, totals: &Totals) -> Result<bool, AllocError>
    requires totals { totals.now ≡ totals_of (workers_in (claimed claim.now))
        (work_of_claim (claimed claim.now)) (start_in (claimed claim.now))
        (chain_in (claimed claim.now)) }
    requires small { totals.now.release + totals.now.cost < 2 ^ 53 }
    ensures { IfOk result (λ short. IsTrue short ↔ IsShort (claimed claim.now)) }
{
    if claim.planned.case.trace.version().has_clients() {
        is_least(alloc, claim, totals.length)
    } else {
        Ok(reaches(totals))
    }
}
