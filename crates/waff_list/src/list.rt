//! The list plans of a trace, and the printed chain of one.

ghost use Rattle.std.specs.Prelude.{◌≡◌, ◌<◌, true, false, length, All, IfOk};
ghost use Rattle.waff_model.specs.Versions.{has_clients};
ghost use Rattle.waff_assign.specs.Order.{Path};
ghost use Rattle.waff_plan.specs.Bound.{IsWithinBound, IsWithinRatio, IsWithinTwice, IsWorkers};
ghost use Rattle.waff_plan.specs.Chain.{IsChain, IsListed, IsPrinted, chain_cost, chain_release};
ghost use Rattle.waff_plan.specs.Obeys.{Obeys};
ghost use Rattle.waff_plan.specs.Serving.{served_in, started_in};
ghost use Rattle.waff_plan.specs.Timetable.{starts_in, timings_of, work_in};
ghost use Rattle.waff_order.specs.Needs.{IsNeed};
ghost use Rattle.waff_list.specs.Bound.{IsBusyPlan};
ghost use Rattle.waff_list.specs.ListRule.{IsListPlan, IsTakenFirst, arrival};
ghost use Rattle.waff_list.specs.Rules.{IsPlanBy};
ghost use Rattle.waff_list.specs.Planning.{IsFresh};
ghost use Rattle.waff_list.specs.Served.{IsPlanServed};
ghost use Rattle.waff_list.specs.Services.{IsPlanIn, IsServiceFor};
ghost use Rattle.waff_list.specs.Telling.{basis_of};
ghost use Rattle.waff_list.specs.Seats.{IsInOrder};
ghost use Rattle.waff_list.specs.Seating.{worker_of};
ghost use Rattle.waff_list.specs.Unique.{AreSeated};
ghost use Rattle.waff_assign.specs.Held.{AreKnown};

use crate::WorkerPlan;
use crate::issued::Issued;
use crate::planner::make;
use crate::rule::Rule;
use crate::service::Service;
use crate::task::Task;
use std::alloc::{AllocError, Global};
use waff_assign::{Assigned, Case};
use waff_model::{Trace, Tree};
use waff_order::Needs;
use waff_order::predecessors::needs;
use waff_plan::printed::chain;
use waff_plan::{Chain, Plan};

/// The plan for k workers by this rule: whenever a worker is free and messages are ready, the one that the
/// rule takes first starts. Of two messages that exclude each other the one that comes first in the trace is
/// served first, and in a trace with clients the one that is issued first. Of the messages that
/// start at a tick the one of the lowest number takes the least worker that is free.
pub fn list_plan_of(alloc: Global, case: Case, rule: Rule, k: u32) -> Result<WorkerPlan, AllocError>
    requires workers { IsWorkers k }
    ensures version { IfOk result (λ made. made.plan.version ≡ case.entry.trace.now.version) }
    ensures timings { IfOk result (λ made.
        made.plan.timings ≡ timings_of case.entry.trace.now.messages) }
    ensures workers { IfOk result (λ made. made.workers ≡ k) }
    ensures follows { IfOk result (λ made. IsPlanServed case.entry.trace.now.version rule
        case.entry.tree.now case.entry.assigned.now
        (work_in made.plan) k (starts_in made.plan)) }
    ensures seated { IfOk result (λ made. AreSeated
        (work_in made.plan) (starts_in made.plan) (worker_of made.seats)) }
    ensures order { IfOk result (λ made.
        IsInOrder (work_in made.plan) (starts_in made.plan) made.order) }
{
    if case.trace.version().has_clients() {
        let issued = Issued::none(alloc, case)?;
        return plan_served(alloc, Service::ByIssue(issued), case.trace, rule, k);
    }
    let needs = needs(alloc, case.tree, case.assigned)?;
    list_plan_by(alloc, &needs, case.trace, rule, k)
}

/// The plan for k workers by this rule over the needs of the messages of a trace of the first two
/// versions. Workers are given as by `list_plan_of`.
pub fn list_plan_by(
    alloc: Global,
    needs: &Needs,
    trace: &Trace,
    rule: Rule,
    k: u32,
) -> Result<WorkerPlan, AllocError>
    requires lengths { length needs.now ≡ length trace.now.messages }
    requires workers { IsWorkers k }
    requires earlier_version { has_clients trace.now.version ≡ false }
    ensures version { IfOk result (λ made. made.plan.version ≡ trace.now.version) }
    ensures timings { IfOk result (λ made. made.plan.timings ≡ timings_of trace.now.messages) }
    ensures workers { IfOk result (λ made. made.workers ≡ k) }
    ensures follows { IfOk result (λ made. IsPlanBy
        rule (Path (IsNeed needs.now)) (work_in made.plan) k (starts_in made.plan)) }
    ensures seated { IfOk result (λ made. AreSeated
        (work_in made.plan) (starts_in made.plan) (worker_of made.seats)) }
    ensures order { IfOk result (λ made.
        IsInOrder (work_in made.plan) (starts_in made.plan) made.order) }
{
    let _needs = needs.len();
    plan_served(alloc, Service::ByNumber(needs), trace, rule, k)
}

/// The plan for k workers by arrival over the needs of the messages of a trace of the first two
/// versions. Workers are given as by `list_plan_of`.
pub fn list_plan(
    alloc: Global,
    needs: &Needs,
    trace: &Trace,
    k: u32,
) -> Result<WorkerPlan, AllocError>
    requires lengths { length needs.now ≡ length trace.now.messages }
    requires workers { IsWorkers k }
    requires earlier_version { has_clients trace.now.version ≡ false }
    ensures version { IfOk result (λ made. made.plan.version ≡ trace.now.version) }
    ensures timings { IfOk result (λ made. made.plan.timings ≡ timings_of trace.now.messages) }
    ensures workers { IfOk result (λ made. made.workers ≡ k) }
    ensures follows { IfOk result (λ made. IsListPlan (Path (IsNeed needs.now))
        (IsTakenFirst arrival) (work_in made.plan) k (starts_in made.plan)) }
    ensures seated { IfOk result (λ made. AreSeated
        (work_in made.plan) (starts_in made.plan) (worker_of made.seats)) }
    ensures order { IfOk result (λ made.
        IsInOrder (work_in made.plan) (starts_in made.plan) made.order) }
{
    list_plan_by(alloc, needs, trace, Rule::Arrival, k)
}

/// The plan for k workers by this rule in this order of service.
fn plan_served(
    alloc: Global,
    service: Service,
    trace: &Trace,
    rule: Rule,
    k: u32,
) -> Result<WorkerPlan, AllocError>
    requires workers { IsWorkers k }
    requires serves { IsServiceFor
        service trace.now.version (length trace.now.messages) }
    requires fresh { IsFresh service }
    ensures version { IfOk result (λ made. made.plan.version ≡ trace.now.version) }
    ensures timings { IfOk result (λ made. made.plan.timings ≡ timings_of trace.now.messages) }
    ensures workers { IfOk result (λ made. made.workers ≡ k) }
    ensures follows { IfOk result (λ made. IsPlanIn rule (basis_of service.entry)
        (work_in made.plan) k (starts_in made.plan)) }
    ensures seated { IfOk result (λ made. AreSeated
        (work_in made.plan) (starts_in made.plan) (worker_of made.seats)) }
    ensures order { IfOk result (λ made.
        IsInOrder (work_in made.plan) (starts_in made.plan) made.order) }
{
    let task = Task::new(alloc, trace, &service, rule, k)?;
    let made = make(alloc, &task, service)?;
    let plan = Plan::new(trace.version(), task.timings(), made.starts);
    Ok(WorkerPlan::new(plan, k, made.seats, made.order))
}

/// The printed chain of a list plan, in the order in which its messages start. Where no worker idles while
/// a message is ready, as in every plan that follows the list rule, its length is within the list bound of
/// this chain, and so within a constant ratio of that of any worker plan that serves as it does. A plan of a
/// trace with clients has to obey.
pub fn list_chain(
    alloc: Global,
    tree: &Tree,
    assigned: &Assigned,
    made: &WorkerPlan,
) -> Result<Chain, AllocError>
    requires lengths { length made.now.plan.timings ≡ length assigned.now }
    requires known { AreKnown tree.now assigned.now }
    requires served { has_clients made.now.plan.version ≡ true
        → Obeys (served_in tree.now assigned.now made.now.plan)
        (work_in made.now.plan) (starts_in made.now.plan) }
    ensures printed { IfOk result (λ chain. IsPrinted
        (started_in tree.now assigned.now made.now.plan)
        (work_in made.now.plan) (starts_in made.now.plan) chain.messages) }
    ensures chain { IfOk result (λ chain. IsChain
        (started_in tree.now assigned.now made.now.plan)
        (work_in made.now.plan) chain.messages) }
    ensures listed { IfOk result (λ chain.
        IsListed (length made.now.plan.timings) chain.messages) }
    ensures cost { IfOk result (λ chain.
        chain.cost ≡ chain_cost (work_in made.now.plan) chain.messages) }
    ensures release { IfOk result (λ chain.
        chain.release ≡ chain_release (work_in made.now.plan) chain.messages) }
    ensures bound { IfOk result (λ chain.
        IsBusyPlan (served_in tree.now assigned.now made.now.plan)
        (work_in made.now.plan) made.now.workers (starts_in made.now.plan)
        → IsWithinBound
        (work_in made.now.plan) made.now.workers (starts_in made.now.plan) chain.messages) }
    ensures twice { IfOk result (λ _.
        IsBusyPlan (served_in tree.now assigned.now made.now.plan)
        (work_in made.now.plan) made.now.workers (starts_in made.now.plan)
        → IsWithinTwice (served_in tree.now assigned.now made.now.plan)
        (work_in made.now.plan) made.now.workers (starts_in made.now.plan)) }
    ensures ratio { IfOk result (λ _.
        IsBusyPlan (served_in tree.now assigned.now made.now.plan)
        (work_in made.now.plan) made.now.workers (starts_in made.now.plan)
        → IsWithinRatio (served_in tree.now assigned.now made.now.plan)
        (work_in made.now.plan) made.now.workers (starts_in made.now.plan)) }
{
    let plan = made.plan();
    let _messages = plan.len();
    chain(alloc, tree, assigned, plan)
}
