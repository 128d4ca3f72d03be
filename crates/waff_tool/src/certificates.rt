//! Plans with their printed chains, which show how short the plans are.

ghost use Rattle.std.specs.Prelude.{◌≡◌, IfOk, length};
ghost use Rattle.waff_assign.specs.Case.{instance_of};
ghost use Rattle.waff_plan.specs.Chain.{IsListed};
ghost use Rattle.waff_plan.specs.Timetable.{timings_of, work_of_messages};
ghost use Rattle.waff_plan.specs.Timing.{start_of};
ghost use Rattle.waff_list.specs.Seating.{worker_of};
ghost use Rattle.waff_list.specs.Unique.{AreSeated};
ghost use Rattle.waff_tool.specs.Certificates.{IsBounded, IsCertified};

use std::alloc::{AllocError, Global};
use waff_assign::Case;
use waff_list::{Rule, WorkerPlan, list_plan_of};
use waff_plan::printed::{chain, linked_chain};
use waff_plan::unlimited::linked_plan;
use waff_plan::{Chain, Plan, Workers};

/// An unlimited plan, with its printed chain.
#[derive(Drop)]
pub struct Certified {
    pub plan: Plan,
    pub chain: Chain,
}

/// A plan for k workers, with its printed chain.
#[derive(Drop)]
pub struct Bounded {
    pub made: WorkerPlan,
    pub chain: Chain,
}

/// The unlimited plan of a case.
pub fn certified_plan(alloc: Global, case: &Case<'_>) -> Result<Certified, AllocError>
    ensures version { IfOk result (λ found. found.plan.version ≡ case.now.trace.now.version) }
    ensures timings { IfOk result (λ found.
        found.plan.timings ≡ timings_of case.now.trace.now.messages) }
    ensures listed { IfOk result (λ found.
        IsListed (length found.plan.timings) found.chain.messages) }
    ensures certified { IfOk result (λ found. IsCertified (instance_of case.now)
        (start_of found.plan.starts) found.chain.messages) }
{
    let made = linked_plan(alloc, case)?;
    let (plan, links) = made;
    let _messages = plan.len();
    let chain = linked_chain(alloc, case.tree, case.assigned, &plan, links.as_slice())?;
    Ok(Certified { plan, chain })
}

/// The plan of a case by this rule for k workers.
pub fn bounded_plan(
    alloc: Global,
    case: &Case<'_>,
    rule: Rule,
    k: Workers,
) -> Result<Bounded, AllocError>
    ensures version { IfOk result (λ found.
        found.made.plan.version ≡ case.now.trace.now.version) }
    ensures timings { IfOk result (λ found.
        found.made.plan.timings ≡ timings_of case.now.trace.now.messages) }
    ensures seated { IfOk result (λ found. AreSeated
        (work_of_messages case.now.trace.now.messages)
        (start_of found.made.plan.starts) (worker_of found.made.seats)) }
    ensures listed { IfOk result (λ found.
        IsListed (length found.made.plan.timings) found.chain.messages) }
    ensures bounded { IfOk result (λ found. IsBounded rule (instance_of case.now) k
        (start_of found.made.plan.starts) found.chain.messages) }
{
    let made = list_plan_of(alloc, *case, rule, k.number())?;
    let plan = made.plan();
    let _messages = plan.len();
    let chain = chain(alloc, case.tree, case.assigned, plan)?;
    Ok(Bounded { made, chain })
}
