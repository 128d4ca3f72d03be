//! The command `plan`: for a number of workers, or with no limit on them.
ghost use Rattle.std.specs.Prelude.{◌<◌, IfOk, IfSome};
ghost use Rattle.std.specs.Prelude.{length, string_bytes};
ghost use Rattle.waff_assign.specs.Case.{instance_of};
ghost use Rattle.waff_plan.specs.Bound.{IsWorkers};
ghost use Rattle.waff_inputs.specs.Deliveries.{Delivers, Makes};
ghost use Rattle.waff_inputs.specs.Inputs.{IsToldUnder, Refuses};
ghost use Rattle.waff_tool.specs.PlanText.{TellsLeastPlan, TellsPlan, TellsWorkerPlan};
ghost use Rattle.waff_tool.specs.Told.{Tells};

use crate::certificates::{bounded_plan, certified_plan};
use std::alloc::{AllocError, Global};
use std::io::Write;
use waff_assign::Case;
use waff_figures::{Told, limit_of};
use waff_inputs::{ToolError, accept, deliver};
use waff_list::Rule;
use waff_plan::{Planned, Workers};
use waff_plan_text::{unlimited_text, worker_text};

/// Writes the plan of the trace under the hierarchy for this number of workers, or with no limit on
/// them where there is no number, for a caller without threads. A worker that is free takes the message
/// that arrived first. Nothing is written before the whole text is made.
pub fn plan_text<W: Write>(
    alloc: Global,
    hierarchy: &[u8],
    trace: &[u8],
    workers: Option<u32>,
    writer: &mut W,
) -> Result<(), ToolError>
    requires workers { IfSome workers IsWorkers }
    ensures { Delivers (λ _ text.
        IsToldUnder (Tells (Told.Plan workers Rule.Arrival)) hierarchy.now trace.now text)
        (Refuses hierarchy.now trace.now) (W.contents writer.old) (W.contents writer.new) result }
{
    deliver(
        writer,
        made_plan_text(alloc, hierarchy, trace, limit_of(workers)),
    )
}

fn made_plan_text(
    alloc: Global,
    hierarchy: &[u8],
    trace: &[u8],
    workers: Option<Workers>,
) -> Result<String, ToolError>
    ensures { Makes (λ text. IsToldUnder (Tells (Told.Plan workers Rule.Arrival))
        hierarchy.now trace.now (string_bytes text))
        (Refuses hierarchy.now trace.now) result }
{
    let accepted = accept(alloc, hierarchy, trace)?;
    let text = planned_text(alloc, &accepted.case(), workers, Rule::Arrival).map_err(
        ToolError::from,
    );
    drop(accepted);
    text
}

/// The text of the plan of a case by this rule. Without a number of workers each message starts as early
/// as it can, whatever the rule.
pub(crate) fn planned_text(
    alloc: Global,
    case: &Case<'_>,
    workers: Option<Workers>,
    rule: Rule,
) -> Result<String, AllocError>
    ensures { IfOk result
        (λ text. TellsPlan rule workers (instance_of case.now) (string_bytes text)) }
{
    match workers {
        None => least_plan_text(alloc, case),
        Some(k) => worker_plan_text(alloc, case, k, rule),
    }
}

/// The text of the unlimited plan.
fn least_plan_text(alloc: Global, case: &Case<'_>) -> Result<String, AllocError>
    ensures { IfOk result (λ text. TellsLeastPlan (instance_of case.now) (string_bytes text)) }
{
    let certified = certified_plan(alloc, case)?;
    let planned = Planned {
        case: *case,
        plan: &certified.plan,
    };
    let text = unlimited_text(alloc, &planned, certified.chain.messages());
    drop(certified);
    text
}

/// The text of the list plan by this rule for k workers.
fn worker_plan_text(
    alloc: Global,
    case: &Case<'_>,
    k: Workers,
    rule: Rule,
) -> Result<String, AllocError>
    ensures { IfOk result
        (λ text. TellsWorkerPlan rule k (instance_of case.now) (string_bytes text)) }
{
    let bounded = bounded_plan(alloc, case, rule, k)?;
    let plan = bounded.made.plan();
    let planned = Planned { case: *case, plan };
    let chain = bounded.chain.messages();
    let text = worker_text(alloc, &planned, k.number(), bounded.made.seats(), chain);
    drop(bounded);
    text
}
