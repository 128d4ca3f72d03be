//! The check of a plan text.
ghost use Rattle.std.specs.Prelude.{◌≡◌, ◌≢◌, Ok, ℕ, List, IfOk, IfErr, length};
ghost use Rattle.std.specs.Prelude.{string_bytes};
ghost use Rattle.waff_assign.specs.Case.{instance_of};
ghost use Rattle.waff_check.specs.Promises.{Promises};
ghost use Rattle.waff_check.specs.Verdicts.{IsVerdict, claim_of};
ghost use Rattle.waff_inputs.specs.Deliveries.{Delivers, Makes};
ghost use Rattle.waff_inputs.specs.Inputs.{Accepts};
ghost use Rattle.waff_tool.specs.Ahead.{IsReadOf};
ghost use Rattle.waff_tool.specs.CheckText.{IsCheckText, RefusesCheck};
ghost use Rattle.waff_tool.specs.CheckText.{status_after, verdict_text};

use crate::ahead::{ReadAhead, accept_beside, plan_read};
use crate::verdict_line::VerdictFields;
use std::alloc::{AllocError, Global};
use std::io::Write;
use std::thread::Threads;
use waff_assign::Case;
use waff_check::{GivenPlan, Verdict, check};
use waff_inputs::{ToolError, deliver};

/// Writes the verdict on the plan that the text gives for the trace under the hierarchy, and
/// answers it. Pairs of messages are tested only where some overlap, in threads, to name the first.
/// Nothing is written before the whole line is made.
pub fn check_text<R: Threads + Sync, W: Write>(
    rt: &R,
    alloc: Global,
    hierarchy: &[u8],
    trace: &[u8],
    plan: &[u8],
    writer: &mut W,
) -> Result<Verdict, ToolError>
    ensures { Delivers (λ verdict text.
        IsCheckText hierarchy.now trace.now plan.now verdict × (text ≡ verdict_text verdict))
        (RefusesCheck hierarchy.now trace.now plan.now)
        (W.contents writer.old) (W.contents writer.new) result }
{
    let verdict = made_verdict(rt, alloc, hierarchy, trace, plan)?;
    let line = made_line(alloc, verdict)?;
    deliver(writer, Ok(line))?;
    Ok(verdict)
}

/// The verdict on the plan of the text. The hierarchy is read first, then the trace.
#[tactic(auto, using(crate::proofs::CheckRefusals::files_refuse))]
pub fn made_verdict<R: Threads + Sync>(
    rt: &R,
    alloc: Global,
    hierarchy: &[u8],
    trace: &[u8],
    plan: &[u8],
) -> Result<Verdict, ToolError>
    ensures { Makes (IsCheckText hierarchy.now trace.now plan.now)
        (RefusesCheck hierarchy.now trace.now plan.now) result }
{
    let (accepted, ahead) = accept_beside(rt, alloc, hierarchy, trace, plan)?;
    let verdict = verdict_on(rt, alloc, &accepted.case(), plan, ahead);
    drop(accepted);
    verdict
}

/// The verdict on the plan of the text for a case.
#[tactic(auto, using(crate::proofs::CheckRefusals::plan_refuses))]
fn verdict_on<R: Threads + Sync>(
    rt: &R,
    alloc: Global,
    case: &Case<'_>,
    plan: &[u8],
    ahead: ReadAhead,
) -> Result<Verdict, ToolError>
    requires ahead { IsReadOf plan.now ahead }
    ensures made { IfOk result (λ verdict. (hierarchy trace : List ℕ)
        → Accepts hierarchy trace (instance_of case.now)
        → IsCheckText hierarchy trace plan.now verdict) }
    ensures refused { IfErr result (λ e. (hierarchy trace : List ℕ)
        → Accepts hierarchy trace (instance_of case.now)
        → RefusesCheck hierarchy trace plan.now e) }
    ensures nothing { IfErr result (λ e. e ≢ ToolError.Write) }
{
    let given = plan_read(alloc, case.trace.version(), case.trace.len(), plan, ahead)?;
    let verdict = verdict_of(rt, alloc, case, &given)?;
    drop(given);
    Ok(verdict)
}

/// The verdict on a plan that was read for a case.
pub fn verdict_of<R: Threads + Sync>(
    rt: &R,
    alloc: Global,
    case: &Case<'_>,
    given: &GivenPlan,
) -> Result<Verdict, AllocError>
    requires rows { length given.now.rows ≡ length case.now.trace.now.messages }
    requires version { given.now.version ≡ case.now.trace.now.version }
    ensures verdict { IfOk result (IsVerdict (claim_of (instance_of case.now) given.now)) }
    ensures promises { IfOk result (Promises (claim_of (instance_of case.now) given.now)) }
{
    let verdict = check(rt, alloc, case.tree, case.assigned, case.trace, given)?;
    Ok(verdict)
}

/// The line of a verdict.
pub fn made_line(alloc: Global, verdict: Verdict) -> Result<String, AllocError>
    ensures { IfOk result (λ text. string_bytes text ≡ verdict_text verdict) }
{
    format!(in alloc; "{}\n", VerdictFields(verdict))
}

/// The exit status of the program after a verdict.
pub fn verdict_status(verdict: &Verdict) -> u8
    ensures { result ≡ status_after verdict.now }
{
    match verdict {
        Verdict::Obeys | Verdict::Shortest | Verdict::Tight | Verdict::WithinBound => 0,
        Verdict::Overlap { .. }
        | Verdict::TooManyAt { .. }
        | Verdict::Worker { .. }
        | Verdict::Affinity { .. }
        | Verdict::Finish { .. }
        | Verdict::Totals
        | Verdict::NotAChain { .. }
        | Verdict::Early { .. }
        | Verdict::Client { .. }
        | Verdict::After { .. } => 1,
    }
}
