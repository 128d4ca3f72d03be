//! How good a plan is, whoever made it.
ghost use Rattle.std.specs.Prelude.{◌≡◌, ◌≢◌, ℕ, List, IfOk, IfErr};
ghost use Rattle.std.specs.Prelude.{length, string_bytes};
ghost use Rattle.waff_assign.specs.Case.{instance_of};
ghost use Rattle.waff_list.specs.declared.rule.Rule.{Rule};
ghost use Rattle.waff_plan_text.specs.Lines.{text_of};
ghost use Rattle.waff_inputs.specs.Deliveries.{Delivers, Makes};
ghost use Rattle.waff_inputs.specs.Inputs.{Accepts};
ghost use Rattle.waff_tool.specs.Ahead.{IsReadOf};
ghost use Rattle.waff_tool.specs.CheckText.{RefusesCheck};
ghost use Rattle.waff_tool.specs.Rate.{IsRateText, IsRated, OwnPlanIsSwept, OwnWorkerPlanIsSwept};
ghost use Rattle.waff_tool.specs.Rate.{RateTextIsOne, RatedIsChecked, rated_lines};

use crate::ahead::{ReadAhead, accept_beside, plan_read};
use crate::checks::verdict_of;
use crate::verdict_line::VerdictFields;
use std::alloc::{AllocError, Global};
use std::io::Write;
use std::thread::Threads;
use waff_assign::Case;
use waff_check::{GivenPlan, Verdict};
use waff_figures::figures::least_is_lower_bound;
use waff_figures::{Figures, figures_of, limit_of, push_rate};
use waff_inputs::{ToolError, deliver};
use waff_plan::Planned;
use waff_plan::unlimited::plan;

/// The verdict on a plan, and the text that tells how good the plan is.
#[derive(Drop)]
struct Rating {
    verdict: Verdict,
    text: String,
}

/// Writes how good the plan is that the text gives for the trace under the hierarchy, whatever the
/// verdict on it, and answers the verdict. Nothing is written before the whole text is made.
pub fn rate_text<R: Threads + Sync, W: Write>(
    rt: &R,
    alloc: Global,
    hierarchy: &[u8],
    trace: &[u8],
    plan: &[u8],
    writer: &mut W,
) -> Result<Verdict, ToolError>
    ensures { Delivers (IsRateText hierarchy.now trace.now plan.now)
        (RefusesCheck hierarchy.now trace.now plan.now)
        (W.contents writer.old) (W.contents writer.new) result }
{
    let Rating { verdict, text } = made_rating(rt, alloc, hierarchy, trace, plan)?;
    deliver(writer, Ok(text))?;
    Ok(verdict)
}

/// The rating of the plan of the text. The hierarchy is read first, then the trace.
#[tactic(auto, using(crate::proofs::CheckRefusals::files_refuse))]
fn made_rating<R: Threads + Sync>(
    rt: &R,
    alloc: Global,
    hierarchy: &[u8],
    trace: &[u8],
    plan: &[u8],
) -> Result<Rating, ToolError>
    ensures { Makes (λ rating. IsRateText hierarchy.now trace.now plan.now
        rating.verdict (string_bytes rating.text))
        (RefusesCheck hierarchy.now trace.now plan.now) result }
{
    let (accepted, ahead) = accept_beside(rt, alloc, hierarchy, trace, plan)?;
    let rating = rating_on(rt, alloc, &accepted.case(), plan, ahead);
    drop(accepted);
    rating
}

/// The rating of the plan of the text for a case.
#[tactic(auto, using(crate::proofs::CheckRefusals::plan_refuses))]
fn rating_on<R: Threads + Sync>(
    rt: &R,
    alloc: Global,
    case: &Case<'_>,
    plan: &[u8],
    ahead: ReadAhead,
) -> Result<Rating, ToolError>
    requires ahead { IsReadOf plan.now ahead }
    ensures made { IfOk result (λ rating. (hierarchy trace : List ℕ)
        → Accepts hierarchy trace (instance_of case.now)
        → IsRateText hierarchy trace plan.now rating.verdict (string_bytes rating.text)) }
    ensures refused { IfErr result (λ e. (hierarchy trace : List ℕ)
        → Accepts hierarchy trace (instance_of case.now)
        → RefusesCheck hierarchy trace plan.now e) }
    ensures nothing { IfErr result (λ e. e ≢ ToolError.Write) }
{
    let given = plan_read(alloc, case.trace.version(), case.trace.len(), plan, ahead)?;
    let verdict = verdict_of(rt, alloc, case, &given)?;
    let figures = given_figures(alloc, case, &given)?;
    drop(given);
    let text = rated_text(alloc, verdict, &figures)?;
    Ok(Rating { verdict, text })
}

/// The figures of a plan that is given, of the starts in its rows, for the number of workers that
/// its summary tells.
fn given_figures(alloc: Global, case: &Case<'_>, given: &GivenPlan) -> Result<Figures, AllocError>
    requires rows { length given.now.rows ≡ length case.now.trace.now.messages }
    ensures { IfOk result (IsRated (instance_of case.now) given.now) }
{
    let _rows = given.len();
    let unlimited = plan(alloc, case.tree, case.assigned, case.trace)?;
    let shortest = unlimited.length();
    drop(unlimited);
    let _affinities = case.tree.len();
    let _messages = case.trace.len();
    let handed = given.plan(alloc, case.trace)?;
    let planned = Planned {
        case: *case,
        plan: &handed,
    };
    least_is_lower_bound();
    let figures = figures_of(alloc, &planned, limit_of(given.workers()), shortest);
    drop(handed);
    figures
}

/// The text of a rating.
fn rated_text(alloc: Global, verdict: Verdict, figures: &Figures) -> Result<String, AllocError>
    ensures { IfOk result (λ text. string_bytes text ≡ text_of (rated_lines verdict figures.now)) }
{
    let mut text = String::new(alloc);
    writeln!(text, "verdict,{}", VerdictFields(verdict))?;
    push_rate(&mut text, figures)?;
    Ok(text)
}

/// The text that rates a plan text of a hierarchy and a trace is one.
pub fn rate_text_is_one()
    ensures equal { (hierarchy_file trace_file plan_file : List ℕ)
        → RateTextIsOne hierarchy_file trace_file plan_file }
{}

/// The verdict that it tells is that of the check.
pub fn rated_is_checked()
    ensures equal { (hierarchy_file trace_file plan_file : List ℕ)
        → RatedIsChecked hierarchy_file trace_file plan_file }
{}

/// The figures of the plan that is printed without workers are those of the last line of a sweep, by
/// whichever rule.
pub fn own_plan_is_swept()
    ensures equal { (rule : Rule) (hierarchy_file trace_file : List ℕ)
        → OwnPlanIsSwept rule hierarchy_file trace_file }
{}

/// The figures of the plan that is printed for k workers are those of a line for k of a sweep by the
/// same rule.
pub fn own_worker_plan_is_swept()
    ensures equal { (rule : Rule) (hierarchy_file trace_file : List ℕ)
        → OwnWorkerPlanIsSwept rule hierarchy_file trace_file }
{}
