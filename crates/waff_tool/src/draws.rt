//! The picture of a plan.
ghost use Rattle.std.specs.Prelude.{◌≡◌, ◌≢◌, ℕ, List, IfOk, IfErr};
ghost use Rattle.std.specs.Prelude.{length, string_bytes};
ghost use Rattle.waff_model.specs.Unique.{AtMostOne};
ghost use Rattle.waff_assign.specs.Case.{instance_of};
ghost use Rattle.waff_inputs.specs.Deliveries.{Delivers, Makes};
ghost use Rattle.waff_inputs.specs.Inputs.{Accepts};
ghost use Rattle.waff_tool.specs.Ahead.{IsReadOf};
ghost use Rattle.waff_tool.specs.CheckText.{RefusesCheck};
ghost use Rattle.waff_draw.specs.Scene.{scene_of};
ghost use Rattle.waff_tool.specs.DrawText.{IsDrawText, picture_of};

use crate::ahead::{ReadAhead, accept_beside, plan_read};
use std::alloc::{AllocError, Global};
use std::io::Write;
use std::thread::Threads;
use waff_assign::Case;
use waff_check::GivenPlan;
use waff_draw::{Part, Picture, events_text, svg_text};
use waff_inputs::{ToolError, deliver};

/// Writes the picture of this part of the plan that the text gives for the trace under the
/// hierarchy, whether or not the plan obeys. Nothing is written before the whole picture is made.
pub fn draw_text<R: Threads + Sync, W: Write>(
    rt: &R,
    alloc: Global,
    hierarchy: &[u8],
    trace: &[u8],
    plan: &[u8],
    picture: Picture,
    part: Part,
    writer: &mut W,
) -> Result<(), ToolError>
    ensures { Delivers (λ _ text. IsDrawText hierarchy.now trace.now plan.now picture part text)
        (RefusesCheck hierarchy.now trace.now plan.now) (W.contents writer.old) (W.contents writer.new) result }
{
    deliver(
        writer,
        made_picture(rt, alloc, hierarchy, trace, plan, picture, part),
    )
}

#[tactic(auto, using(crate::proofs::CheckRefusals::files_refuse))]
fn made_picture<R: Threads + Sync>(
    rt: &R,
    alloc: Global,
    hierarchy: &[u8],
    trace: &[u8],
    plan: &[u8],
    picture: Picture,
    part: Part,
) -> Result<String, ToolError>
    ensures { Makes (λ text.
        IsDrawText hierarchy.now trace.now plan.now picture part (string_bytes text))
        (RefusesCheck hierarchy.now trace.now plan.now) result }
{
    let (accepted, ahead) = accept_beside(rt, alloc, hierarchy, trace, plan)?;
    let text = picture_on(alloc, &accepted.case(), plan, ahead, picture, part);
    drop(accepted);
    text
}

/// The picture of this part of the plan of the text for a case.
#[tactic(auto, using(crate::proofs::CheckRefusals::plan_refuses))]
fn picture_on(
    alloc: Global,
    case: &Case<'_>,
    plan: &[u8],
    ahead: ReadAhead,
    picture: Picture,
    part: Part,
) -> Result<String, ToolError>
    requires ahead { IsReadOf plan.now ahead }
    ensures made { IfOk result (λ text. (hierarchy trace : List ℕ)
        → Accepts hierarchy trace (instance_of case.now)
        → IsDrawText hierarchy trace plan.now picture part (string_bytes text)) }
    ensures refused { IfErr result (λ e. (hierarchy trace : List ℕ)
        → Accepts hierarchy trace (instance_of case.now)
        → RefusesCheck hierarchy trace plan.now e) }
    ensures nothing { IfErr result (λ e. e ≢ ToolError.Write) }
{
    let given = plan_read(alloc, case.trace.version(), case.trace.len(), plan, ahead)?;
    let text = pictured(alloc, case, &given, picture, part)?;
    drop(given);
    Ok(text)
}

/// The picture of this part of a plan that is given.
fn pictured(
    alloc: Global,
    case: &Case<'_>,
    given: &GivenPlan,
    picture: Picture,
    part: Part,
) -> Result<String, AllocError>
    requires rows { length given.now.rows ≡ length case.now.trace.now.messages }
    ensures { IfOk result (λ text. string_bytes text
        ≡ picture_of picture (scene_of (instance_of case.now) given.now part)) }
{
    match picture {
        Picture::Svg => svg_text(alloc, case, given, part),
        Picture::Events => events_text(alloc, case, given, part),
    }
}

/// The picture of a part of a plan text of a hierarchy and a trace is one.
pub fn draw_text_is_one()
    ensures equal { (hierarchy_file trace_file plan_file : List ℕ) (picture : Picture)
        (part : Part) → AtMostOne (IsDrawText hierarchy_file trace_file plan_file picture part) }
{}
