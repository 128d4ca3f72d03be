//! The command `assign`, and the text of an assignment.
ghost use Rattle.std.specs.Prelude.{◌≡◌, [], ◌∷◌, IfOk};
ghost use Rattle.std.specs.Prelude.{OnOk, decimal, length, map, string_bytes};
ghost use Rattle.std.specs.List.{range_with_len};
ghost use Rattle.waff_assign.specs.Case.{instance_of};
ghost use Rattle.waff_plan_text.specs.Lines.{Adds, line_text, text_of};
ghost use Rattle.waff_inputs.specs.Deliveries.{Delivers, Makes};
ghost use Rattle.waff_inputs.specs.Inputs.{IsToldUnder, Refuses};
ghost use Rattle.waff_tool.specs.AssignText.{TellsAssignment, assign_row};
ghost use Rattle.waff_tool.specs.Told.{Tells};

use std::alloc::{AllocError, Global};
use std::io::Write;
use waff_assign::Case;
use waff_figures::Told;
use waff_inputs::{ToolError, accept, deliver};
use waff_plan_text::push_field;

/// Writes the affinity of each message of the trace under the hierarchy, for a caller without threads.
/// Nothing is written before the whole text is made.
pub fn assign_text<W: Write>(
    alloc: Global,
    hierarchy: &[u8],
    trace: &[u8],
    writer: &mut W,
) -> Result<(), ToolError>
    ensures { Delivers
        (λ _ text. IsToldUnder (Tells Told.Assign) hierarchy.now trace.now text)
        (Refuses hierarchy.now trace.now) (W.contents writer.old) (W.contents writer.new) result }
{
    deliver(writer, made_assign_text(alloc, hierarchy, trace))
}

fn made_assign_text(alloc: Global, hierarchy: &[u8], trace: &[u8]) -> Result<String, ToolError>
    ensures { Makes
        (λ text. IsToldUnder (Tells Told.Assign) hierarchy.now trace.now (string_bytes text))
        (Refuses hierarchy.now trace.now) result }
{
    let accepted = accept(alloc, hierarchy, trace)?;
    let text = assigned_text(alloc, &accepted.case()).map_err(ToolError::from);
    drop(accepted);
    text
}

/// The lines of an assignment.
pub(crate) fn assigned_text(alloc: Global, case: &Case<'_>) -> Result<String, AllocError>
    ensures { IfOk result
        (λ text. TellsAssignment (instance_of case.now) (string_bytes text)) }
{
    let mut text = String::new(alloc);
    text.push_str("message,name,affinity\n")?;
    push_assigned_rows(&mut text, case)?;
    Ok(text)
}

/// Appends the lines of all messages.
fn push_assigned_rows(text: &mut String, case: &Case<'_>) -> Result<(), AllocError>
    ensures { OnOk result (Adds text.old text.new
        (text_of (map (assign_row (instance_of case.now))
        (range_with_len 1 (length case.now.trace.now.messages))))) }
{
    for n in 1..case.trace.len() + 1 {
        let name = case.trace.message(n).name.as_str();
        push_assigned_row(text, n, name, case.affinity_name(n))?;
    }
    Ok(())
}

/// Appends the line of one message.
fn push_assigned_row(
    text: &mut String,
    message: u32,
    name: &str,
    affinity: &str,
) -> Result<(), AllocError>
    ensures { OnOk result (Adds text.old text.new
        (line_text (decimal message ∷ name.now ∷ affinity.now ∷ []))) }
{
    push_field(text, u64::from(message))?;
    text.push_str(name)?;
    text.push(',')?;
    text.push_str(affinity)?;
    text.push('\n')
}
