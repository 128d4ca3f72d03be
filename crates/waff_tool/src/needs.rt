//! The command `needs`: what whoever runs the messages has to wait for.
ghost use Rattle.std.specs.Prelude.{◌≡◌, ℕ, List, [], ◌∷◌, IfOk};
ghost use Rattle.std.specs.Prelude.{OnOk, decimal, length, map, string_bytes};
ghost use Rattle.std.specs.List.{range_with_len};
ghost use Rattle.waff_assign.specs.Case.{instance_of};
ghost use Rattle.waff_plan_text.specs.Lines.{Adds, line_text, text_of};
ghost use Rattle.waff_plan_text.specs.Spelling.{numbers_field};
ghost use Rattle.waff_tool.specs.NeedsText.{TellsNeeds, needs_lines, needs_row};

use std::alloc::{AllocError, Global};
use waff_assign::Case;
use waff_order::Needs;
use waff_order::predecessors::needs;
use waff_plan_text::{push_field, push_numbers};

/// The text of the needs of the messages of a case: who waits for them waits for each earlier message
/// that excludes it.
pub(crate) fn needed_text(alloc: Global, case: &Case<'_>) -> Result<String, AllocError>
    ensures { IfOk result (λ text. TellsNeeds (instance_of case.now) (string_bytes text)) }
{
    let needs = needs(alloc, case.tree, case.assigned)?;
    let text = listed_text(alloc, &needs);
    drop(needs);
    text
}

/// The lines of these needs.
fn listed_text(alloc: Global, needs: &Needs) -> Result<String, AllocError>
    ensures { IfOk result (λ text. string_bytes text ≡ text_of (needs_lines needs.now)) }
{
    let mut text = String::new(alloc);
    text.push_str("message,needs\n")?;
    push_needs_rows(&mut text, needs)?;
    Ok(text)
}

/// Appends the lines of all messages.
fn push_needs_rows(text: &mut String, needs: &Needs) -> Result<(), AllocError>
    ensures { OnOk result (Adds text.old text.new
        (text_of (map (needs_row needs.now) (range_with_len 1 (length needs.now))))) }
{
    for n in 1..needs.len() + 1 {
        push_needs_row(text, n, needs.of(n))?;
    }
    Ok(())
}

/// Appends the line of one message.
fn push_needs_row(text: &mut String, message: u32, needs: &[u32]) -> Result<(), AllocError>
    ensures { OnOk result (Adds text.old text.new
        (line_text (decimal message ∷ numbers_field needs.now ∷ []))) }
{
    push_field(text, u64::from(message))?;
    push_numbers(text, needs)?;
    text.push('\n')
}
