//! The text that tells why messages run so high.

ghost use Rattle.std.specs.Prelude.{◌≡◌, ◌++◌, ◌∷◌, [], All, IfOk, List, OnOk, decimal, length, map, string_bytes};
ghost use Rattle.waff_model.specs.Layout.{IsCell};
ghost use Rattle.waff_model.specs.Numbers.{IsAmongFirst};
ghost use Rattle.waff_read.specs.Spellings.{cell_spelled};
ghost use Rattle.waff_assign.specs.Lowest.{IsAssignment};
ghost use Rattle.waff_plan_text.specs.Lines.{Adds, line_text, text_of};
ghost use Rattle.waff_figures.specs.ByName.{label_at, message_names};
ghost use Rattle.waff_figures.specs.WaitText.{are_alike};
ghost use Rattle.waff_limits.specs.Lifted.{AreLifts, IsTold};
ghost use Rattle.waff_limits.specs.WhyLines.{lift_fields, other_cell, other_owner, owner_name};
ghost use Rattle.waff_limits.specs.WhyLines.{why_header, why_lines, why_row};
ghost use Rattle.waff_limits.specs.WhyRows.{AreRows, same_kind};
ghost use Rattle.waff_limits.specs.declared.lifted.Lift.{Lift as LiftOf};
ghost use Rattle.waff_limits.specs.declared.why_rows.Row.{Row as RowOf};

use crate::cell_text::push_cell;
use crate::laid::Laid;
use crate::lifted::{Lift, lifts};
use crate::why_rows::{Row, rows};
use std::alloc::{AllocError, Global};
use waff_figures::{Grouping, groups};
use waff_model::{Cell, Layout};
use waff_plan_text::push_field;

/// The text that tells for each affinity, by name for each affinity and name, which owners of two cells lift messages to it.
pub fn lifting_text(
    alloc: Global,
    laid: &Laid<'_>,
    grouping: Grouping,
) -> Result<String, AllocError>
    requires assignment { IsAssignment laid.now.layout.now laid.now.case.trace.now.messages
        laid.now.case.assigned.now }
    ensures { IfOk result (λ text. (lifts : List LiftOf) × (rows : List RowOf)
        × AreLifts laid.now.layout.now laid.now.case.trace.now.messages laid.now.case.assigned.now lifts
        × AreRows (same_kind (are_alike grouping laid.now.case.assigned.now
        (message_names laid.now.case.trace.now.messages)) laid.now.layout.now.spaces) lifts rows
        × (string_bytes text ≡ text_of (why_lines grouping laid.now.layout.now
        laid.now.case.assigned.now (message_names laid.now.case.trace.now.messages) rows))) }
{
    let rows = lifting_rows(alloc, laid, grouping)?;
    let mut text = String::new(alloc);
    push_header(&mut text, grouping)?;
    push_rows(&mut text, laid, grouping, rows.as_slice())?;
    Ok(text)
}

/// What is told of the messages that run high.
fn lifting_rows(alloc: Global, laid: &Laid<'_>, grouping: Grouping) -> Result<Vec<Row>, AllocError>
    requires assignment { IsAssignment laid.now.layout.now laid.now.case.trace.now.messages
        laid.now.case.assigned.now }
    ensures rows { IfOk result (λ rows. (lifts : List LiftOf)
        × AreLifts laid.now.layout.now laid.now.case.trace.now.messages laid.now.case.assigned.now lifts
        × AreRows (same_kind (are_alike grouping laid.now.case.assigned.now
        (message_names laid.now.case.trace.now.messages)) laid.now.layout.now.spaces) lifts rows.items) }
    ensures told { IfOk result (λ rows. All (λ row. IsTold laid.now.layout.now.spaces
        (length laid.now.case.assigned.now) row.first) rows.items) }
{
    let lifts = lifts(alloc, laid)?;
    let groups = groups(alloc, &laid.case, grouping)?;
    rows(alloc, laid.layout, lifts.as_slice(), groups.as_slice())
}

/// Appends the first line.
fn push_header(text: &mut String, grouping: Grouping) -> Result<(), AllocError>
    ensures { OnOk result (Adds text.old text.new (line_text (why_header grouping))) }
{
    match grouping {
        Grouping::Affinity => {
            text.push_str("affinity,first,second,messages,cost,message,cell,other\n")
        }
        Grouping::Name => {
            text.push_str("affinity,name,first,second,messages,cost,message,cell,other\n")
        }
    }
}

/// Appends the lines of all rows.
fn push_rows(
    text: &mut String,
    laid: &Laid<'_>,
    grouping: Grouping,
    rows: &[Row],
) -> Result<(), AllocError>
    requires told { All (λ row. IsTold laid.now.layout.now.spaces
        (length laid.now.case.assigned.now) row.first) rows.now }
    ensures { OnOk result (Adds text.old text.new
        (text_of (map (why_row grouping laid.now.layout.now laid.now.case.assigned.now
        (message_names laid.now.case.trace.now.messages)) rows.now))) }
{
    for row in rows {
        push_row(text, laid, grouping, row)?;
    }
    Ok(())
}

/// Appends the line of a row.
fn push_row(
    text: &mut String,
    laid: &Laid<'_>,
    grouping: Grouping,
    row: &Row,
) -> Result<(), AllocError>
    requires told { IsTold laid.now.layout.now.spaces (length laid.now.case.assigned.now) row.now.first }
    ensures { OnOk result (Adds text.old text.new
        (line_text (why_row grouping laid.now.layout.now laid.now.case.assigned.now
        (message_names laid.now.case.trace.now.messages) row.now))) }
{
    match grouping {
        Grouping::Affinity => push_affinity_row(text, laid, row),
        Grouping::Name => push_name_row(text, laid, row),
    }
}

/// Appends the line of an affinity.
fn push_affinity_row(text: &mut String, laid: &Laid<'_>, row: &Row) -> Result<(), AllocError>
    requires told { IsTold laid.now.layout.now.spaces (length laid.now.case.assigned.now) row.now.first }
    ensures { OnOk result (Adds text.old text.new
        (line_text (why_row Grouping.Affinity laid.now.layout.now laid.now.case.assigned.now [] row.now))) }
{
    push_name(text, laid.case.affinity_name(row.first.message))?;
    push_fields(text, laid.layout, row)
}

/// Appends the line of an affinity and a name.
fn push_name_row(text: &mut String, laid: &Laid<'_>, row: &Row) -> Result<(), AllocError>
    requires told { IsTold laid.now.layout.now.spaces (length laid.now.case.assigned.now) row.now.first }
    ensures { OnOk result (Adds text.old text.new
        (line_text (why_row Grouping.Name laid.now.layout.now laid.now.case.assigned.now
        (message_names laid.now.case.trace.now.messages) row.now))) }
{
    push_name(text, laid.case.affinity_name(row.first.message))?;
    push_name(text, message_name(laid, row.first.message))?;
    push_fields(text, laid.layout, row)
}

/// The name of message `n`.
fn message_name<'a>(laid: &Laid<'a>, n: u32) -> &'a str
    requires message { IsAmongFirst (length laid.now.case.assigned.now) n }
    ensures { result.now ≡ label_at (message_names laid.now.case.trace.now.messages) n }
{
    laid.case.trace.message(n).name.as_str()
}

/// Appends the fields of a row behind those of its message, and the end of the line.
fn push_fields(text: &mut String, layout: &Layout, row: &Row) -> Result<(), AllocError>
    requires cell { IsCell layout.now.spaces row.now.first.cell }
    requires other { IsCell layout.now.spaces row.now.first.other }
    ensures { OnOk result (Adds text.old text.new (line_text (lift_fields layout.now row.now))) }
{
    push_name(text, owner_name(layout, row.first.cell))?;
    push_name(text, other_owner(layout, &row.first))?;
    push_counts(text, layout, row)
}

/// The name of the owner of the cell.
fn owner_name(layout: &Layout, cell: Cell) -> &str
    requires { IsCell layout.now.spaces cell }
    ensures { result.now ≡ owner_name layout.now cell }
{
    layout.tree().name(layout.owner(cell))
}

/// The name of the owner of the other cell, `-` where the first lifts alone.
fn other_owner<'a>(layout: &'a Layout, lift: &Lift) -> &'a str
    requires { IsCell layout.now.spaces lift.now.other }
    ensures { result.now ≡ other_owner layout.now lift.now }
{
    if lift.cell == lift.other {
        "-"
    } else {
        owner_name(layout, lift.other)
    }
}

/// Appends how many messages a row tells of and their cost, the first of them with its cells, and the end of the line.
fn push_counts(text: &mut String, layout: &Layout, row: &Row) -> Result<(), AllocError>
    requires cell { IsCell layout.now.spaces row.now.first.cell }
    requires other { IsCell layout.now.spaces row.now.first.other }
    ensures { OnOk result (Adds text.old text.new
        (line_text (decimal row.now.messages ∷ decimal row.now.cost ∷ decimal row.now.first.message
        ∷ cell_spelled layout.now.spaces row.now.first.cell
        ∷ other_cell layout.now row.now.first ∷ []))) }
{
    push_field(text, u64::from(row.messages))?;
    push_field(text, row.cost)?;
    push_field(text, u64::from(row.first.message))?;
    push_cells(text, layout, &row.first)
}

/// Appends the two cells, and the end of the line.
fn push_cells(text: &mut String, layout: &Layout, lift: &Lift) -> Result<(), AllocError>
    requires cell { IsCell layout.now.spaces lift.now.cell }
    requires other { IsCell layout.now.spaces lift.now.other }
    ensures { OnOk result (Adds text.old text.new (line_text (cell_spelled layout.now.spaces lift.now.cell
        ∷ other_cell layout.now lift.now ∷ []))) }
{
    push_cell(text, layout, lift.cell)?;
    text.push(',')?;
    push_other(text, layout, lift)?;
    text.push('\n')
}

/// Appends the other cell, `-` where the first lifts alone.
fn push_other(text: &mut String, layout: &Layout, lift: &Lift) -> Result<(), AllocError>
    requires { IsCell layout.now.spaces lift.now.other }
    ensures { OnOk result (Adds text.old text.new (other_cell layout.now lift.now)) }
{
    if lift.cell == lift.other {
        text.push('-')
    } else {
        push_cell(text, layout, lift.other)
    }
}

/// Appends a name, and a comma.
fn push_name(text: &mut String, name: &str) -> Result<(), AllocError>
    ensures { OnOk result (Adds text.old text.new (name.now ++ 44 ∷ [])) }
{
    text.push_str(name)?;
    text.push(',')
}
