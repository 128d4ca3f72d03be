//! The text that tells who waits for whom.

ghost use Rattle.std.specs.Prelude.{◌≡◌, true, All, IfOk, IfSome, List, OnOk, length};
ghost use Rattle.std.specs.Prelude.{map, string_bytes, []};
ghost use Rattle.waff_assign.specs.Order.{affinity_name};
ghost use Rattle.waff_model.specs.Versions.{has_clients};
ghost use Rattle.waff_plan.specs.Obeys.{Obeys};
ghost use Rattle.waff_plan.specs.Planned.{planned_order, planned_pairs, planned_starts};
ghost use Rattle.waff_plan.specs.Planned.{planned_work};
ghost use Rattle.waff_plan.specs.Work.{IsAmongFirst};
ghost use Rattle.waff_plan_text.specs.Lines.{Adds, line_text, text_of};
ghost use Rattle.waff_figures.specs.ByName.{message_names};
ghost use Rattle.waff_figures.specs.Waits.{AreWaits, IsWaitAmong};
ghost use Rattle.waff_figures.specs.WaitRows.{AreRows, same_kind};
ghost use Rattle.waff_figures.specs.WaitText.{are_alike, by_field, for_field, name_at, waits_header};
ghost use Rattle.waff_figures.specs.WaitText.{waits_lines, waits_row};
ghost use Rattle.waff_figures.specs.declared.wait_rows.Row.{Row as RowOf};
ghost use Rattle.waff_figures.specs.declared.waits.Wait.{Wait as WaitOf};

use crate::grouping::Grouping;
use crate::wait_groups::groups;
use crate::wait_locks::LockCells;
use crate::wait_rows::{Row, rows};
use crate::waits::waits;
use std::alloc::{AllocError, Global};
use waff_assign::Case;
use waff_model::Cell;
use waff_plan::Planned;

/// The text that tells for each pair of affinities how long messages of the one wait for messages
/// of the other, and by name for each pair of names and affinities; where there are locks, apart for the space of the
/// lock by which they do. A plan of a trace with clients has to obey.
pub fn waiting_text(
    alloc: Global,
    planned: &Planned<'_>,
    grouping: Grouping,
    locks: &LockCells<'_>,
) -> Result<String, AllocError>
    requires served { has_clients planned.now.plan.now.version ≡ true
        → Obeys (planned_order planned.now) (planned_work planned.now) (planned_starts planned.now) }
    ensures { IfOk result (λ text. (waits : List WaitOf) × (rows : List RowOf)
        × AreWaits planned.now.case.tree.now planned.now.case.assigned.now
        (planned_pairs planned.now) (planned_work planned.now) (planned_starts planned.now) waits
        × AreRows (same_kind (are_alike grouping planned.now.case.assigned.now
        (message_names planned.now.case.trace.now.messages)) locks.now.cells.now) waits rows
        × (string_bytes text ≡ text_of (waits_lines grouping locks.now.layout.now.spaces
        locks.now.cells.now planned.now.case.tree.now planned.now.case.assigned.now
        (message_names planned.now.case.trace.now.messages) rows))) }
{
    let rows = waiting_rows(alloc, planned, grouping, locks.cells)?;
    let mut text = String::new(alloc);
    push_header(&mut text, grouping, locks.are_some)?;
    push_rows(&mut text, &planned.case, grouping, locks, rows.as_slice())?;
    Ok(text)
}

/// What is told of the waits of the plan.
fn waiting_rows(
    alloc: Global,
    planned: &Planned<'_>,
    grouping: Grouping,
    cells: &[Cell],
) -> Result<Vec<Row>, AllocError>
    requires served { has_clients planned.now.plan.now.version ≡ true
        → Obeys (planned_order planned.now) (planned_work planned.now) (planned_starts planned.now) }
    ensures rows { IfOk result (λ rows. (waits : List WaitOf)
        × AreWaits planned.now.case.tree.now planned.now.case.assigned.now
        (planned_pairs planned.now) (planned_work planned.now) (planned_starts planned.now) waits
        × AreRows (same_kind (are_alike grouping planned.now.case.assigned.now
        (message_names planned.now.case.trace.now.messages)) cells.now) waits rows.items) }
    ensures among { IfOk result (λ rows.
        All (λ row. IsWaitAmong (length planned.now.case.assigned.now) row.first) rows.items) }
{
    let waits = waits(alloc, planned)?;
    let groups = groups(alloc, &planned.case, grouping)?;
    rows(alloc, waits.as_slice(), groups.as_slice(), cells)
}

/// Appends the first line.
fn push_header(text: &mut String, grouping: Grouping, locks: bool) -> Result<(), AllocError>
    ensures { OnOk result (Adds text.old text.new
        (line_text (waits_header grouping locks))) }
{
    text.push_str(header(grouping, locks))
}

/// The first line, with its end.
fn header(grouping: Grouping, locks: bool) -> &'static str
    ensures { result.now ≡ line_text (waits_header grouping locks) }
{
    match (grouping, locks) {
        (Grouping::Affinity, false) => "affinity,for,messages,ticks,longest\n",
        (Grouping::Affinity, true) => "affinity,for,by,messages,ticks,longest\n",
        (Grouping::Name, false) => "name,affinity,forname,foraffinity,messages,ticks,longest\n",
        (Grouping::Name, true) => "name,affinity,forname,foraffinity,by,messages,ticks,longest\n",
    }
}

/// Appends the lines of all rows.
fn push_rows(
    text: &mut String,
    case: &Case<'_>,
    grouping: Grouping,
    locks: &LockCells<'_>,
    rows: &[Row],
) -> Result<(), AllocError>
    requires among { All (λ row. IsWaitAmong (length case.now.assigned.now) row.first) rows.now }
    ensures { OnOk result (Adds text.old text.new
        (text_of
        (map (waits_row grouping locks.now.layout.now.spaces locks.now.cells.now case.now.tree.now
        case.now.assigned.now (message_names case.now.trace.now.messages)) rows.now))) }
{
    for row in rows {
        push_row(text, case, grouping, locks, row)?;
    }
    Ok(())
}

/// Appends the line of a row.
fn push_row(
    text: &mut String,
    case: &Case<'_>,
    grouping: Grouping,
    locks: &LockCells<'_>,
    row: &Row,
) -> Result<(), AllocError>
    requires among { IsWaitAmong (length case.now.assigned.now) row.now.first }
    ensures { OnOk result (Adds text.old text.new
        (line_text (waits_row grouping locks.now.layout.now.spaces locks.now.cells.now case.now.tree.now
        case.now.assigned.now (message_names case.now.trace.now.messages) row.now))) }
{
    match grouping {
        Grouping::Affinity => push_affinity_row(text, case, locks, row),
        Grouping::Name => push_name_row(text, case, locks, row),
    }
}

/// Appends the line of a pair of affinities.
fn push_affinity_row(
    text: &mut String,
    case: &Case<'_>,
    locks: &LockCells<'_>,
    row: &Row,
) -> Result<(), AllocError>
    requires among { IsWaitAmong (length case.now.assigned.now) row.now.first }
    ensures { OnOk result (Adds text.old text.new
        (line_text (waits_row Grouping.Affinity locks.now.layout.now.spaces locks.now.cells.now
        case.now.tree.now case.now.assigned.now [] row.now))) }
{
    let affinity = case.affinity_name(row.first.message);
    let on = affinity_waited_for(case, row.first.on);
    let Row {
        messages,
        ticks,
        longest,
        ..
    } = *row;
    if locks.are_some {
        let by = space_waited_for(locks, row.first.by);
        writeln!(text, "{affinity},{on},{by},{messages},{ticks},{longest}")
    } else {
        writeln!(text, "{affinity},{on},{messages},{ticks},{longest}")
    }
}

/// Appends the line of a pair of names and affinities.
fn push_name_row(
    text: &mut String,
    case: &Case<'_>,
    locks: &LockCells<'_>,
    row: &Row,
) -> Result<(), AllocError>
    requires among { IsWaitAmong (length case.now.assigned.now) row.now.first }
    ensures { OnOk result (Adds text.old text.new
        (line_text (waits_row Grouping.Name locks.now.layout.now.spaces locks.now.cells.now
        case.now.tree.now case.now.assigned.now (message_names case.now.trace.now.messages) row.now))) }
{
    let name = message_name(case, row.first.message);
    let affinity = case.affinity_name(row.first.message);
    let on_name = name_waited_for(case, row.first.on);
    let on_affinity = affinity_waited_for(case, row.first.on);
    let Row {
        messages,
        ticks,
        longest,
        ..
    } = *row;
    if locks.are_some {
        let by = space_waited_for(locks, row.first.by);
        writeln!(
            text,
            "{name},{affinity},{on_name},{on_affinity},{by},{messages},{ticks},{longest}"
        )
    } else {
        writeln!(
            text,
            "{name},{affinity},{on_name},{on_affinity},{messages},{ticks},{longest}"
        )
    }
}

/// The name of the affinity of what is waited for, `-` for a worker.
fn affinity_waited_for<'a>(case: &Case<'a>, on: Option<u32>) -> &'a str
    requires message { IfSome on (IsAmongFirst (length case.now.assigned.now)) }
    ensures { result.now ≡ for_field
        (affinity_name case.now.tree.now case.now.assigned.now) on }
{
    match on {
        Some(n) => case.affinity_name(n),
        None => "-",
    }
}

/// The name of the space of the lock by which a message waits, `-` where it waits by none.
fn space_waited_for<'a>(locks: &LockCells<'a>, by: Option<u32>) -> &'a str
    ensures { result.now ≡ by_field locks.now.layout.now.spaces locks.now.cells.now by }
{
    match locks.cell(by) {
        Some(cell) => locks.layout.space_name(cell.space),
        None => "-",
    }
}

/// The name of message `n`.
pub(crate) fn message_name<'a>(case: &Case<'a>, n: u32) -> &'a str
    requires message { IsAmongFirst (length case.now.assigned.now) n }
    ensures { result.now ≡ name_at (message_names case.now.trace.now.messages) n }
{
    case.trace.message(n).name.as_str()
}

/// The name of the message that is waited for, `-` for a worker.
fn name_waited_for<'a>(case: &Case<'a>, on: Option<u32>) -> &'a str
    requires message { IfSome on (IsAmongFirst (length case.now.assigned.now)) }
    ensures { result.now ≡ for_field (name_at (message_names case.now.trace.now.messages)) on }
{
    match on {
        Some(n) => message_name(case, n),
        None => "-",
    }
}
