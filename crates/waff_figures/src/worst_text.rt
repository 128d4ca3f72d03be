//! The text that tells of the messages that take longest.

ghost use Rattle.std.specs.Prelude.{◌≡◌, ◌-◌, [], ◌∷◌, ◌++◌, ℕ, true, All, IfOk, IfSome, List, None};
ghost use Rattle.std.specs.Prelude.{OnOk, Option, decimal, length, map, slice_index_or};
ghost use Rattle.std.specs.Prelude.{string_bytes};
ghost use Rattle.waff_assign.specs.Order.{affinity_name};
ghost use Rattle.waff_model.specs.Layout.{has_locks};
ghost use Rattle.waff_model.specs.Versions.{has_clients};
ghost use Rattle.waff_plan.specs.Obeys.{Obeys};
ghost use Rattle.waff_plan.specs.Planned.{planned_order, planned_pairs, planned_starts};
ghost use Rattle.waff_plan.specs.Planned.{planned_work};
ghost use Rattle.waff_plan.specs.Timetable.{clients_of, starts_in, work_in};
ghost use Rattle.waff_plan.specs.Waited.{AreWaitedFor};
ghost use Rattle.waff_plan.specs.Work.{IsAmongFirst, finish_of, issue_of};
ghost use Rattle.waff_plan_text.specs.Lines.{Adds, line_text, text_of};
ghost use Rattle.waff_figures.specs.ByName.{label_at, message_names};
ghost use Rattle.waff_figures.specs.Figures.{latency_of};
ghost use Rattle.waff_figures.specs.Waits.{ready_of};
ghost use Rattle.waff_figures.specs.WaitLocks.{AreBy};
ghost use Rattle.waff_figures.specs.WaitText.{field_where, for_field};
ghost use Rattle.waff_figures.specs.Worst.{AreWorst};
ghost use Rattle.waff_figures.specs.WorstText.{by_cell_field, fields_text, worst_header};
ghost use Rattle.waff_figures.specs.WorstText.{worst_lines, worst_row};

use crate::cell_text::push_cell;
use crate::figures::latency;
use crate::wait_locks::{LockCells, lock_of, locks_waited_for};
use crate::wait_text::message_name;
use crate::waits::ready;
use crate::worst::{Timed, worst};
use std::alloc::{AllocError, Global};
use waff_assign::Case;
use waff_plan::waited::waited;
use waff_plan::{Plan, Planned};
use waff_plan_text::push_field;

/// The text that tells of the messages of greatest latency, at most so many: when each is issued, is
/// ready, starts and has finished, which message it waited for, and where there are locks the cell of that by which it
/// did. A plan of a trace with clients has to obey.
pub fn worst_messages_text(
    alloc: Global,
    planned: &Planned<'_>,
    most: u32,
    locks: &LockCells<'_>,
) -> Result<String, AllocError>
    requires served { has_clients planned.now.plan.now.version ≡ true
        → Obeys (planned_order planned.now) (planned_work planned.now) (planned_starts planned.now) }
    ensures { IfOk result (λ text. (waited by : List (Option ℕ)) × (worst : List ℕ)
        × AreWaitedFor (planned_pairs planned.now) (planned_work planned.now)
        (planned_starts planned.now) (planned_work planned.now).count waited
        × AreBy planned.now.case.tree.now planned.now.case.assigned.now waited by
        × AreWorst most (planned_work planned.now).count
        (latency_of (planned_work planned.now) (planned_starts planned.now)) worst
        × (string_bytes text ≡ text_of (worst_lines locks.now.layout.now.spaces locks.now.cells.now
        planned.now.case.tree.now planned.now.case.assigned.now
        planned.now.case.trace.now.messages (planned_work planned.now)
        (planned_starts planned.now) waited by worst))) }
{
    let waited = waited(alloc, planned)?;
    let by = locks_waited_for(alloc, &planned.case, waited.as_slice())?;
    let worst = worst(alloc, planned.plan, most)?;
    let mut text = String::new(alloc);
    push_header(&mut text, locks.are_some)?;
    push_rows(
        &mut text,
        planned,
        locks,
        waited.as_slice(),
        by.as_slice(),
        worst.as_slice(),
    )?;
    Ok(text)
}

/// Appends the first line.
fn push_header(text: &mut String, locks: bool) -> Result<(), AllocError>
    ensures { OnOk result (Adds text.old text.new (line_text (worst_header locks))) }
{
    text.push_str(header(locks))
}

/// The first line, with its end.
fn header(locks: bool) -> &'static str
    ensures { result.now ≡ line_text (worst_header locks) }
{
    if locks {
        "message,name,affinity,client,issue,ready,start,finish,latency,for,forname,foraffinity,by\n"
    } else {
        "message,name,affinity,client,issue,ready,start,finish,latency,for,forname,foraffinity\n"
    }
}

/// Appends the lines of these messages.
fn push_rows(
    text: &mut String,
    planned: &Planned<'_>,
    locks: &LockCells<'_>,
    waited: &[Option<u32>],
    by: &[Option<u32>],
    worst: &[Timed],
) -> Result<(), AllocError>
    requires count { length waited.now ≡ length planned.now.case.assigned.now }
    requires among { All (λ timed.
        IsAmongFirst (length planned.now.case.assigned.now) timed.message) worst.now }
    requires known { All (λ on.
        IfSome on (IsAmongFirst (length planned.now.case.assigned.now))) waited.now }
    ensures { OnOk result (Adds text.old text.new (text_of (map (λ timed.
        worst_row locks.now.layout.now.spaces locks.now.cells.now planned.now.case.tree.now
        planned.now.case.assigned.now planned.now.case.trace.now.messages (planned_work planned.now)
        (planned_starts planned.now) timed.message
        (slice_index_or waited.now (timed.message - 1) None)
        (slice_index_or by.now (timed.message - 1) None)) worst.now))) }
{
    for timed in worst {
        let message = timed.message;
        let on = waited[message as usize - 1];
        push_row(text, planned, locks, message, on, lock_of(by, message))?;
    }
    Ok(())
}

/// Appends the line of a message, where it waited for this one by this lock.
fn push_row(
    text: &mut String,
    planned: &Planned<'_>,
    locks: &LockCells<'_>,
    message: u32,
    on: Option<u32>,
    by: Option<u32>,
) -> Result<(), AllocError>
    requires message { IsAmongFirst (length planned.now.case.assigned.now) message }
    requires on { IfSome on (IsAmongFirst (length planned.now.case.assigned.now)) }
    ensures { OnOk result (Adds text.old text.new (line_text (worst_row locks.now.layout.now.spaces
        locks.now.cells.now planned.now.case.tree.now planned.now.case.assigned.now
        planned.now.case.trace.now.messages (planned_work planned.now)
        (planned_starts planned.now) message on by))) }
{
    push_labels(text, &planned.case, message)?;
    push_times(text, planned.plan, message, on)?;
    push_waited_for(text, &planned.case, locks, on, by)
}

/// Appends the number of a message, its name, its affinity and its client, each with a comma.
fn push_labels(text: &mut String, case: &Case<'_>, message: u32) -> Result<(), AllocError>
    requires message { IsAmongFirst (length case.now.assigned.now) message }
    ensures { OnOk result (Adds text.old text.new (fields_text (decimal message
        ∷ label_at (message_names case.now.trace.now.messages) message
        ∷ affinity_name case.now.tree.now case.now.assigned.now message
        ∷ label_at (clients_of case.now.trace.now.messages) message ∷ []))) }
{
    push_field(text, u64::from(message))?;
    push_label(text, message_name(case, message))?;
    push_label(text, case.affinity_name(message))?;
    push_label(text, client_name(case, message))
}

/// Appends when a message is issued, is ready, starts and has finished, and how long it takes, each
/// with a comma.
fn push_times(
    text: &mut String,
    plan: &Plan,
    message: u32,
    on: Option<u32>,
) -> Result<(), AllocError>
    requires message { IsAmongFirst (length plan.now.timings) message }
    requires on { IfSome on (IsAmongFirst (length plan.now.timings)) }
    ensures { OnOk result (Adds text.old text.new (fields_text
        (decimal (issue_of (work_in plan.now) (starts_in plan.now) message)
        ∷ decimal (ready_of (work_in plan.now) (starts_in plan.now) message on)
        ∷ decimal (starts_in plan.now message)
        ∷ decimal (finish_of (work_in plan.now) (starts_in plan.now) message)
        ∷ decimal (latency_of (work_in plan.now) (starts_in plan.now) message) ∷ []))) }
{
    push_field(text, plan.issue(message))?;
    push_field(text, ready(plan, message, on))?;
    push_field(text, plan.start(message))?;
    push_field(text, plan.finish(message))?;
    push_field(text, latency(plan, message))
}

/// Appends the number, the name and the affinity of the message that is waited for, and where there are locks the
/// cell of this one, to the end of a line.
fn push_waited_for(
    text: &mut String,
    case: &Case<'_>,
    locks: &LockCells<'_>,
    on: Option<u32>,
    by: Option<u32>,
) -> Result<(), AllocError>
    requires on { IfSome on (IsAmongFirst (length case.now.assigned.now)) }
    ensures { OnOk result (Adds text.old text.new (line_text (for_field decimal on
        ∷ for_field (label_at (message_names case.now.trace.now.messages)) on
        ∷ for_field (affinity_name case.now.tree.now case.now.assigned.now) on
        ∷ field_where (has_locks locks.now.layout.now.spaces)
        (by_cell_field locks.now.layout.now.spaces locks.now.cells.now by)))) }
{
    match on {
        None => {
            text.push_str("-,-,")?;
            push_end(text, "-", locks, by)
        }
        Some(other) => {
            push_field(text, u64::from(other))?;
            push_label(text, message_name(case, other))?;
            push_end(text, case.affinity_name(other), locks, by)
        }
    }
}

/// Appends an affinity, and where there are locks the cell of this one, to the end of a line.
fn push_end(
    text: &mut String,
    affinity: &str,
    locks: &LockCells<'_>,
    by: Option<u32>,
) -> Result<(), AllocError>
    ensures { OnOk result (Adds text.old text.new (line_text (affinity.now
        ∷ field_where (has_locks locks.now.layout.now.spaces)
        (by_cell_field locks.now.layout.now.spaces locks.now.cells.now by)))) }
{
    text.push_str(affinity)?;
    if locks.are_some {
        text.push(',')?;
        push_by(text, locks, by)?;
    }
    text.push('\n')
}

/// Appends the cell of a lock, `-` where there is none.
fn push_by(text: &mut String, locks: &LockCells<'_>, by: Option<u32>) -> Result<(), AllocError>
    ensures { OnOk result (Adds text.old text.new
        (by_cell_field locks.now.layout.now.spaces locks.now.cells.now by)) }
{
    match locks.cell(by) {
        Some(cell) => push_cell(text, locks.layout, cell),
        None => text.push('-'),
    }
}

/// Appends a label and a comma.
fn push_label(text: &mut String, label: &str) -> Result<(), AllocError>
    ensures { OnOk result (Adds text.old text.new (label.now ++ 44 ∷ [])) }
{
    text.push_str(label)?;
    text.push(',')
}

/// The client of message `n`, `-` for a message of none.
fn client_name<'a>(case: &Case<'a>, n: u32) -> &'a str
    requires message { IsAmongFirst (length case.now.assigned.now) n }
    ensures { result.now ≡ label_at (clients_of case.now.trace.now.messages) n }
{
    case.trace.message(n).client.as_str()
}
