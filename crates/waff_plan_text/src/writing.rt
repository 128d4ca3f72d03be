//! The writer of plan texts.

ghost use Rattle.std.specs.Prelude.{◌≡◌, [], ◌∷◌, IfOk, IfSome, OnOk, decimal, length};
ghost use Rattle.std.specs.Prelude.{map, option_copied, string_bytes};
ghost use Rattle.waff_plan.specs.Planned.{planned_starts, planned_work};
ghost use Rattle.waff_plan.specs.Bound.{IsWorkers};
ghost use Rattle.waff_plan.specs.Chain.{IsListed};
ghost use Rattle.waff_plan.specs.Timetable.{starts_in, work_in};
ghost use Rattle.waff_plan.specs.Work.{IsAmongFirst, numbers};
ghost use Rattle.waff_plan_text.specs.Lines.{Adds, line_text, text_of};
ghost use Rattle.waff_plan_text.specs.Spelling.{fields_behind, message_row, numbers_field};
ghost use Rattle.waff_plan_text.specs.Spelling.{plan_header, plan_lines, plan_row};
ghost use Rattle.waff_plan_text.specs.Spelling.{summary_line, summary_lines};
ghost use Rattle.waff_plan_text.specs.Spelling.{unlimited_lines, worker_field, worker_lines};
ghost use Rattle.waff_plan_text.specs.Spelling.{workers_of};
ghost use Rattle.waff_plan_text.specs.Table.{told_of};

use crate::numbers::{WorkerField, push_field, push_numbers};
use crate::row::COLUMNS;
use crate::table::{Line, all_lines};
use crate::timed::Timed;
use std::alloc::{AllocError, Global};
use waff_model::Version;
use waff_plan::{Planned, Totals};

/// The text of a plan without workers and of a chain of its messages.
pub fn unlimited_text(
    alloc: Global,
    planned: &Planned<'_>,
    chain: &[u32],
) -> Result<String, AllocError>
    requires chain { IsListed (planned_work planned.now).count chain.now }
    ensures { IfOk result (λ text. string_bytes text
        ≡ text_of (unlimited_lines planned.now.case.trace.now.version
        planned.now.case.tree.now planned.now.case.assigned.now
        (planned_work planned.now) (planned_starts planned.now) chain.now)) }
{
    manned_text(alloc, &Timed::of(planned), None, None, chain)
}

/// The text of a plan for workers, with the worker of each message, and of a chain of its messages.
pub fn worker_text(
    alloc: Global,
    planned: &Planned<'_>,
    workers: u32,
    seats: &[u32],
    chain: &[u32],
) -> Result<String, AllocError>
    requires workers { IsWorkers workers }
    requires seats { length seats.now ≡ (planned_work planned.now).count }
    requires chain { IsListed (planned_work planned.now).count chain.now }
    ensures { IfOk result (λ text. string_bytes text
        ≡ text_of (worker_lines planned.now.case.trace.now.version
        planned.now.case.tree.now planned.now.case.assigned.now
        (planned_work planned.now) workers (planned_starts planned.now) seats.now chain.now)) }
{
    manned_text(
        alloc,
        &Timed::of(planned),
        Some(workers),
        Some(seats),
        chain,
    )
}

/// The text of a plan for workers, as `worker_text` writes it, of messages whose timings may be others than those of their
/// trace.
pub fn timed_text(
    alloc: Global,
    timed: &Timed<'_>,
    workers: u32,
    seats: &[u32],
    chain: &[u32],
) -> Result<String, AllocError>
    requires workers { IsWorkers workers }
    requires seats { length seats.now ≡ (work_in timed.now.plan.now).count }
    requires chain { IsListed (work_in timed.now.plan.now).count chain.now }
    ensures { IfOk result (λ text. string_bytes text
        ≡ text_of (worker_lines timed.now.case.trace.now.version
        timed.now.case.tree.now timed.now.case.assigned.now (work_in timed.now.plan.now) workers
        (starts_in timed.now.plan.now) seats.now chain.now)) }
{
    manned_text(alloc, timed, Some(workers), Some(seats), chain)
}

/// The text of a plan and of a chain of its messages; `workers` and `seats` are none in a plan
/// without workers.
fn manned_text(
    alloc: Global,
    timed: &Timed<'_>,
    workers: Option<u32>,
    seats: Option<&[u32]>,
    chain: &[u32],
) -> Result<String, AllocError>
    requires workers { IfSome workers IsWorkers }
    requires seats { IfSome (option_copied seats)
        (λ seats. length seats ≡ (work_in timed.now.plan.now).count) }
    requires chain { IsListed (work_in timed.now.plan.now).count chain.now }
    ensures { IfOk result (λ text. string_bytes text
        ≡ text_of (plan_lines timed.now.case.trace.now.version timed.now.case.tree.now
        timed.now.case.assigned.now (work_in timed.now.plan.now) workers
        (starts_in timed.now.plan.now) (workers_of (option_copied seats.entry)) chain.now)) }
{
    let mut text = String::new(alloc);
    push_header(&mut text)?;
    push_rows(&mut text, timed, seats)?;
    let version = timed.case.trace.version();
    let totals = timed.plan.totals(workers, chain);
    push_summary(&mut text, version, workers, chain, &totals)?;
    Ok(text)
}

/// Appends the first line.
fn push_header(text: &mut String) -> Result<(), AllocError>
    ensures { OnOk result (Adds text.old text.new (line_text plan_header)) }
{
    let [message, affinity, start, finish, worker] = COLUMNS;
    writeln!(text, "{message},{affinity},{start},{finish},{worker}")
}

/// Appends the lines of all messages.
fn push_rows(text: &mut String, timed: &Timed<'_>, seats: Option<&[u32]>) -> Result<(), AllocError>
    requires seats { IfSome (option_copied seats)
        (λ seats. length seats ≡ (work_in timed.now.plan.now).count) }
    ensures { OnOk result (Adds text.old text.new
        (text_of (map (message_row timed.now.case.tree.now timed.now.case.assigned.now
        (work_in timed.now.plan.now) (starts_in timed.now.plan.now)
        (workers_of (option_copied seats.entry))) (numbers (work_in timed.now.plan.now))))) }
{
    let plan = timed.plan;
    for n in 1..plan.len() + 1 {
        let affinity = timed.case.affinity_name(n);
        let worker = worker_of(seats, n);
        push_plan_row(text, n, affinity, plan.start(n), plan.finish(n), worker)?;
    }
    Ok(())
}

/// The worker of message `n`, where messages have one.
fn worker_of(seats: Option<&[u32]>, n: u32) -> Option<u32>
    requires { IfSome (option_copied seats) (λ seats. IsAmongFirst (length seats) n) }
    ensures { result ≡ workers_of (option_copied seats.entry) n }
{
    match seats {
        Some(seats) => Some(seats[n as usize - 1]),
        None => None,
    }
}

/// Appends the line of one message.
fn push_plan_row(
    text: &mut String,
    message: u32,
    affinity: &str,
    start: u64,
    finish: u64,
    worker: Option<u32>,
) -> Result<(), AllocError>
    ensures { OnOk result (Adds text.old text.new
        (line_text (plan_row message affinity.now start finish worker))) }
{
    push_field(text, u64::from(message))?;
    text.push_str(affinity)?;
    text.push(',')?;
    push_planned(text, start, finish, worker)
}

/// Appends what is planned of a message, to the end of its line.
fn push_planned(
    text: &mut String,
    start: u64,
    finish: u64,
    worker: Option<u32>,
) -> Result<(), AllocError>
    ensures { OnOk result (Adds text.old text.new
        (line_text (decimal start ∷ decimal finish ∷ worker_field worker ∷ []))) }
{
    push_field(text, start)?;
    push_field(text, finish)?;
    writeln!(text, "{}", WorkerField(worker))
}

/// Appends the summary of a plan, `workers` being none in a plan without them.
fn push_summary(
    text: &mut String,
    version: Version,
    workers: Option<u32>,
    chain: &[u32],
    totals: &Totals,
) -> Result<(), AllocError>
    ensures { OnOk result (Adds text.old text.new
        (text_of (summary_lines version workers chain.now totals.now))) }
{
    let lines = all_lines();
    for line in lines {
        if !line.is_in(version) {
            continue;
        }
        push_line(text, *line, workers, chain, totals)?;
    }
    Ok(())
}

/// Appends one line of the summary.
fn push_line(
    text: &mut String,
    line: Line,
    workers: Option<u32>,
    chain: &[u32],
    totals: &Totals,
) -> Result<(), AllocError>
    ensures { OnOk result (Adds text.old text.new (line_text (summary_line
        (record { workers = workers; chain = chain.now; totals = totals.now }) line))) }
{
    text.push_str(line.name())?;
    text.push(',')?;
    push_told(text, line, workers, chain, totals)
}

/// Appends what a line of the summary tells, to its end.
fn push_told(
    text: &mut String,
    line: Line,
    workers: Option<u32>,
    chain: &[u32],
    totals: &Totals,
) -> Result<(), AllocError>
    ensures { OnOk result (Adds text.old text.new (line_text (fields_behind line (told_of line
        (record { workers = workers; chain = chain.now; totals = totals.now }))))) }
{
    match line {
        Line::Workers => writeln!(text, "{}", WorkerField(workers)),
        Line::Total => writeln!(text, "{}", totals.total),
        Line::Length => writeln!(text, "{}", totals.length),
        Line::Chain => push_chain(text, chain),
        Line::Release => writeln!(text, "{}", totals.release),
        Line::Cost => writeln!(text, "{}", totals.cost),
        Line::Bound => push_bound(text, totals.left, totals.right),
    }
}

/// Appends the messages of the chain, to the end of their line.
fn push_chain(text: &mut String, chain: &[u32]) -> Result<(), AllocError>
    ensures { OnOk result (Adds text.old text.new (line_text (numbers_field chain.now ∷ []))) }
{
    push_numbers(text, chain)?;
    text.push('\n')
}

/// Appends the two sides of the bound, to the end of their line.
fn push_bound(text: &mut String, left: u64, right: u64) -> Result<(), AllocError>
    ensures { OnOk result (Adds text.old text.new
        (line_text (decimal left ∷ decimal right ∷ []))) }
{
    push_field(text, left)?;
    writeln!(text, "{right}")
}
