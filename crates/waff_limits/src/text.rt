//! The text of what limits a workload.

ghost use Rattle.std.specs.Prelude.{◌≡◌, ◌<◌, IfOk, IfSome, OnOk, None, codes};
ghost use Rattle.std.specs.Prelude.{length, map, string_bytes};
ghost use Rattle.waff_model.specs.Layout.{IsCell};
ghost use Rattle.waff_model.specs.Messages.{sizes_of};
ghost use Rattle.waff_model.specs.Numbers.{IsAmongFirst};
ghost use Rattle.waff_assign.specs.Case.{instance_of};
ghost use Rattle.waff_plan.specs.Laws.{share_of};
ghost use Rattle.waff_plan.specs.Planned.{planned_starts};
ghost use Rattle.waff_plan_text.specs.Lines.{Adds, line_text, text_of};
ghost use Rattle.waff_limits.specs.Limits.{AreLimits, affinity_field, after_lines, bound_lines};
ghost use Rattle.waff_limits.specs.Limits.{cell_field, client_field, limit_row, limits_header};
ghost use Rattle.waff_limits.specs.Limits.{limits_lines, lock_lines, planned_row, ticks_of, work_row};

use crate::cell_text::push_cell;
use crate::data::CellUse;
use crate::limits::Limits;
use std::alloc::{AllocError, Global};
use waff_figures::Figures;
use waff_model::{AffinityId, Layout, Trace, Tree, Version};
use waff_plan::{Peak, Planned, Workers};
use waff_plan_text::{Ratio, WorkerField};

/// The text of what limits the messages of a case over this layout, of which this is the unlimited plan: the share of each of these
/// numbers of workers, what limits whatever the number, and these plans.
pub fn limits_text(
    alloc: Global,
    layout: &Layout,
    unlimited: &Planned<'_>,
    workers: &[Workers],
    limits: &Limits,
    listed: &[Figures],
) -> Result<String, AllocError>
    requires fits { unlimited.now.case.trace.now.sizes ≡ sizes_of layout.now.spaces }
    requires limits { AreLimits layout.now.spaces (instance_of unlimited.now.case)
        (planned_starts unlimited.now) limits.now }
    ensures { IfOk result (λ text. string_bytes text
        ≡ text_of (limits_lines layout.now.spaces unlimited.now.case.tree.now
        unlimited.now.case.trace.now workers.now limits.now listed.now)) }
{
    let mut text = String::new(alloc);
    push_header(&mut text)?;
    push_shares(&mut text, limits.total, workers)?;
    push_bounds(&mut text, alloc, layout, unlimited, limits)?;
    push_plans(&mut text, listed)?;
    Ok(text)
}

/// Appends the first line.
fn push_header(text: &mut String) -> Result<(), AllocError>
    ensures { OnOk result (Adds text.old text.new (line_text limits_header)) }
{
    writeln!(text, "limit,workers,length,speedup,at")
}

/// Appends the line of each number of workers: the share of one of them.
fn push_shares(text: &mut String, total: u64, workers: &[Workers]) -> Result<(), AllocError>
    ensures { OnOk result (Adds text.old text.new (text_of (map (work_row total) workers.now))) }
{
    for k in workers {
        let share = share(total, *k);
        push_row(text, "work", Some(k.number()), total, share, "-")?;
    }
    Ok(())
}

/// The share of one of k workers, rounded up.
fn share(total: u64, k: Workers) -> u64
    ensures { result ≡ share_of total k }
{
    total.div_ceil(u64::from(k.number()))
}

/// Appends the lines of what limits whatever the number of workers.
fn push_bounds(
    text: &mut String,
    alloc: Global,
    layout: &Layout,
    unlimited: &Planned<'_>,
    limits: &Limits,
) -> Result<(), AllocError>
    requires fits { unlimited.now.case.trace.now.sizes ≡ sizes_of layout.now.spaces }
    requires limits { AreLimits layout.now.spaces (instance_of unlimited.now.case)
        (planned_starts unlimited.now) limits.now }
    ensures { OnOk result (Adds text.old text.new (text_of (bound_lines layout.now.spaces
        unlimited.now.case.tree.now unlimited.now.case.trace.now limits.now))) }
{
    let Limits {
        total,
        client,
        after,
        writes,
        cell,
        path,
        locks,
        order,
    } = *limits;
    let case = &unlimited.case;
    let _messages = case.trace.len();
    let name = client_name(case.trace, client);
    push_row(text, "clients", None, total, client.ticks, name)?;
    push_after(text, alloc, case.trace.version(), total, after)?;
    push_data(text, alloc, layout, "writes", total, writes)?;
    push_data(text, alloc, layout, "data", total, cell)?;
    let name = affinity_name(case.tree, path);
    push_row(text, "tree", None, total, path.ticks, name)?;
    push_locks(text, alloc, layout, total, locks)?;
    push_row(text, "order", None, total, order, "-")?;
    Ok(())
}

/// Appends the line of what messages await by their lists too, where the version of the trace has lists.
fn push_after(
    text: &mut String,
    alloc: Global,
    version: Version,
    total: u64,
    after: Peak,
) -> Result<(), AllocError>
    ensures { OnOk result (Adds text.old text.new (text_of (after_lines version total after))) }
{
    if !version.has_after() {
        return Ok(());
    }
    if after.ticks == 0 {
        return push_row(text, "after", None, total, 0, "-");
    }
    let at = format!(in alloc; "{}", after.at)?;
    let pushed = push_row(text, "after", None, total, after.ticks, at.as_str());
    drop(at);
    pushed
}

/// The client of the message with the greatest finish, `-` where there is none.
fn client_name(trace: &Trace, peak: Peak) -> &str
    requires number { 0 < peak.ticks → IsAmongFirst (length trace.now.messages) peak.at }
    ensures { result.now ≡ client_field trace.now.messages peak }
{
    if peak.ticks == 0 {
        "-"
    } else {
        trace.message(peak.at).client.as_str()
    }
}

/// The name of the affinity with the greatest sum, `-` where no message has an affinity.
fn affinity_name(tree: &Tree, peak: Peak) -> &str
    requires known { 0 < peak.ticks → peak.at < length tree.now }
    ensures { result.now ≡ affinity_field tree.now peak }
{
    let _affinities = tree.len();
    if peak.ticks == 0 {
        "-"
    } else {
        tree.name(AffinityId(peak.at as u16))
    }
}

/// Appends the line of a limit that a cell is.
fn push_data(
    text: &mut String,
    alloc: Global,
    layout: &Layout,
    limit: &str,
    total: u64,
    cell: Option<CellUse>,
) -> Result<(), AllocError>
    requires known { IfSome cell (λ found. IsCell layout.now.spaces found.cell) }
    ensures { OnOk result (Adds text.old text.new (line_text (limit_row limit.now None total
        (ticks_of cell) (cell_field layout.now.spaces cell)))) }
{
    match cell {
        Some(CellUse { cell, ticks }) => {
            let mut at = String::new(alloc);
            push_cell(&mut at, layout, cell)?;
            let pushed = push_row(text, limit, None, total, ticks, at.as_str());
            drop(at);
            pushed
        }
        None => push_row(text, limit, None, total, 0, "-"),
    }
}

/// Appends the line of what messages need of locks, where a space has locks.
fn push_locks(
    text: &mut String,
    alloc: Global,
    layout: &Layout,
    total: u64,
    locks: Option<CellUse>,
) -> Result<(), AllocError>
    requires known { IfSome locks (λ found. IsCell layout.now.spaces found.cell) }
    ensures { OnOk result (Adds text.old text.new (text_of (lock_lines layout.now.spaces total locks))) }
{
    if layout.has_locks() {
        push_data(text, alloc, layout, "locks", total, locks)
    } else {
        Ok(())
    }
}

/// Appends the lines of these plans.
fn push_plans(text: &mut String, listed: &[Figures]) -> Result<(), AllocError>
    ensures { OnOk result (Adds text.old text.new (text_of (map planned_row listed.now))) }
{
    for figures in listed {
        push_row(
            text,
            "plan",
            figures.workers,
            figures.total,
            figures.length,
            "-",
        )?;
    }
    Ok(())
}

/// Appends one line.
fn push_row(
    text: &mut String,
    limit: &str,
    workers: Option<u32>,
    total: u64,
    length: u64,
    at: &str,
) -> Result<(), AllocError>
    ensures { OnOk result (Adds text.old text.new
        (line_text (limit_row limit.now workers total length at.now))) }
{
    let workers = WorkerField(workers);
    let speedup = Ratio(total, u128::from(length));
    writeln!(text, "{limit},{workers},{length},{speedup},{at}")
}
