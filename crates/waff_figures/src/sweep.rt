//! The sweep over numbers of workers.

ghost use Rattle.std.specs.Prelude.{◌≡◌, ◌<◌, All, IfOk, IfSome, OnOk, Some, length, map};
ghost use Rattle.std.specs.Prelude.{slice_index, string_bytes};
ghost use Rattle.waff_assign.specs.Case.{instance_of};
ghost use Rattle.waff_plan.specs.Bound.{IsWorkers};
ghost use Rattle.waff_plan.specs.Obeys.{IsLeast};
ghost use Rattle.waff_plan.specs.Planned.{planned_order, planned_starts, planned_work};
ghost use Rattle.waff_plan.specs.Timetable.{starts_in, timings_of, work_in};
ghost use Rattle.waff_plan.specs.Work.{length_of};
ghost use Rattle.waff_plan_text.specs.Lines.{Adds, line_text, text_of};
ghost use Rattle.waff_list.specs.Served.{IsPlanServed};
ghost use Rattle.waff_figures.specs.Sweep.{AreListed, AreNeedsOf, IsListed};
ghost use Rattle.waff_figures.specs.Sweep.{sweep_header, sweep_lines, sweep_row, sweep_workers};

use crate::fields::{BusyField, QUALITY, QualityFields};
use crate::figures::{Figures, figures_of, least_is_lower_bound};
use crate::limit::workers_of;
use crate::slots::{all_made, sides};
use std::alloc::{AllocError, Global};
use std::thread;
use std::thread::Threads;
use waff_assign::Case;
use waff_list::laws::needs_make_the_same_plans;
use waff_list::{Rule, WorkerPlan, list_plan_by, list_plan_of};
use waff_order::Needs;
use waff_order::predecessors::needs;
use waff_plan::{Planned, Workers};
use waff_plan_text::{Ratio, WorkerField};

/// The numbers of workers that a sweep tells of where none are asked for.
pub static SWEEP_WORKERS: [u32; 12] = [1, 2, 3, 4, 6, 8, 12, 16, 24, 32, 48, 64];

/// The numbers of workers that a sweep tells of where none are asked for.
pub fn sweep_workers(alloc: Global) -> Result<Vec<Workers>, AllocError>
    ensures { IfOk result (λ usual. usual.items ≡ sweep_workers) }
{
    let numbers = usual_numbers();
    let mut usual = Vec::with_capacity(alloc, numbers.len())?;
    for k in numbers {
        usual.push_reserved(workers_of(*k));
    }
    Ok(usual)
}

/// The same as numbers.
fn usual_numbers() -> &'static [u32]
    ensures listed { result.now ≡ sweep_workers }
    ensures fit { All IsWorkers result.now }
{
    &SWEEP_WORKERS
}

/// The figures of the list plans by this rule for these numbers of workers, in their order, where
/// this is the unlimited plan. Without clients all these plans are in the order of the trace and have
/// the same needs. The plans are made side by side.
pub fn list_figures<R: Threads + Sync>(
    rt: &R,
    alloc: Global,
    unlimited: &Planned<'_>,
    rule: Rule,
    workers: &[Workers],
) -> Result<Vec<Figures>, AllocError>
    requires least { IsLeast (planned_order unlimited.now) (planned_work unlimited.now)
        (planned_starts unlimited.now) }
    ensures { IfOk result (λ listed. AreListed rule (instance_of unlimited.now.case)
        (length_of (planned_work unlimited.now) (planned_starts unlimited.now))
        workers.now listed.items) }
{
    if unlimited.plan.version().has_clients() {
        return figures_by(rt, alloc, unlimited, None, rule, workers);
    }
    let needs = needs(alloc, unlimited.case.tree, unlimited.case.assigned)?;
    figures_by(rt, alloc, unlimited, Some(&needs), rule, workers)
}

/// The same figures, with the needs where they are known.
fn figures_by<R: Threads + Sync>(
    rt: &R,
    alloc: Global,
    unlimited: &Planned<'_>,
    needs: Option<&Needs>,
    rule: Rule,
    workers: &[Workers],
) -> Result<Vec<Figures>, AllocError>
    requires needs { IfSome needs (λ needs. AreNeedsOf unlimited.now.case needs.now) }
    requires least { IsLeast (planned_order unlimited.now) (planned_work unlimited.now)
        (planned_starts unlimited.now) }
    ensures { IfOk result (λ listed. AreListed rule (instance_of unlimited.now.case)
        (length_of (planned_work unlimited.now) (planned_starts unlimited.now))
        workers.now listed.items) }
{
    let mut made = vec![in alloc; None; workers.len()]?;
    let one = move |place: usize, made: &mut Option<Figures>|
        requires place { place < length workers.now }
        requires needs { IfSome needs (λ needs. AreNeedsOf unlimited.now.case needs.now) }
        requires least { IsLeast (planned_order unlimited.now) (planned_work unlimited.now)
            (planned_starts unlimited.now) }
        ensures workers { IfSome made.new (λ figures.
            figures.workers ≡ Some (slice_index workers.entry.now place)) }
        ensures listed { IfSome made.new (IsListed rule (instance_of unlimited.entry.now.case)
            (length_of (planned_work unlimited.entry.now) (planned_starts unlimited.entry.now))) }
    { *made = figures_for(alloc, unlimited, needs, rule, workers[place]).ok() };
    let threads = sides(rt, unlimited.plan.len());
    thread::for_each_mut(rt, made.as_mut_slice(), threads, &one);
    all_made(alloc, made.as_slice())
}

/// The figures of the list plan by this rule for k workers, where this is the unlimited plan.
pub fn list_figures_for(
    alloc: Global,
    unlimited: &Planned<'_>,
    rule: Rule,
    k: Workers,
) -> Result<Figures, AllocError>
    requires least { IsLeast (planned_order unlimited.now) (planned_work unlimited.now)
        (planned_starts unlimited.now) }
    ensures workers { IfOk result (λ figures. figures.workers ≡ Some k) }
    ensures listed { IfOk result (IsListed rule (instance_of unlimited.now.case)
        (length_of (planned_work unlimited.now) (planned_starts unlimited.now))) }
{
    figures_for(alloc, unlimited, None, rule, k)
}

/// The figures of the list plan by this rule for k workers, with the needs where they are known.
fn figures_for(
    alloc: Global,
    unlimited: &Planned<'_>,
    needs: Option<&Needs>,
    rule: Rule,
    k: Workers,
) -> Result<Figures, AllocError>
    requires needs { IfSome needs (λ needs. AreNeedsOf unlimited.now.case needs.now) }
    requires least { IsLeast (planned_order unlimited.now) (planned_work unlimited.now)
        (planned_starts unlimited.now) }
    ensures workers { IfOk result (λ figures. figures.workers ≡ Some k) }
    ensures listed { IfOk result (IsListed rule (instance_of unlimited.now.case)
        (length_of (planned_work unlimited.now) (planned_starts unlimited.now))) }
{
    let _affinities = unlimited.case.tree.len();
    let _messages = unlimited.case.trace.len();
    let _fits = k.number();
    let made = planned_for(alloc, unlimited.case, needs, rule, k)?;
    least_is_lower_bound();
    let planned = Planned {
        case: unlimited.case,
        plan: made.plan(),
    };
    let figures = figures_of(alloc, &planned, Some(k), unlimited.plan.length());
    drop(made);
    figures
}

/// The list plan by this rule for k workers, with the needs where they are known.
fn planned_for(
    alloc: Global,
    case: Case<'_>,
    needs: Option<&Needs>,
    rule: Rule,
    k: Workers,
) -> Result<WorkerPlan, AllocError>
    requires needs { IfSome needs (λ needs. AreNeedsOf case needs.now) }
    ensures version { IfOk result (λ made. made.plan.version ≡ case.entry.trace.now.version) }
    ensures timings { IfOk result (λ made.
        made.plan.timings ≡ timings_of case.entry.trace.now.messages) }
    ensures follows { IfOk result (λ made. IsPlanServed case.entry.trace.now.version rule
        case.entry.tree.now case.entry.assigned.now
        (work_in made.plan) k (starts_in made.plan)) }
{
    match needs {
        Some(needs) => {
            needs_make_the_same_plans();
            list_plan_by(alloc, needs, case.trace, rule, k.number())
        }
        None => list_plan_of(alloc, case, rule, k.number()),
    }
}

/// The text of the figures of the list plans and of the unlimited plan.
pub fn figures_text(
    alloc: Global,
    listed: &[Figures],
    unlimited: &Figures,
) -> Result<String, AllocError>
    ensures { IfOk result (λ text.
        string_bytes text ≡ text_of (sweep_lines listed.now unlimited.now)) }
{
    let mut text = String::new(alloc);
    push_header(&mut text)?;
    push_rows(&mut text, listed)?;
    push_row(&mut text, unlimited)?;
    Ok(text)
}

/// Appends the first line.
fn push_header(text: &mut String) -> Result<(), AllocError>
    ensures { OnOk result (Adds text.old text.new (line_text sweep_header)) }
{
    writeln!(text, "workers,length,speedup,busy,{QUALITY}")
}

/// Appends the lines of these plans.
fn push_rows(text: &mut String, rows: &[Figures]) -> Result<(), AllocError>
    ensures { OnOk result (Adds text.old text.new
        (text_of (map sweep_row rows.now))) }
{
    for figures in rows {
        push_row(text, figures)?;
    }
    Ok(())
}

/// Appends the line of one plan.
fn push_row(text: &mut String, figures: &Figures) -> Result<(), AllocError>
    ensures { OnOk result (Adds text.old text.new
        (line_text (sweep_row figures.now))) }
{
    let Figures {
        workers,
        total,
        length,
        ..
    } = *figures;
    let speedup = Ratio(total, u128::from(length));
    let busy = BusyField {
        workers,
        total,
        length,
    };
    let workers = WorkerField(workers);
    let quality = QualityFields(*figures);
    writeln!(text, "{workers},{length},{speedup},{busy},{quality}")
}
