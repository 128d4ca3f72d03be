//! What is asked of a trace under a hierarchy, told.
ghost use Rattle.std.specs.Prelude.{◌≡◌, ◌<◌, ℕ, List, IfOk, length, string_bytes};
ghost use Rattle.waff_model.specs.Unique.{AtMostOne};
ghost use Rattle.waff_assign.specs.Lowest.{IsAssignment};
ghost use Rattle.waff_inputs.specs.Deliveries.{Delivers, Makes};
ghost use Rattle.waff_inputs.specs.Inputs.{IsToldUnder, Refuses, instance_under};
ghost use Rattle.waff_tool.specs.Told.{Tells, numbers_or};

use crate::assigns::assigned_text;
use crate::limits::limited_text;
use crate::needs::needed_text;
use crate::plans::planned_text;
use crate::sweeps::swept_text;
use crate::waits::{Waiting, waited_text};
use crate::wheres::spent_text;
use crate::why::lifted_text;
use std::alloc::{AllocError, Global};
use std::io::Write;
use std::thread::Threads;
use waff_figures::Told;
use waff_inputs::{Accepted, ToolError, accept_by_threads, deliver};
use waff_locks::{Wanted, locks_text};
use waff_plan::Workers;

/// Writes what is asked of the trace under the hierarchy. Nothing is written before the whole text is
/// made.
pub fn told_text<R: Threads + Sync, W: Write>(
    rt: &R,
    alloc: Global,
    hierarchy: &[u8],
    trace: &[u8],
    told: &Told,
    writer: &mut W,
) -> Result<(), ToolError>
    ensures { Delivers (λ _ text. IsToldUnder (Tells told.now) hierarchy.now trace.now text)
        (Refuses hierarchy.now trace.now) (W.contents writer.old) (W.contents writer.new) result }
{
    deliver(writer, made_text(rt, alloc, hierarchy, trace, told))
}

fn made_text<R: Threads + Sync>(
    rt: &R,
    alloc: Global,
    hierarchy: &[u8],
    trace: &[u8],
    told: &Told,
) -> Result<String, ToolError>
    ensures { Makes
        (λ text. IsToldUnder (Tells told.now) hierarchy.now trace.now (string_bytes text))
        (Refuses hierarchy.now trace.now) result }
{
    let accepted = accept_by_threads(rt, alloc, hierarchy, trace)?;
    let text = text_of(rt, alloc, &accepted, told).map_err(ToolError::from);
    drop(accepted);
    text
}

/// The text of what was accepted.
fn text_of<R: Threads + Sync>(
    rt: &R,
    alloc: Global,
    accepted: &Accepted,
    told: &Told,
) -> Result<String, AllocError>
    requires assignment { IsAssignment accepted.now.layout accepted.now.trace.messages
        accepted.now.assigned }
    ensures { IfOk result (λ text. Tells told.now accepted.now.layout
        (instance_under accepted.now.layout accepted.now.assigned accepted.now.trace)
        (string_bytes text)) }
{
    let case = accepted.case();
    match told {
        Told::Assign => assigned_text(alloc, &case),
        Told::Plan(workers, rule) => planned_text(alloc, &case, *workers, *rule),
        Told::Needs => needed_text(alloc, &case),
        Told::Sweep(given, rule) => swept_text(rt, alloc, &case, given, *rule),
        Told::Limits(given, rule) => {
            limited_text(
                rt,
                alloc,
                &accepted.layout,
                &case,
                numbers_or(given, &[]),
                *rule,
            )
        }
        Told::Where(workers, rule, label, columns) => {
            let locks = accepted.layout.has_locks();
            spent_text(alloc, &case, *workers, *rule, *label, *columns, locks)
        }
        Told::Waits(workers, rule, grouping) => waited_text(
            alloc,
            &accepted.layout,
            &case,
            *workers,
            *rule,
            Waiting::Rows(*grouping),
        ),
        Told::Worst(workers, rule, most) => waited_text(
            alloc,
            &accepted.layout,
            &case,
            *workers,
            *rule,
            Waiting::Worst(*most),
        ),
        Told::Why(grouping) => lifted_text(alloc, accepted, *grouping),
        Told::Locks(workers, rule, kind, steps) => {
            let wanted = Wanted {
                workers: *workers,
                rule: *rule,
                kind: *kind,
                steps: *steps,
            };
            locks_text(rt, alloc, &accepted.layout, &accepted.trace, &wanted)
        }
    }
}

/// The numbers that are given, or else these.
pub(crate) fn numbers_or<'a>(given: &'a Option<Vec<Workers>>, usual: &'a [Workers]) -> &'a [Workers]
    ensures { result.now ≡ numbers_or given.now usual.now }
{
    match given {
        Some(numbers) => numbers.as_slice(),
        None => usual,
    }
}

/// What is told of a trace under a hierarchy is one text.
pub fn told_text_is_one()
    ensures equal { (told : Told) (hierarchy_file trace_file : List ℕ)
        → AtMostOne (IsToldUnder (Tells told) hierarchy_file trace_file) }
{}
