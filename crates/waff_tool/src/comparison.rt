//! The command that compares two hierarchies on one trace.
ghost use Rattle.std.specs.Prelude.{◌≡◌, ◌≢◌, ◌||◌, Ok, ℕ, List, IfOk, IfErr};
ghost use Rattle.std.specs.Prelude.{false, length, string_bytes};
ghost use Rattle.std.specs.Thread.{IsSync};
ghost use Rattle.waff_assign.specs.Held.{AreKnown, AreUnlocked};
ghost use Rattle.waff_assign.specs.Order.{Refines};
ghost use Rattle.waff_model.specs.Layout.{SameSpaces, has_locks};
ghost use Rattle.waff_model.specs.Messages.{sizes_of};
ghost use Rattle.waff_plan.specs.Bound.{IsWorkers};
ghost use Rattle.waff_read.specs.Hierarchies.{hierarchy_of};
ghost use Rattle.waff_tool.specs.Comparison.{AreHierarchies, AreAssignedAndMeasured, AreModels, IsCompared};
ghost use Rattle.waff_tool.specs.Comparison.{IsCompareText, IsToldWhere, RefusesComparison, as_models};
ghost use Rattle.waff_tool.specs.Comparison.{models_in};
ghost use Rattle.waff_inputs.specs.Deliveries.{Delivers, Makes};
ghost use Rattle.waff_inputs.specs.Inputs.{IsRefusal, trace_over};

use crate::measures::{Measured, comparison_text, measure, measure_side_by_side};
use std::alloc::{AllocError, Global};
use std::io::Write;
use std::thread;
use std::thread::Threads;
use waff_assign::laws::unlocked_without_locks;
use waff_assign::{Assigned, Case, assign, assign_by_threads};
use waff_figures::workers_of;
use waff_inputs::{ToolError, deliver, read_numbered, read_trace, read_trace_by_threads};
use waff_model::{Kind, Layout, Trace};
use waff_order::refines;
use waff_plan::Workers;
use waff_plan::laws::refined_is_no_longer;

/// A classical and a hierarchical hierarchy.
#[derive(Drop)]
struct Models {
    classical: Layout,
    hierarchical: Layout,
}

/// Affinities of messages under a hierarchy, and what is told of it.
type Under = (Assigned, Measured);

/// Writes what the trace comes to under the classical and the hierarchical one of two hierarchies,
/// given in either order, for this number of workers, and whether the hierarchical one refines the
/// classical one on the trace. Nothing is written before the whole text is made.
pub fn compare_text<W: Write>(
    alloc: Global,
    first: &[u8],
    second: &[u8],
    trace: &[u8],
    workers: u32,
    writer: &mut W,
) -> Result<(), ToolError>
    requires workers { IsWorkers workers }
    ensures { Delivers (λ _ text. IsCompareText first.now second.now trace.now workers text)
        (RefusesComparison first.now second.now trace.now)
        (W.contents writer.old) (W.contents writer.new) result }
{
    deliver(
        writer,
        made_compare_text(alloc, first, second, trace, workers_of(workers)),
    )
}

/// Writes what `compare_text` writes. The trace is read by several threads where it is long, and
/// what is told of each hierarchy is made in threads of its own.
pub fn compare_text_by_threads<R: Threads + Sync, W: Write>(
    rt: &R,
    alloc: Global,
    first: &[u8],
    second: &[u8],
    trace: &[u8],
    workers: Workers,
    writer: &mut W,
) -> Result<(), ToolError>
    ensures { Delivers (λ _ text. IsCompareText first.now second.now trace.now workers text)
        (RefusesComparison first.now second.now trace.now)
        (W.contents writer.old) (W.contents writer.new) result }
{
    deliver(
        writer,
        made_by_threads(rt, alloc, first, second, trace, workers),
    )
}

#[tactic(auto, using(crate::proofs::ComparisonRefusals::files_refuse))]
fn made_compare_text(
    alloc: Global,
    first: &[u8],
    second: &[u8],
    trace: &[u8],
    k: Workers,
) -> Result<String, ToolError>
    ensures { Makes (λ text. IsCompareText first.now second.now trace.now k (string_bytes text))
        (RefusesComparison first.now second.now trace.now) result }
{
    let models = read_models(alloc, first, second)?;
    let text = models_text(alloc, &models, trace, k);
    drop(models);
    text
}

/// The text that compares the models on the trace of these bytes.
fn models_text(
    alloc: Global,
    models: &Models,
    trace: &[u8],
    k: Workers,
) -> Result<String, ToolError>
    requires same_spaces { SameSpaces models.now.classical.spaces models.now.hierarchical.spaces }
    ensures made { IfOk result (λ text. (first_file second_file : List ℕ)
        → AreModels first_file second_file models.now.classical models.now.hierarchical
        → IsCompareText first_file second_file trace.now k (string_bytes text)) }
    ensures refused { IfErr result (IsRefusal (trace_over models.now.classical trace.now)) }
    ensures nothing { IfErr result (λ e. e ≢ ToolError.Write) }
{
    let trace = read_trace(alloc, &models.classical, trace)?;
    let text = compared(alloc, models, &trace, k);
    drop(trace);
    text.map_err(ToolError::from)
}

#[tactic(auto, using(crate::proofs::ComparisonRefusals::files_refuse))]
fn made_by_threads<R: Threads + Sync>(
    rt: &R,
    alloc: Global,
    first: &[u8],
    second: &[u8],
    trace: &[u8],
    k: Workers,
) -> Result<String, ToolError>
    ensures { Makes (λ text. IsCompareText first.now second.now trace.now k (string_bytes text))
        (RefusesComparison first.now second.now trace.now) result }
{
    let models = read_models(alloc, first, second)?;
    let text = models_text_by_threads(rt, alloc, &models, trace, k);
    drop(models);
    text
}

/// The text that `models_text` makes.
fn models_text_by_threads<R: Threads + Sync>(
    rt: &R,
    alloc: Global,
    models: &Models,
    trace: &[u8],
    k: Workers,
) -> Result<String, ToolError>
    requires same_spaces { SameSpaces models.now.classical.spaces models.now.hierarchical.spaces }
    ensures made { IfOk result (λ text. (first_file second_file : List ℕ)
        → AreModels first_file second_file models.now.classical models.now.hierarchical
        → IsCompareText first_file second_file trace.now k (string_bytes text)) }
    ensures refused { IfErr result (IsRefusal (trace_over models.now.classical trace.now)) }
    ensures nothing { IfErr result (λ e. e ≢ ToolError.Write) }
{
    let trace = read_trace_by_threads(rt, alloc, &models.classical, trace)?;
    let text = compared_by_threads(rt, alloc, models, &trace, k);
    drop(trace);
    text.map_err(ToolError::from)
}

/// The classical and the hierarchical one of two hierarchies, which have to be of the same spaces.
#[tactic(auto, using(crate::proofs::ComparisonRefusals::first_is_refused, crate::proofs::ComparisonRefusals::second_is_refused, crate::proofs::ComparisonRefusals::models_are_refused))]
fn read_models(alloc: Global, first: &[u8], second: &[u8]) -> Result<Models, ToolError>
    ensures models { IfOk result (λ models.
        AreModels first.now second.now models.classical models.hierarchical) }
    ensures refused { IfErr result (IsRefusal (models_in first.now second.now)) }
    ensures nothing { IfErr result (λ e. e ≢ ToolError.Write) }
{
    let first = read_numbered(alloc, 1, first)?;
    match read_numbered(alloc, 2, second) {
        Ok(second) => models_of(first, second),
        Err(error) => {
            drop(first);
            Err(error)
        }
    }
}

/// Two hierarchies, the classical one first.
#[tactic(auto, using(crate::proofs::ComparisonRefusals::spaces_differ, crate::proofs::ComparisonRefusals::models_same))]
fn models_of(first: Layout, second: Layout) -> Result<Models, ToolError>
    ensures models { IfOk result (λ models. (first_file second_file : List ℕ)
        → AreHierarchies first_file second_file first second
        → AreModels first_file second_file models.classical models.hierarchical) }
    ensures refused { IfErr result (IsRefusal (as_models first second)) }
    ensures nothing { IfErr result (λ e. e ≢ ToolError.Write) }
{
    if !first.same_spaces(&second) {
        drop(first);
        drop(second);
        return Err(ToolError::SpacesDiffer);
    }
    match (first.kind(), second.kind()) {
        (Kind::Classical, Kind::Hierarchical) => Ok(Models {
            classical: first,
            hierarchical: second,
        }),
        (Kind::Hierarchical, Kind::Classical) => Ok(Models {
            classical: second,
            hierarchical: first,
        }),
        (Kind::Classical, Kind::Classical) | (Kind::Hierarchical, Kind::Hierarchical) => {
            drop(first);
            drop(second);
            Err(ToolError::ModelsSame)
        }
    }
}

/// The text that compares the models on the trace for k workers.
fn compared(alloc: Global, models: &Models, trace: &Trace, k: Workers) -> Result<String, AllocError>
    requires fits { trace.now.sizes ≡ sizes_of models.now.classical.spaces }
    requires same_spaces { SameSpaces models.now.classical.spaces models.now.hierarchical.spaces }
    ensures { IfOk result (λ text.
        IsCompared models.now.classical models.now.hierarchical trace.now k (string_bytes text)) }
{
    let coarse = measure_under(alloc, &models.classical, trace, k);
    let fine = measure_under(alloc, &models.hierarchical, trace, k);
    text_of_models(alloc, models, trace, k, coarse, fine)
}

/// The text that `compared` makes. Each of the models is measured in a thread of its own.
fn compared_by_threads<R: Threads + Sync>(
    rt: &R,
    alloc: Global,
    models: &Models,
    trace: &Trace,
    k: Workers,
) -> Result<String, AllocError>
    requires fits { trace.now.sizes ≡ sizes_of models.now.classical.spaces }
    requires same_spaces { SameSpaces models.now.classical.spaces models.now.hierarchical.spaces }
    ensures { IfOk result (λ text.
        IsCompared models.now.classical models.now.hierarchical trace.now k (string_bytes text)) }
{
    let (coarse, fine) = measure_both(rt, alloc, models, trace, k);
    text_of_models(alloc, models, trace, k, coarse, fine)
}

/// What is told of each of the models, in a thread of its own.
fn measure_both<R: Threads + Sync>(
    rt: &R,
    alloc: Global,
    models: &Models,
    trace: &Trace,
    k: Workers,
) -> (Result<Under, AllocError>, Result<Under, AllocError>)
    requires fits { trace.now.sizes ≡ sizes_of models.now.classical.spaces }
    requires same_spaces { SameSpaces models.now.classical.spaces models.now.hierarchical.spaces }
    ensures classical { IfOk result.0
        (AreAssignedAndMeasured models.now.classical trace.now k) }
    ensures hierarchical { IfOk result.1
        (AreAssignedAndMeasured models.now.hierarchical trace.now k) }
{
    let (classical, hierarchical, k) = (&models.classical, &models.hierarchical, &k);
    let under_classical = move || -> Result<Under, AllocError>
        requires { IsSync R.row × (trace.now.sizes ≡ sizes_of classical.now.spaces) }
        ensures { IfOk result (AreAssignedAndMeasured classical.entry.now trace.entry.now k.entry.now) }
    { measure_by_threads(rt, alloc, classical, trace, *k) };
    let under_hierarchical = move || -> Result<Under, AllocError>
        requires { IsSync R.row × (trace.now.sizes ≡ sizes_of hierarchical.now.spaces) }
        ensures { IfOk result (AreAssignedAndMeasured hierarchical.entry.now trace.entry.now k.entry.now) }
    { measure_by_threads(rt, alloc, hierarchical, trace, *k) };
    thread::join(rt, under_classical, under_hierarchical)
}

/// The text of what is told of each of the models.
fn text_of_models(
    alloc: Global,
    models: &Models,
    trace: &Trace,
    k: Workers,
    coarse: Result<Under, AllocError>,
    fine: Result<Under, AllocError>,
) -> Result<String, AllocError>
    requires classical { IfOk coarse (AreAssignedAndMeasured models.now.classical trace.now k) }
    requires hierarchical { IfOk fine (AreAssignedAndMeasured models.now.hierarchical trace.now k) }
    ensures { IfOk result (λ text.
        IsCompared models.now.classical models.now.hierarchical trace.now k (string_bytes text)) }
{
    let (coarse, of_classical) = coarse?;
    let (fine, of_hierarchical) = fine?;
    refined_is_no_longer();
    let (classical, hierarchical) = (&models.classical, &models.hierarchical);
    unlocked_without_locks();
    let refined = refinement(classical, &coarse, hierarchical, &fine);
    drop(fine);
    drop(coarse);
    comparison_text(
        alloc,
        trace.version(),
        k.number(),
        &of_classical,
        &of_hierarchical,
        refined,
    )
}

/// Whether the second hierarchy refines the first one. Nothing is told of it where one of them has locks.
fn refinement(
    classical: &Layout,
    coarse: &Assigned,
    hierarchical: &Layout,
    fine: &Assigned,
) -> Option<bool>
    requires lengths { length fine.now ≡ length coarse.now }
    requires coarse_known { AreKnown classical.now.tree coarse.now }
    requires fine_known { AreKnown hierarchical.now.tree fine.now }
    requires coarse_unlocked { has_locks classical.now.spaces ≡ false → AreUnlocked coarse.now }
    requires fine_unlocked { has_locks hierarchical.now.spaces ≡ false → AreUnlocked fine.now }
    ensures { IsToldWhere (has_locks classical.now.spaces || has_locks hierarchical.now.spaces)
        (Refines hierarchical.now.tree fine.now classical.now.tree coarse.now) result }
{
    if classical.has_locks() || hierarchical.has_locks() {
        return None;
    }
    Some(refines(hierarchical.tree(), fine, classical.tree(), coarse))
}

/// What the messages of the trace hold under a hierarchy, and what is told of it for k
/// workers.
fn measure_under(
    alloc: Global,
    layout: &Layout,
    trace: &Trace,
    k: Workers,
) -> Result<Under, AllocError>
    requires fits { trace.now.sizes ≡ sizes_of layout.now.spaces }
    ensures { IfOk result (AreAssignedAndMeasured layout.now trace.now k) }
{
    let assigned = assign(alloc, layout, trace)?;
    let case = Case {
        tree: layout.tree(),
        assigned: &assigned,
        trace,
    };
    match measure(alloc, layout, &case, k) {
        Ok(measured) => Ok((assigned, measured)),
        Err(error) => {
            drop(assigned);
            Err(error)
        }
    }
}

/// What `measure_under` tells. Each of the two plans is made in a thread of its own.
fn measure_by_threads<R: Threads + Sync>(
    rt: &R,
    alloc: Global,
    layout: &Layout,
    trace: &Trace,
    k: Workers,
) -> Result<Under, AllocError>
    requires fits { trace.now.sizes ≡ sizes_of layout.now.spaces }
    ensures { IfOk result (AreAssignedAndMeasured layout.now trace.now k) }
{
    let assigned = assign_by_threads(rt, alloc, layout, trace)?;
    let case = Case {
        tree: layout.tree(),
        assigned: &assigned,
        trace,
    };
    match measure_side_by_side(rt, alloc, layout, &case, k) {
        Ok(measured) => Ok((assigned, measured)),
        Err(error) => {
            drop(assigned);
            Err(error)
        }
    }
}
