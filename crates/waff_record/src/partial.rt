//! What is told of a run that was stopped: of the messages that had ended by then it is a run, and so it is told.

ghost use Rattle.std.specs.Bool.{OnTrue};
ghost use Rattle.std.specs.Prelude.{◌≡◌, IfOk, IfSome, Ok, string_bytes};
ghost use Rattle.waff_assign.specs.Lowest.{IsAssignment};
ghost use Rattle.waff_inputs.specs.Inputs.{instance_under};
ghost use Rattle.waff_inputs.specs.Known.{trace_of};
ghost use Rattle.waff_line.specs.Turns.{AreReached, course_by};
ghost use Rattle.waff_model.specs.Messages.{sizes_of};
ghost use Rattle.waff_record.specs.Left.{AreLeft, IsCutTo, TellLeft, turns_kept};

use crate::cut::{cut_text, is_cut};
use crate::fault::RecordError;
use crate::left::{StoppedRun, numbers_left, turns_kept};
use crate::outcome::{Recorded, record_of};
use crate::turns::RunTurns;
use std::alloc::{AllocError, Global};
use std::thread::Threads;
use waff_assign::{Case, assign_by_threads};
use waff_inputs::read_trace_by_threads;
use waff_line::{Turn, laws};
use waff_model::Trace;
use waff_plan::Plan;
use waff_read::TraceError;

/// What is told of the messages that are left of a run of these files that was stopped. None where what is left of the trace
/// is not read as the trace cut down to them.
pub fn record_left<R: Threads + Sync>(
    rt: &R,
    alloc: Global,
    run: &StoppedRun<'_>,
) -> Result<Option<Recorded>, RecordError>
    requires assigned { IsAssignment run.now.whole.now.layout
        run.now.whole.now.trace.messages run.now.whole.now.assigned }
    requires reached { AreReached (course_by
        (instance_under run.now.whole.now.layout run.now.whole.now.assigned run.now.whole.now.trace)
        run.now.workers run.now.tick) run.now.turns.now }
    ensures { IfOk result (λ told. IfSome told (λ told. TellLeft run.now.hierarchy.now
        (instance_under run.now.whole.now.layout run.now.whole.now.assigned run.now.whole.now.trace)
        run.now.workers run.now.tick run.now.turns.now
        told.measured.items (string_bytes told.text) told.drift)) }
{
    let _messages = run.whole.trace.len();
    let kept = numbers_left(alloc, run.turns, run.tick)?;
    let told = record_kept(rt, alloc, run, kept.as_slice());
    drop(kept);
    told
}

/// The same, where the numbers of those messages are known.
fn record_kept<R: Threads + Sync>(
    rt: &R,
    alloc: Global,
    run: &StoppedRun<'_>,
    kept: &[u32],
) -> Result<Option<Recorded>, RecordError>
    requires assigned { IsAssignment run.now.whole.now.layout
        run.now.whole.now.trace.messages run.now.whole.now.assigned }
    requires reached { AreReached (course_by
        (instance_under run.now.whole.now.layout run.now.whole.now.assigned run.now.whole.now.trace)
        run.now.workers run.now.tick) run.now.turns.now }
    requires left { AreLeft run.now.turns.now run.now.tick kept.now }
    ensures { IfOk result (λ told. IfSome told (λ told. TellLeft run.now.hierarchy.now
        (instance_under run.now.whole.now.layout run.now.whole.now.assigned run.now.whole.now.trace)
        run.now.workers run.now.tick run.now.turns.now
        told.measured.items (string_bytes told.text) told.drift)) }
{
    let text = cut_text(alloc, run, kept)?;
    let told = match read_trace_by_threads(rt, alloc, &run.whole.layout, text.as_slice()) {
        Ok(cut) => {
            let told = record_cut(rt, alloc, run, kept, &cut, text.as_slice());
            drop(cut);
            told
        }
        Err(TraceError::Memory) => Err(RecordError::Memory),
        Err(_) => Ok(None),
    };
    drop(text);
    told
}

/// The same, where the trace that is cut down to them was read.
fn record_cut<R: Threads + Sync>(
    rt: &R,
    alloc: Global,
    run: &StoppedRun<'_>,
    kept: &[u32],
    cut: &Trace,
    bytes: &[u8],
) -> Result<Option<Recorded>, RecordError>
    requires assigned { IsAssignment run.now.whole.now.layout
        run.now.whole.now.trace.messages run.now.whole.now.assigned }
    requires reached { AreReached (course_by
        (instance_under run.now.whole.now.layout run.now.whole.now.assigned run.now.whole.now.trace)
        run.now.workers run.now.tick) run.now.turns.now }
    requires left { AreLeft run.now.turns.now run.now.tick kept.now }
    requires fits { cut.now.sizes ≡ sizes_of run.now.whole.now.layout.spaces }
    requires spelled { trace_of run.now.whole.now.layout.spaces bytes.now ≡ Ok cut.now }
    ensures { IfOk result (λ told. IfSome told (λ told. TellLeft run.now.hierarchy.now
        (instance_under run.now.whole.now.layout run.now.whole.now.assigned run.now.whole.now.trace)
        run.now.workers run.now.tick run.now.turns.now
        told.measured.items (string_bytes told.text) told.drift)) }
{
    if !is_cut_of(alloc, run, kept, cut)? {
        return Ok(None);
    }
    let assigned = assign_by_threads(rt, alloc, &run.whole.layout, cut)?;
    let turns = turns_kept(alloc, run.turns, kept)?;
    let case = Case {
        tree: run.whole.layout.tree(),
        assigned: &assigned,
        trace: cut,
    };
    let told = record_case(alloc, run, kept, case, turns.as_slice(), bytes);
    drop(turns);
    drop(assigned);
    Ok(Some(told?))
}

/// Whether a trace is that of the run cut down to the messages with these numbers.
fn is_cut_of(
    alloc: Global,
    run: &StoppedRun<'_>,
    kept: &[u32],
    cut: &Trace,
) -> Result<bool, AllocError>
    ensures { IfOk result (λ is. OnTrue is (IsCutTo run.now.whole.now.trace kept.now cut.now)) }
{
    let plan = Plan::unstarted(alloc, &run.whole.trace)?;
    let cut_plan = Plan::unstarted(alloc, cut)?;
    let is = is_cut(alloc, kept, &run.whole.trace, &plan, cut, &cut_plan);
    drop(cut_plan);
    drop(plan);
    is
}

/// The same as `record_cut`, where it is known what the messages hold, with their turns.
fn record_case(
    alloc: Global,
    run: &StoppedRun<'_>,
    kept: &[u32],
    case: Case<'_>,
    turns: &[Turn],
    bytes: &[u8],
) -> Result<Recorded, RecordError>
    requires assigned { IsAssignment run.now.whole.now.layout
        run.now.whole.now.trace.messages run.now.whole.now.assigned }
    requires reached { AreReached (course_by
        (instance_under run.now.whole.now.layout run.now.whole.now.assigned run.now.whole.now.trace)
        run.now.workers run.now.tick) run.now.turns.now }
    requires left { AreLeft run.now.turns.now run.now.tick kept.now }
    requires cut { IsCutTo run.now.whole.now.trace kept.now case.trace.now }
    requires tree { case.tree.now ≡ run.now.whole.now.layout.tree }
    requires assignment { IsAssignment run.now.whole.now.layout case.trace.now.messages case.assigned.now }
    requires turns { turns.now ≡ turns_kept run.now.turns.now kept.now }
    requires spelled { trace_of run.now.whole.now.layout.spaces bytes.now ≡ Ok case.trace.now }
    ensures { IfOk result (λ told. TellLeft run.now.hierarchy.now
        (instance_under run.now.whole.now.layout run.now.whole.now.assigned run.now.whole.now.trace)
        run.now.workers run.now.tick run.now.turns.now
        told.measured.items (string_bytes told.text) told.drift) }
{
    laws::run_obeys();
    laws::run_is_worker_plan();
    laws::workers_run_one();
    laws::runs_once();
    let _messages = case.trace.len();
    let _affinities = case.tree.len();
    let left = RunTurns {
        hierarchy: run.hierarchy,
        layout: &run.whole.layout,
        case,
        bytes,
        turns,
        workers: run.workers,
        tick: run.tick,
    };
    record_of(alloc, &left)
}
