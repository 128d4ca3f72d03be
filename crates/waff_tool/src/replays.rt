//! The replay of a trace.

ghost use Rattle.std.specs.Prelude.{◌≡◌, ◌≢◌, ◌^◌, ◌<◌, ◌≤◌, false, IfErr, IfOk, Ok};
ghost use Rattle.std.specs.Prelude.{length, string_bytes};
ghost use Rattle.std.specs.List.{range_with_len};
ghost use Rattle.waff_model.specs.Layout.{HasFewCells, Hierarchy, has_locks, unlocked};
ghost use Rattle.waff_model.specs.Messages.{IsTrace, sizes_of};
ghost use Rattle.waff_model.specs.declared.cell.Cell.{Cell};
ghost use Rattle.waff_model.specs.Versions.{has_clients};
ghost use Rattle.waff_assign.specs.Lowest.{IsAssignment};
ghost use Rattle.waff_cells.specs.Grid.{cells_in, HasSizes};
ghost use Rattle.waff_cells.specs.Serial.{operations};
ghost use Rattle.waff_core.specs.Job.{IsOrder};
ghost use Rattle.waff_core.specs.Seats.{IsSeats};
ghost use Rattle.waff_order.specs.Needs.{AreNeeds};
ghost use Rattle.waff_plan_text.specs.Lines.{text_of};
ghost use Rattle.waff_inputs.specs.Deliveries.{Delivers, Makes};
ghost use Rattle.waff_inputs.specs.Known.{trace_of};
ghost use Rattle.waff_read.specs.Hierarchies.{hierarchy_of};
ghost use Rattle.waff_tool.specs.ListOrder.{IsListOrder, IsReplayOrder};
ghost use Rattle.waff_tool.specs.PrintedSpaces.{AreAllPrinted};
ghost use Rattle.waff_tool.specs.ReplayText.{IsReplayText, RefusesReplay, state_after, state_lines};

use crate::state_text::{PrintedSpace, printed_spaces, state_text};
use std::alloc::{AllocError, Global};
use std::io::Write;
use std::sync::Wait;
use std::thread::Threads;
use waff_cells::State;
use waff_core::{Job, JobError};
use waff_inputs::{Accepted, ToolError, accept_over_layout, deliver, read_numbered};
use waff_list::laws::needs_make_the_same_plans;
use waff_list::{Rule, list_plan_by};
use waff_model::Version;
use waff_model::limits::MAX_SPACES;
use waff_order::Needs;
use waff_order::predecessors::needs;
use waff_replay::{Open, replay, serial};

/// Writes the state that the messages of the trace leave under the hierarchy, which has few cells. They are replayed by
/// this many workers, of which the calling thread is one, in the order of the list plan for as many:
/// for one worker that of arrival, if no message has a release; in a trace with clients always that of
/// the trace. Releases and think times are not waited for, nor what messages await. Nothing is written
/// before the whole text is made.
pub fn replay_text<R: Threads + Wait + Sync, W: Write>(
    rt: &R,
    alloc: Global,
    hierarchy: &[u8],
    trace: &[u8],
    workers: u32,
    writer: &mut W,
) -> Result<(), ToolError>
    requires seats { IsSeats workers }
    ensures { Delivers (λ _ text. IsReplayText hierarchy.now trace.now text)
        (RefusesReplay hierarchy.now trace.now) (W.contents writer.old) (W.contents writer.new) result }
{
    deliver(
        writer,
        made_replay_text(rt, alloc, hierarchy, trace, workers),
    )
}

fn made_replay_text<R: Threads + Wait + Sync>(
    rt: &R,
    alloc: Global,
    hierarchy: &[u8],
    trace: &[u8],
    workers: u32,
) -> Result<String, ToolError>
    requires seats { IsSeats workers }
    ensures { Makes (λ text. IsReplayText hierarchy.now trace.now (string_bytes text))
        (RefusesReplay hierarchy.now trace.now) result }
{
    let accepted = accept_few(rt, alloc, hierarchy, trace)?;
    match printed_spaces(alloc, &accepted.layout) {
        Ok(printed) => {
            let text = replayed_text(rt, alloc, accepted, &printed, workers);
            drop(printed);
            text.map_err(ToolError::from)
        }
        Err(error) => {
            drop(accepted);
            Err(ToolError::from(error))
        }
    }
}

/// Reads the files, the trace only where there are few enough cells for a replay, and over the layout
/// without locks: a lock changes no state, so a replay needs none.
#[tactic(auto, using(crate::proofs::ReplayRefusals::refuses_hierarchy, crate::proofs::ReplayRefusals::refuses_cells, crate::proofs::UnlockedReplays::refuses_unlocked))]
fn accept_few<R: Threads + Sync>(
    rt: &R,
    alloc: Global,
    hierarchy: &[u8],
    trace: &[u8],
) -> Result<Accepted, ToolError>
    ensures layout { IfOk result (λ a. (layout : Hierarchy)
        × (hierarchy_of hierarchy.now ≡ Ok layout) × (a.layout ≡ unlocked layout)) }
    ensures trace { IfOk result (λ a. trace_of a.layout.spaces trace.now ≡ Ok a.trace) }
    ensures assignment { IfOk result (λ a.
        IsAssignment a.layout a.trace.messages a.assigned) }
    ensures unlocked { IfOk result (λ a. has_locks a.layout.spaces ≡ false) }
    ensures few { IfOk result (λ a. HasFewCells a.layout.spaces) }
    ensures refused { IfErr result (RefusesReplay hierarchy.now trace.now) }
    ensures nothing { IfErr result (λ e. e ≢ ToolError.Write) }
{
    let layout = match read_numbered(alloc, 1, hierarchy) {
        Ok(layout) => layout,
        Err(error) => return Err(error),
    };
    if !layout.has_few_cells() {
        drop(layout);
        return Err(ToolError::TooManyCells);
    }
    match accept_over_layout(rt, alloc, layout.without_locks(), trace) {
        Ok(accepted) => Ok(accepted),
        Err(error) => Err(error),
    }
}

/// The text of the state that a replay leaves, over the spaces of the layout as they are printed.
fn replayed_text<R: Threads + Wait + Sync>(
    rt: &R,
    alloc: Global,
    accepted: Accepted,
    printed: &[PrintedSpace],
    workers: u32,
) -> Result<String, AllocError>
    requires few { HasFewCells accepted.layout.spaces }
    requires trace { IsTrace accepted.trace }
    requires assignment { IsAssignment accepted.layout accepted.trace.messages accepted.assigned }
    requires unlocked { has_locks accepted.layout.spaces ≡ false }
    requires printed { AreAllPrinted accepted.layout.spaces printed.now }
    requires few_printed { length printed.now ≤ MAX_SPACES }
    requires seats { IsSeats workers }
    ensures { IfOk result (λ text. string_bytes text
        ≡ text_of (state_lines accepted.layout.spaces (state_after accepted.trace))) }
{
    let state = replayed(rt, alloc, accepted, workers)?;
    let text = state_text(alloc, printed, &state);
    drop(state);
    text
}

/// The state that a replay leaves. The list plan for one worker is in the order of arrival where no
/// message has a release, so one worker needs no plan there.
fn replayed<R: Threads + Wait + Sync>(
    rt: &R,
    alloc: Global,
    accepted: Accepted,
    workers: u32,
) -> Result<State, AllocError>
    requires few { HasFewCells accepted.layout.spaces }
    requires trace { IsTrace accepted.trace }
    requires assignment { IsAssignment accepted.layout accepted.trace.messages accepted.assigned }
    requires unlocked { has_locks accepted.layout.spaces ≡ false }
    requires seats { IsSeats workers }
    ensures sizes { IfOk result (λ state. HasSizes state (sizes_of accepted.layout.spaces)) }
    ensures cells { IfOk result (λ state. (cell : Cell)
        → cells_in state cell ≡ state_after accepted.trace cell) }
{
    if workers == 1 && accepted.trace.version() == Version::V1 {
        let state = serial(alloc, &accepted.layout, &accepted.trace);
        drop(accepted);
        return state;
    }
    let job = job_in_replay_order(alloc, accepted, workers)?;
    replay(rt, alloc, job, workers, &Open)
}

/// The job of what was accepted, in the order of its replay by k workers.
fn job_in_replay_order(alloc: Global, accepted: Accepted, k: u32) -> Result<Job, AllocError>
    requires few { HasFewCells accepted.layout.spaces }
    requires trace { IsTrace accepted.trace }
    requires assignment { IsAssignment accepted.layout accepted.trace.messages accepted.assigned }
    requires unlocked { has_locks accepted.layout.spaces ≡ false }
    requires seats { IsSeats k }
    ensures layout { IfOk result (λ job. job.layout ≡ accepted.layout) }
    ensures ops { IfOk result (λ job. job.ops ≡ operations accepted.trace.messages) }
    ensures order { IfOk result (λ job.
        IsReplayOrder accepted.layout.tree accepted.assigned accepted.trace k job.order) }
{
    match needs_and_order(alloc, &accepted, k) {
        Ok((needs, order)) => {
            let job = job_in_order(alloc, accepted, needs, order.as_slice());
            drop(order);
            job
        }
        Err(error) => {
            drop(accepted);
            Err(error)
        }
    }
}

/// The job of what was accepted, in this order.
fn job_in_order(
    alloc: Global,
    accepted: Accepted,
    needs: Needs,
    order: &[u32],
) -> Result<Job, AllocError>
    requires few { HasFewCells accepted.layout.spaces }
    requires trace { IsTrace accepted.trace }
    requires assignment { IsAssignment accepted.layout accepted.trace.messages accepted.assigned }
    requires unlocked { has_locks accepted.layout.spaces ≡ false }
    requires needs { AreNeeds accepted.layout.tree accepted.assigned needs }
    requires order { IsOrder needs order.now }
    ensures layout { IfOk result (λ job. job.layout ≡ accepted.layout) }
    ensures ops { IfOk result (λ job. job.ops ≡ operations accepted.trace.messages) }
    ensures order { IfOk result (λ job. job.order ≡ order.now) }
{
    let Accepted {
        layout,
        trace,
        assigned,
    } = accepted;
    match Job::new(alloc, layout, trace, assigned, needs, order) {
        Ok(job) => Ok(job),
        Err(JobError::Memory) => Err(AllocError),
        Err(JobError::Order) => unreachable!(),
    }
}

/// The needs of the messages of what was accepted, and the order of their replay by k workers.
fn needs_and_order(
    alloc: Global,
    accepted: &Accepted,
    k: u32,
) -> Result<(Needs, Vec<u32>), AllocError>
    requires trace { IsTrace accepted.now.trace }
    requires assignment { IsAssignment accepted.now.layout
        accepted.now.trace.messages accepted.now.assigned }
    requires seats { IsSeats k }
    ensures needs { IfOk result (λ made.
        AreNeeds accepted.now.layout.tree accepted.now.assigned made.0) }
    ensures order { IfOk result (λ made. IsOrder made.0 made.1.items) }
    ensures replay { IfOk result (λ made. IsReplayOrder accepted.now.layout.tree
        accepted.now.assigned accepted.now.trace k made.1.items) }
{
    let needs = needs(alloc, accepted.layout.tree(), &accepted.assigned)?;
    let order = order_of(alloc, accepted, &needs, k)?;
    Ok((needs, order))
}

/// The order of a replay by k workers: that of the list plan, and where messages have clients that of
/// the trace.
fn order_of(
    alloc: Global,
    accepted: &Accepted,
    needs: &Needs,
    k: u32,
) -> Result<Vec<u32>, AllocError>
    requires trace { IsTrace accepted.now.trace }
    requires assignment { IsAssignment accepted.now.layout
        accepted.now.trace.messages accepted.now.assigned }
    requires needs { AreNeeds accepted.now.layout.tree accepted.now.assigned needs.now }
    requires seats { IsSeats k }
    ensures order { IfOk result (λ order. IsOrder needs.now order.items) }
    ensures replay { IfOk result (λ order. IsReplayOrder accepted.now.layout.tree
        accepted.now.assigned accepted.now.trace k order.items) }
{
    if accepted.trace.version().has_clients() {
        order_by_number(alloc, accepted.trace.len())
    } else {
        list_order(alloc, accepted, needs, k)
    }
}

/// The order of the list plan for k workers.
fn list_order(
    alloc: Global,
    accepted: &Accepted,
    needs: &Needs,
    k: u32,
) -> Result<Vec<u32>, AllocError>
    requires trace { IsTrace accepted.now.trace }
    requires earlier_version { has_clients accepted.now.trace.version ≡ false }
    requires assignment { IsAssignment accepted.now.layout
        accepted.now.trace.messages accepted.now.assigned }
    requires needs { AreNeeds accepted.now.layout.tree accepted.now.assigned needs.now }
    requires seats { IsSeats k }
    ensures order { IfOk result (λ order. IsOrder needs.now order.items) }
    ensures list { IfOk result (λ order. IsListOrder accepted.now.layout.tree
        accepted.now.assigned accepted.now.trace k order.items) }
{
    let plan = list_plan_by(alloc, needs, &accepted.trace, Rule::Arrival, k)?;
    needs_make_the_same_plans();
    let order = Vec::from_slice(alloc, plan.order());
    drop(plan);
    order
}

/// The numbers of so many messages, in order.
fn order_by_number(alloc: Global, messages: u32) -> Result<Vec<u32>, AllocError>
    requires few { messages < 2 ^ 31 }
    ensures { IfOk result (λ order. order.items ≡ range_with_len 1 messages) }
{
    let mut order = Vec::with_capacity(alloc, messages as usize)?;
    for n in 1..messages + 1 {
        order.push_reserved(n);
    }
    Ok(order)
}
