//! The files of a command: a hierarchy, and a trace over it.
ghost use Rattle.std.specs.Prelude.{◌≡◌, ◌≢◌, ◌<◌, Ok, ℕ, All, IfErr, IfOk, List, length};
ghost use Rattle.waff_model.specs.Messages.{sizes_of};
ghost use Rattle.waff_read.specs.Hierarchies.{hierarchy_of};
ghost use Rattle.waff_assign.specs.Case.{instance_of};
ghost use Rattle.waff_assign.specs.Lowest.{IsAssignment};
ghost use Rattle.waff_inputs.specs.Inputs.{Accepts, IsRefusal, Refuses, RefusesHierarchy};
ghost use Rattle.waff_inputs.specs.Inputs.{instance_under, trace_over};
ghost use Rattle.waff_inputs.specs.Known.{trace_of};
ghost use Rattle.waff_assign.specs.Held.{AreKnown};

use crate::fault::ToolError;
use crate::traces::{read_trace, read_trace_by_threads};
use std::alloc::{AllocError, Global};
use std::thread::Threads;
use waff_assign::{Assigned, Case, assign, assign_by_threads};
use waff_model::{Layout, Trace};
use waff_read::read_hierarchy;

/// A hierarchy, a trace over it, and what each message holds.
#[derive(Drop)]
pub struct Accepted {
    pub layout: Layout,
    pub trace: Trace,
    pub assigned: Assigned,
    ghost lengths: { length assigned ≡ length trace.messages },
    ghost known: { AreKnown layout.tree assigned },
    ghost fits: { trace.sizes ≡ sizes_of layout.spaces },
}

impl Accepted {
    /// The trace under the tree of the hierarchy.
    pub fn case(&self) -> Case<'_>
        ensures instance { instance_of result
            ≡ instance_under self.now.layout self.now.assigned self.now.trace }
    {
        Case {
            tree: self.layout.tree(),
            assigned: &self.assigned,
            trace: &self.trace,
        }
    }
}

/// Reads the hierarchy of this number.
#[tactic(auto, using(crate::proofs::Refusals::hierarchy_refuses))]
pub fn read_numbered(alloc: Global, file: u8, hierarchy: &[u8]) -> Result<Layout, ToolError>
    ensures layout { IfOk result (λ layout. hierarchy_of hierarchy.now ≡ Ok layout) }
    ensures refused { IfErr result (RefusesHierarchy file hierarchy.now) }
    ensures nothing { IfErr result (λ e. e ≢ ToolError.Write) }
{
    match read_hierarchy(alloc, hierarchy) {
        Ok(layout) => Ok(layout),
        Err(fault) => Err(ToolError::of_hierarchy(file, fault)),
    }
}

/// Hierarchies that one command takes, at most. Each is told of by its number.
pub const MAX_RANKED: usize = 64;

/// Reads the files, the hierarchy first.
#[tactic(auto, using(crate::proofs::Refusals::hierarchy_refuses, crate::proofs::Refusals::hierarchy_is_refused, crate::proofs::Refusals::trace_refuses, crate::proofs::Refusals::trace_is_refused))]
pub fn accept(alloc: Global, hierarchy: &[u8], trace: &[u8]) -> Result<Accepted, ToolError>
    ensures accepted { IfOk result (λ a.
        Accepts hierarchy.now trace.now (instance_under a.layout a.assigned a.trace)) }
    ensures layout { IfOk result (λ a. hierarchy_of hierarchy.now ≡ Ok a.layout) }
    ensures refused { IfErr result (Refuses hierarchy.now trace.now) }
    ensures nothing { IfErr result (λ e. e ≢ ToolError.Write) }
{
    let layout = match read_hierarchy(alloc, hierarchy) {
        Ok(layout) => layout,
        Err(fault) => return Err(ToolError::of_hierarchy(1, fault)),
    };
    match read_trace(alloc, &layout, trace) {
        Ok(trace) => {
            let assigned = assign(alloc, &layout, &trace);
            with_assignment(layout, trace, assigned)
        }
        Err(fault) => {
            drop(layout);
            Err(ToolError::from(fault))
        }
    }
}

/// Reads the files as `accept` does, but a long trace by several threads.
#[tactic(auto, using(crate::proofs::Refusals::hierarchy_refuses, crate::proofs::Refusals::hierarchy_is_refused, crate::proofs::Refusals::trace_is_refused))]
pub fn accept_by_threads<R: Threads + Sync>(
    rt: &R,
    alloc: Global,
    hierarchy: &[u8],
    trace: &[u8],
) -> Result<Accepted, ToolError>
    ensures accepted { IfOk result (λ a.
        Accepts hierarchy.now trace.now (instance_under a.layout a.assigned a.trace)) }
    ensures layout { IfOk result (λ a. hierarchy_of hierarchy.now ≡ Ok a.layout) }
    ensures refused { IfErr result (Refuses hierarchy.now trace.now) }
    ensures nothing { IfErr result (λ e. e ≢ ToolError.Write) }
{
    let layout = match read_hierarchy(alloc, hierarchy) {
        Ok(layout) => layout,
        Err(fault) => return Err(ToolError::of_hierarchy(1, fault)),
    };
    accept_over_layout(rt, alloc, layout, trace)
}

/// Reads the trace over a hierarchy that was read, by several threads where it is long.
#[tactic(auto, using(crate::proofs::Refusals::trace_refuses))]
pub fn accept_over_layout<R: Threads + Sync>(
    rt: &R,
    alloc: Global,
    layout: Layout,
    trace: &[u8],
) -> Result<Accepted, ToolError>
    ensures accepted { IfOk result (λ a. (hierarchy_file : List ℕ)
        → hierarchy_of hierarchy_file ≡ Ok layout
        → Accepts hierarchy_file trace.now (instance_under a.layout a.assigned a.trace)) }
    ensures layout { IfOk result (λ a. a.layout ≡ layout) }
    ensures trace { IfOk result (λ a. trace_of layout.spaces trace.now ≡ Ok a.trace) }
    ensures assignment { IfOk result (λ a. IsAssignment layout a.trace.messages a.assigned) }
    ensures refused { IfErr result (IsRefusal (trace_over layout trace.now)) }
    ensures nothing { IfErr result (λ e. e ≢ ToolError.Write) }
{
    match read_trace_by_threads(rt, alloc, &layout, trace) {
        Ok(trace) => {
            let assigned = assign_by_threads(rt, alloc, &layout, &trace);
            with_assignment(layout, trace, assigned)
        }
        Err(fault) => {
            drop(layout);
            Err(ToolError::from(fault))
        }
    }
}

/// The hierarchy and the trace, with what each message holds.
fn with_assignment(
    layout: Layout,
    trace: Trace,
    assigned: Result<Assigned, AllocError>,
) -> Result<Accepted, ToolError>
    requires fits { trace.sizes ≡ sizes_of layout.spaces }
    requires assignment { IfOk assigned (IsAssignment layout trace.messages) }
    requires known { IfOk assigned (AreKnown layout.tree) }
    ensures accepted { IfOk result (λ a. (hierarchy_file trace_file : List ℕ)
        → hierarchy_of hierarchy_file ≡ Ok layout → trace_of layout.spaces trace_file ≡ Ok trace
        → Accepts hierarchy_file trace_file (instance_under a.layout a.assigned a.trace)) }
    ensures layout { IfOk result (λ a. a.layout ≡ layout) }
    ensures trace { IfOk result (λ a. a.trace ≡ trace) }
    ensures assignment { IfOk result (λ a. IsAssignment layout trace.messages a.assigned) }
    ensures memory { IfErr result (λ e. e ≡ ToolError.Memory) }
{
    match assigned {
        Ok(assigned) => Ok(Accepted {
            layout,
            trace,
            assigned,
        }),
        Err(_) => {
            drop(layout);
            drop(trace);
            Err(ToolError::Memory)
        }
    }
}
