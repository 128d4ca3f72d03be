//! What the messages of a trace hold.

ghost use Rattle.std.specs.Prelude.{◌≡◌, ◌<◌, ◌≤◌, ◌++◌, ◌∷◌, [], List, length, option_map, All, Contains};
ghost use Rattle.std.specs.Prelude.{IfOk, IfSome, OnOk};
ghost use Rattle.waff_assign.specs.Held.{AreKnown};
ghost use Rattle.waff_assign.specs.Lowest.{IsAffinityAmong, IsAffinityOf, IsAssignment, IsInFootprint};
ghost use Rattle.waff_assign.specs.Lowest.{IsLowest, IsLowestOf, IsSomeLowestOf};
ghost use Rattle.waff_model.specs.Cells.{cells_of, cells_of_op};
ghost use Rattle.waff_model.specs.Layout.{IsCell};
ghost use Rattle.waff_model.specs.Messages.{sizes_of};
ghost use Rattle.waff_model.specs.Numbers.{IsAmongFirst};
ghost use Rattle.waff_model.specs.declared.cell.Cell.{Cell};

use crate::Assigned;
use crate::covering::lowest_above;
use crate::gathering::{assign_with_locks, assign_with_locks_by_threads};
use rayon::prelude::*;
use std::alloc::{AllocError, Global};
use std::thread::Threads;
use waff_model::{AffinityId, Cell, Layout, Op, Ops, Trace};

/// What each message holds: the lowest affinity that covers its cells without locks, and the locks of the others.
pub fn assign(alloc: Global, layout: &Layout, trace: &Trace) -> Result<Assigned, AllocError>
    requires fits { trace.now.sizes ≡ sizes_of layout.now.spaces }
    ensures assignment { IfOk result (IsAssignment layout.now trace.now.messages) }
    ensures known { IfOk result (AreKnown layout.now.tree) }
{
    if layout.has_locks() {
        return assign_with_locks(alloc, layout, trace);
    }
    let mut affinities = Vec::with_capacity(alloc, trace.len() as usize)?;
    for n in 1..trace.len() + 1 {
        affinities.push_reserved(Some(lowest_of_message(layout, trace, n)));
    }
    Ok(Assigned::without_locks(alloc, affinities))
}

/// What each message holds, as `assign` finds it, but by several threads where there are many messages.
pub fn assign_by_threads<R: Threads + Sync>(
    rt: &R,
    alloc: Global,
    layout: &Layout,
    trace: &Trace,
) -> Result<Assigned, AllocError>
    requires fits { trace.now.sizes ≡ sizes_of layout.now.spaces }
    ensures assignment { IfOk result (IsAssignment layout.now trace.now.messages) }
    ensures known { IfOk result (AreKnown layout.now.tree) }
{
    if layout.has_locks() {
        return assign_with_locks_by_threads(rt, alloc, layout, trace);
    }
    let affinities = (1..trace.len() + 1)
        .into_par_iter()
        .map(
            |n: u32| -> Option<AffinityId>
                requires fits { trace.now.sizes ≡ sizes_of layout.now.spaces }
                requires number { IsAmongFirst (length trace.now.messages) n }
                ensures { IsSomeLowestOf layout.entry.now trace.entry.now.messages n result }
            { Some(lowest_of_message(layout, trace, n)) },
        )
        .collect(rt, alloc)?;
    Ok(Assigned::without_locks(alloc, affinities))
}

/// The lowest affinity that covers the footprint of message `n`.
fn lowest_of_message(layout: &Layout, trace: &Trace, n: u32) -> AffinityId
    requires fits { trace.now.sizes ≡ sizes_of layout.now.spaces }
    requires number { IsAmongFirst (length trace.now.messages) n }
    ensures lowest { IsLowestOf layout.now trace.now.messages n result.0 }
    ensures within { result.0 < length layout.now.tree }
{
    lowest_of_ops(layout, &trace.message(n).ops)
}

/// The lowest affinity that covers what the operations, of which there is one at least, name. At the
/// root it looks at no more of them.
fn lowest_of_ops(layout: &Layout, ops: &Ops) -> AffinityId
    requires some { 1 ≤ length ops.now }
    requires cells { All (IsCell layout.now.spaces) (cells_of ops.now) }
    ensures lowest { IsLowest layout.now (IsInFootprint ops.now) result.0 }
    ensures within { result.0 < length layout.now.tree }
{
    // Its contract tells `IsLayout`.
    let _ = layout.space_count();
    let mut low = lowest_of_op(layout, ops.get(0));
    for index in 1..ops.len() {
        if low.0 == 0 {
            return low;
        }
        let other = lowest_of_op(layout, ops.get(index));
        low = lowest_above(layout.tree(), low, other);
    }
    low
}

/// The lowest affinity that covers what the operation names.
#[inline(always)]
fn lowest_of_op(layout: &Layout, op: Op) -> AffinityId
    requires { All (IsCell layout.now.spaces) (cells_of_op op) }
    ensures lowest { IsLowest layout.now (Contains (cells_of_op op)) result.0 }
    ensures within { result.0 < length layout.now.tree }
{
    match op {
        Op::Set { cell, .. } | Op::Add { cell, .. } | Op::Read { cell } => layout.owner(cell),
        Op::Copy {
            cell,
            source: other,
        }
        | Op::Swap { cell, other } => {
            lowest_above(layout.tree(), layout.owner(cell), layout.owner(other))
        }
    }
}

/// The lowest affinity that covers those cells without locks that the operations name; none where there is none.
pub(crate) fn lowest_without_locks(layout: &Layout, ops: &Ops) -> Option<AffinityId>
    requires cells { All (IsCell layout.now.spaces) (cells_of ops.now) }
    ensures lowest { IsAffinityOf layout.now ops.now (option_map (λ a. a.0) result) }
    ensures within { IfSome result (λ a. a.0 < length layout.now.tree) }
{
    let mut low = None;
    for index in 0..ops.len() {
        low = lowered_by_op(layout, low, ops.get(index));
    }
    low
}

/// The lowest affinity that covers what this one covers, and what the operation names without locks.
fn lowered_by_op(layout: &Layout, low: Option<AffinityId>, op: Op) -> Option<AffinityId>
    requires cells { All (IsCell layout.now.spaces) (cells_of_op op) }
    requires known { IfSome low (λ a. a.0 < length layout.now.tree) }
    ensures lowest { (cells : List Cell) → IsAffinityAmong layout.now cells (option_map (λ a. a.0) low)
        → IsAffinityAmong layout.now (cells ++ cells_of_op op) (option_map (λ a. a.0) result) }
    ensures within { IfSome result (λ a. a.0 < length layout.now.tree) }
{
    match op {
        Op::Set { cell, .. } | Op::Add { cell, .. } | Op::Read { cell } => lowered(
            layout, low, cell,
        ),
        Op::Copy {
            cell,
            source: other,
        }
        | Op::Swap { cell, other } => lowered(layout, lowered(layout, low, cell), other),
    }
}

/// The lowest affinity that covers what this one covers, and the cell, if that has no lock.
fn lowered(layout: &Layout, low: Option<AffinityId>, cell: Cell) -> Option<AffinityId>
    requires cell { IsCell layout.now.spaces cell }
    requires known { IfSome low (λ a. a.0 < length layout.now.tree) }
    ensures lowest { (cells : List Cell) → IsAffinityAmong layout.now cells (option_map (λ a. a.0) low)
        → IsAffinityAmong layout.now (cells ++ cell ∷ []) (option_map (λ a. a.0) result) }
    ensures within { IfSome result (λ a. a.0 < length layout.now.tree) }
{
    if layout.locking(cell).are_some() {
        return low;
    }
    let owner = layout.owner(cell);
    match low {
        Some(low) => Some(lowest_above(layout.tree(), low, owner)),
        None => Some(owner),
    }
}

/// Appends the cells that the operations name.
pub(crate) fn push_cells(cells: &mut Vec<Cell>, ops: &Ops) -> Result<(), AllocError>
    ensures { OnOk result (cells.new.items ≡ cells.old.items ++ cells_of ops.now) }
{
    for index in 0..ops.len() {
        push_cells_of_op(cells, ops.get(index))?;
    }
    Ok(())
}

/// Appends the cells that the operation names.
fn push_cells_of_op(cells: &mut Vec<Cell>, op: Op) -> Result<(), AllocError>
    ensures { OnOk result (cells.new.items ≡ cells.old.items ++ cells_of_op op) }
{
    match op {
        Op::Set { cell, .. } | Op::Add { cell, .. } | Op::Read { cell } => cells.push(cell)?,
        Op::Copy {
            cell,
            source: other,
        }
        | Op::Swap { cell, other } => {
            cells.push(cell)?;
            cells.push(other)?;
        }
    }
    Ok(())
}
