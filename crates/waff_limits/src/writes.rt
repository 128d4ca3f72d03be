//! The cell that messages need longest where those that only read it share it.

ghost use Rattle.std.specs.Prelude.{◌≡◌, [], All, IfOk, IfSome, IsTrue, OnOk, ◌++◌, length, option_map};
ghost use Rattle.waff_model.specs.Cells.{cells_of, cells_of_op};
ghost use Rattle.waff_model.specs.Layout.{IsCell};
ghost use Rattle.waff_model.specs.Messages.{sizes_of};
ghost use Rattle.waff_model.specs.Numbers.{IsAmongFirst};
ghost use Rattle.waff_limits.specs.Data.{IsMostOf};
ghost use Rattle.waff_limits.specs.Locks.{ticks_needed};
ghost use Rattle.waff_limits.specs.Writes.{GoOn, cells_alone, cells_alone_by, may_share, ticks_by};
ghost use Rattle.waff_limits.specs.Writes.{ticks_shared, unless_shared};

use crate::data::{CellUse, most_used_cell};
use crate::edges::Edges;
use crate::readings::Readings;
use crate::runs::{Run, run_of};
use std::alloc::{AllocError, Global};
use waff_assign::footprint;
use waff_model::{Cell, Layout, Locking, Op, Ops, Trace};

/// The cell for which the costs of the messages that write it, with the greatest of those that only read it, come to the most ticks, of
/// several the first; none where there is no message.
pub fn most_written_cell(alloc: Global, trace: &Trace) -> Result<Option<CellUse>, AllocError>
    ensures { IfOk result (IsMostOf (ticks_shared trace.now.messages)) }
{
    most_by(alloc, trace, None)
}

/// The cell that messages need for the most ticks in all, of several the first; none where there is no message: a cell of a space with
/// shared locks as above, and each other for as long as messages use it.
pub fn most_needed_cell(
    alloc: Global,
    layout: &Layout,
    trace: &Trace,
) -> Result<Option<CellUse>, AllocError>
    requires fits { trace.now.sizes ≡ sizes_of layout.now.spaces }
    ensures { IfOk result (IsMostOf (ticks_needed layout.now.spaces trace.now.messages)) }
{
    if layout.has_locks() {
        most_by(alloc, trace, Some(layout))
    } else {
        most_used_cell(alloc, trace)
    }
}

/// The cell that messages need longest where those that only read it share it, everywhere or in the spaces of a layout with shared locks.
fn most_by(
    alloc: Global,
    trace: &Trace,
    sharing: Option<&Layout>,
) -> Result<Option<CellUse>, AllocError>
    requires fits { IfSome sharing (λ layout. trace.now.sizes ≡ sizes_of layout.now.spaces) }
    ensures { IfOk result (IsMostOf (ticks_by (option_map (λ layout. layout.now.spaces) sharing.entry) trace.now.messages)) }
{
    let mut alone = Edges::none(alloc);
    let mut shared = Readings::none(alloc);
    for n in 1..trace.len() + 1 {
        add_message(alloc, &mut alone, &mut shared, trace, sharing, n)?;
    }
    shared.lay(alloc, &mut alone)?;
    alone.most()
}

/// The cells of message `n` are needed alone, or shared, for as long as it runs.
fn add_message(
    alloc: Global,
    alone: &mut Edges,
    shared: &mut Readings,
    trace: &Trace,
    sharing: Option<&Layout>,
    n: u32,
) -> Result<(), AllocError>
    requires number { IsAmongFirst (length trace.now.messages) n }
    requires fits { IfSome sharing (λ layout. trace.now.sizes ≡ sizes_of layout.now.spaces) }
    ensures { OnOk result (GoOn (option_map (λ layout. layout.now.spaces) sharing.entry) trace.now.messages n
        alone.old alone.new shared.old shared.new) }
{
    let message = trace.message(n);
    let cost = message.cost;
    match run_of(&message.ops) {
        Some(run) => {
            if needs_none(sharing, &message.ops) {
                shared.add_run(run, cost)
            } else if needs_all(sharing, &message.ops) {
                alone.add_run(run, cost)
            } else {
                add_cells(alloc, alone, shared, trace, sharing, n)
            }
        }
        None => add_cells(alloc, alone, shared, trace, sharing, n),
    }
}

/// The same, cell by cell.
fn add_cells(
    alloc: Global,
    alone: &mut Edges,
    shared: &mut Readings,
    trace: &Trace,
    sharing: Option<&Layout>,
    n: u32,
) -> Result<(), AllocError>
    requires number { IsAmongFirst (length trace.now.messages) n }
    requires fits { IfSome sharing (λ layout. trace.now.sizes ≡ sizes_of layout.now.spaces) }
    ensures { OnOk result (GoOn (option_map (λ layout. layout.now.spaces) sharing.entry) trace.now.messages n
        alone.old alone.new shared.old shared.new) }
{
    let message = trace.message(n);
    let cells = footprint(alloc, trace, n)?;
    let mut own = Vec::new(alloc);
    push_alone(&mut own, sharing, &message.ops)?;
    own.sort_unstable();
    shared.add_others(cells.as_slice(), own.as_slice(), message.cost)?;
    own.dedup();
    alone.add_all(own.as_slice(), message.cost)
}

/// Whether the operations need no cell alone.
fn needs_none(sharing: Option<&Layout>, ops: &Ops) -> bool
    requires cells { IfSome sharing (λ layout. All (IsCell layout.now.spaces) (cells_of ops.now)) }
    ensures { IsTrue result → cells_alone (option_map (λ layout. layout.now.spaces) sharing.entry) ops.now ≡ [] }
{
    for index in 0..ops.len() {
        if !needs_none_by(sharing, ops.get(index)) {
            return false;
        }
    }
    true
}

/// Whether the operation needs no cell alone.
fn needs_none_by(sharing: Option<&Layout>, op: Op) -> bool
    requires cells { IfSome sharing (λ layout. All (IsCell layout.now.spaces) (cells_of_op op)) }
    ensures { IsTrue result → cells_alone_by (option_map (λ layout. layout.now.spaces) sharing.entry) op ≡ [] }
{
    match op {
        Op::Read { cell } => may_share(sharing, cell),
        Op::Set { .. } | Op::Add { .. } | Op::Copy { .. } | Op::Swap { .. } => false,
    }
}

/// Whether the operations need each cell alone that they name.
fn needs_all(sharing: Option<&Layout>, ops: &Ops) -> bool
    requires cells { IfSome sharing (λ layout. All (IsCell layout.now.spaces) (cells_of ops.now)) }
    ensures { IsTrue result → cells_alone (option_map (λ layout. layout.now.spaces) sharing.entry) ops.now ≡ cells_of ops.now }
{
    for index in 0..ops.len() {
        if !needs_all_by(sharing, ops.get(index)) {
            return false;
        }
    }
    true
}

/// Whether the operation needs each cell alone that it names.
fn needs_all_by(sharing: Option<&Layout>, op: Op) -> bool
    requires cells { IfSome sharing (λ layout. All (IsCell layout.now.spaces) (cells_of_op op)) }
    ensures { IsTrue result → cells_alone_by (option_map (λ layout. layout.now.spaces) sharing.entry) op ≡ cells_of_op op }
{
    match op {
        Op::Set { .. } => true,
        Op::Add { .. } => true,
        Op::Swap { .. } => true,
        Op::Copy { source, .. } => !may_share(sharing, source),
        Op::Read { cell } => !may_share(sharing, cell),
    }
}

/// Whether messages that only read the cell share it.
fn may_share(sharing: Option<&Layout>, cell: Cell) -> bool
    requires { IfSome sharing (λ layout. IsCell layout.now.spaces cell) }
    ensures { result ≡ may_share (option_map (λ layout. layout.now.spaces) sharing.entry) cell }
{
    match sharing {
        Some(layout) => match layout.locking(cell) {
            Locking::Shared => true,
            Locking::Unlocked => false,
            Locking::Exclusive => false,
        },
        None => true,
    }
}

/// Appends the cells that the operations need alone.
fn push_alone(cells: &mut Vec<Cell>, sharing: Option<&Layout>, ops: &Ops) -> Result<(), AllocError>
    requires cells { IfSome sharing (λ layout. All (IsCell layout.now.spaces) (cells_of ops.now)) }
    ensures { OnOk result (cells.new.items ≡ cells.old.items ++ cells_alone (option_map (λ layout. layout.now.spaces) sharing.entry) ops.now) }
{
    for index in 0..ops.len() {
        push_alone_by(cells, sharing, ops.get(index))?;
    }
    Ok(())
}

/// Appends the cells that the operation needs alone.
fn push_alone_by(cells: &mut Vec<Cell>, sharing: Option<&Layout>, op: Op) -> Result<(), AllocError>
    requires cells { IfSome sharing (λ layout. All (IsCell layout.now.spaces) (cells_of_op op)) }
    ensures { OnOk result (cells.new.items ≡ cells.old.items ++ cells_alone_by (option_map (λ layout. layout.now.spaces) sharing.entry) op) }
{
    match op {
        Op::Read { cell } => push_unless_shared(cells, sharing, cell)?,
        Op::Set { cell, .. } | Op::Add { cell, .. } => cells.push(cell)?,
        Op::Copy { cell, source } => {
            cells.push(cell)?;
            push_unless_shared(cells, sharing, source)?;
        }
        Op::Swap { cell, other } => {
            cells.push(cell)?;
            cells.push(other)?;
        }
    }
    Ok(())
}

/// Appends the cell, unless messages that only read it share it.
fn push_unless_shared(
    cells: &mut Vec<Cell>,
    sharing: Option<&Layout>,
    cell: Cell,
) -> Result<(), AllocError>
    requires cell { IfSome sharing (λ layout. IsCell layout.now.spaces cell) }
    ensures { OnOk result (cells.new.items ≡ cells.old.items ++ unless_shared (option_map (λ layout. layout.now.spaces) sharing.entry) cell) }
{
    if !may_share(sharing, cell) {
        cells.push(cell)?;
    }
    Ok(())
}
