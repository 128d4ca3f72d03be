//! The uses of locks by the operations of a message.

ghost use Rattle.std.specs.Prelude.{◌≡◌, ◌<◌, ◌++◌, length, All, Contains, OnOk, true};
ghost use Rattle.std.specs.List.Sorted.{IsStrictlySortedBy};
ghost use Rattle.waff_model.specs.Cells.{cells_of, cells_of_op};
ghost use Rattle.waff_model.specs.Layout.{IsCell, IsLocked};
ghost use Rattle.waff_model.specs.declared.cell.Cell.{Cell};
ghost use Rattle.waff_assign.specs.Footprint.{cell_cmp};
ghost use Rattle.waff_assign.specs.Lowest.{ListsUses};
ghost use Rattle.waff_assign.specs.Uses.{are_shared, is_locked, locked_cells, seen_at, seen_by, uses_from};

use crate::held::LockUse;
use crate::locks::Locks;
use std::alloc::AllocError;
use waff_model::{Cell, Layout, Locking, Op, Ops};

/// A use of a lock by an operation. One alone comes before shared ones of the same lock.
#[derive(Clone, Copy, PartialEq, Eq, PartialOrd, Ord)]
pub(crate) struct Seen {
    lock: u32,
    shared: bool,
}

/// Lists the uses of locks by the operations. What both lists had is let go.
pub(crate) fn list_uses(
    uses: &mut Vec<LockUse>,
    seen: &mut Vec<Seen>,
    layout: &Layout,
    locks: &Locks,
    ops: &Ops,
) -> Result<(), AllocError>
    requires cells { All (IsCell layout.now.spaces) (cells_of ops.now) }
    requires listed { All (Contains locks.now) (locked_cells layout.now.spaces (cells_of ops.now)) }
    requires locked { All (IsLocked layout.now.spaces) locks.now }
    requires rising { IsStrictlySortedBy cell_cmp locks.now }
    ensures uses { OnOk result (ListsUses layout.now ops.now locks.now uses.new.items) }
    ensures some { OnOk result ((cell : Cell) → Contains (cells_of ops.now) cell
        → IsLocked layout.now.spaces cell → 0 < length uses.new.items) }
{
    seen.clear();
    for index in 0..ops.len() {
        see(seen, layout, locks, ops.get(index))?;
    }
    seen.sort_unstable();
    uses.clear();
    push_each(uses, seen)?;
    Ok(())
}

/// Appends the uses of locks by the operation.
fn see(seen: &mut Vec<Seen>, layout: &Layout, locks: &Locks, op: Op) -> Result<(), AllocError>
    requires cells { All (IsCell layout.now.spaces) (cells_of_op op) }
    requires listed { All (Contains locks.now) (locked_cells layout.now.spaces (cells_of_op op)) }
    ensures { OnOk result (seen.new.items ≡ seen.old.items ++ seen_by layout.now.spaces locks.now op) }
{
    match op {
        Op::Set { cell, .. } | Op::Add { cell, .. } => see_cell(seen, layout, locks, cell, true),
        Op::Read { cell } => see_cell(seen, layout, locks, cell, false),
        Op::Copy { cell, source } => {
            see_cell(seen, layout, locks, cell, true)?;
            see_cell(seen, layout, locks, source, false)
        }
        Op::Swap { cell, other } => {
            see_cell(seen, layout, locks, cell, true)?;
            see_cell(seen, layout, locks, other, true)
        }
    }
}

/// Appends the use of the cell's lock, where it has one, by an operation that writes the cell or only reads it.
fn see_cell(
    seen: &mut Vec<Seen>,
    layout: &Layout,
    locks: &Locks,
    cell: Cell,
    writes: bool,
) -> Result<(), AllocError>
    requires cell { IsCell layout.now.spaces cell }
    requires listed { is_locked layout.now.spaces cell ≡ true → Contains locks.now cell }
    ensures { OnOk result (seen.new.items
        ≡ seen.old.items ++ seen_at layout.now.spaces locks.now writes cell) }
{
    let locking = layout.locking(cell);
    if locking.are_some() {
        seen.push(Seen {
            lock: locks.number(cell),
            shared: !writes && are_shared(locking),
        })?;
    }
    Ok(())
}

/// Whether who only reads the cell shares its lock.
fn are_shared(locking: Locking) -> bool
    ensures { result ≡ are_shared locking }
{
    matches!(locking, Locking::Shared)
}

/// Appends the first use of each lock.
fn push_each(uses: &mut Vec<LockUse>, seen: &[Seen]) -> Result<(), AllocError>
    ensures { OnOk result (uses.new.items ≡ uses.old.items ++ uses_from 0 seen.now) }
{
    let mut next = 0;
    for each in seen {
        if next <= u64::from(each.lock) {
            uses.push(LockUse {
                lock: each.lock,
                alone: !each.shared,
            })?;
            next = u64::from(each.lock) + 1;
        }
    }
    Ok(())
}
