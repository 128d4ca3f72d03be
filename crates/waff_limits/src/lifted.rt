//! Messages that run high, in affinities below which others lie, and the cells that lift them.

ghost use Rattle.std.specs.Prelude.{◌≡◌, ◌<◌, ◌≤◌, ◌↔◌, ◌∷◌, ◌++◌, [], List, All, IfOk, IfSome};
ghost use Rattle.std.specs.Prelude.{IsTrue, MatchOption, Some, length, option_map};
ghost use Rattle.waff_model.specs.Cells.{cells_of, cells_of_op};
ghost use Rattle.waff_model.specs.Layout.{IsCell, owner_of};
ghost use Rattle.waff_model.specs.Numbers.{IsAmongFirst};
ghost use Rattle.waff_model.specs.Tree.{AtOrAbove, parent_of};
ghost use Rattle.waff_model.specs.declared.cell.Cell.{Cell as CellOf};
ghost use Rattle.waff_model.specs.declared.limits.TheConstants.{MAX_MESSAGES};
ghost use Rattle.waff_assign.specs.Lowest.{IsAssignment, IsLowest, IsUnlockedAmong};
ghost use Rattle.waff_limits.specs.Jumps.{AreJumps};
ghost use Rattle.waff_limits.specs.Lifted.{AreInner, AreLifting, AreLifts, IsFirst, IsFirstAmong, IsLift};
ghost use Rattle.waff_limits.specs.Data.{ComesBefore};
ghost use Rattle.waff_limits.specs.Lifted.{IsNotBelow, IsOutside, IsSooner, IsTold, RunsHigh};

use crate::inner::inner;
use crate::jumps::{Jump, jumps, next_below};
use crate::laid::Laid;
use std::alloc::{AllocError, Global};
use waff_model::{AffinityId, Cell, Layout, Locking, Op, Ops};

/// A message that runs high: others lie below its affinity.
#[derive(Clone, Copy)]
pub struct Lift {
    pub message: u32,
    /// What it costs, in ticks.
    pub cost: u32,
    /// The first cell without a lock of its footprint.
    pub cell: Cell,
    /// The first such cell whose owner lifts the message so high from that of `cell`: `cell` itself where its own owner is the affinity.
    pub other: Cell,
}

/// What is told of the messages that run high, in the order of arrival.
pub(crate) fn lifts(alloc: Global, laid: &Laid<'_>) -> Result<Vec<Lift>, AllocError>
    requires assignment { IsAssignment laid.now.layout.now laid.now.case.trace.now.messages
        laid.now.case.assigned.now }
    ensures lifts { IfOk result (λ lifts. AreLifts laid.now.layout.now
        laid.now.case.trace.now.messages laid.now.case.assigned.now lifts.items) }
    ensures told { IfOk result (λ lifts. All (IsTold laid.now.layout.now.spaces
        (length laid.now.case.trace.now.messages)) lifts.items) }
    ensures few { IfOk result (λ lifts. length lifts.items ≤ MAX_MESSAGES) }
{
    let inner = inner(alloc, laid.layout.tree())?;
    let jumps = jumps(alloc, laid.layout.tree())?;
    let lifts = lifts_by(alloc, laid, inner.as_slice(), jumps.as_slice());
    drop(jumps);
    drop(inner);
    lifts
}

/// The same, by marks of the affinities below which others lie, and by jumps up the tree.
fn lifts_by(
    alloc: Global,
    laid: &Laid<'_>,
    inner: &[bool],
    jumps: &[Jump],
) -> Result<Vec<Lift>, AllocError>
    requires inner { AreInner laid.now.layout.now.tree inner.now }
    requires jumps { AreJumps laid.now.layout.now.tree jumps.now }
    requires assignment { IsAssignment laid.now.layout.now laid.now.case.trace.now.messages
        laid.now.case.assigned.now }
    ensures lifts { IfOk result (λ lifts. AreLifts laid.now.layout.now
        laid.now.case.trace.now.messages laid.now.case.assigned.now lifts.items) }
    ensures told { IfOk result (λ lifts. All (IsTold laid.now.layout.now.spaces
        (length laid.now.case.trace.now.messages)) lifts.items) }
    ensures few { IfOk result (λ lifts. length lifts.items ≤ MAX_MESSAGES) }
{
    let mut lifts = Vec::new(alloc);
    for n in 1..laid.case.trace.len() + 1 {
        match lift_of(laid, inner, jumps, n) {
            Some(lift) => lifts.push(lift)?,
            None => {}
        }
    }
    Ok(lifts)
}

/// What is told of message `n`, if it runs high.
fn lift_of(laid: &Laid<'_>, inner: &[bool], jumps: &[Jump], n: u32) -> Option<Lift>
    requires inner { AreInner laid.now.layout.now.tree inner.now }
    requires jumps { AreJumps laid.now.layout.now.tree jumps.now }
    requires number { IsAmongFirst (length laid.now.case.trace.now.messages) n }
    requires assignment { IsAssignment laid.now.layout.now laid.now.case.trace.now.messages
        laid.now.case.assigned.now }
    ensures { MatchOption result (¬ RunsHigh laid.now.layout.now.tree
        laid.now.case.trace.now.messages laid.now.case.assigned.now n) (λ lift. (lift.message ≡ n)
        × IsTold laid.now.layout.now.spaces (length laid.now.case.trace.now.messages) lift
        × IsLift laid.now.layout.now laid.now.case.trace.now.messages laid.now.case.assigned.now lift) }
{
    let message = laid.case.trace.message(n);
    let affinity = laid.case.assigned.affinity(n)?;
    if !inner[affinity.0 as usize] {
        return None;
    }
    let cell = first_cell(laid.layout, &message.ops);
    let other = other_cell(laid.layout, jumps, &message.ops, affinity, cell);
    Some(Lift {
        message: n,
        cost: message.cost,
        cell,
        other,
    })
}

/// The cell that lifts to their affinity with the first one without a lock that the operations name.
fn other_cell(layout: &Layout, jumps: &[Jump], ops: &Ops, affinity: AffinityId, first: Cell) -> Cell
    requires jumps { AreJumps layout.now.tree jumps.now }
    requires cells { All (IsCell layout.now.spaces) (cells_of ops.now) }
    requires lowest { IsLowest layout.now (IsUnlockedAmong layout.now (cells_of ops.now)) affinity.0 }
    requires first { IsFirst (IsUnlockedAmong layout.now (cells_of ops.now)) first }
    requires within { IsCell layout.now.spaces first }
    ensures lifting { AreLifting layout.now (IsUnlockedAmong layout.now (cells_of ops.now)) affinity.0 first result }
    ensures within { IsCell layout.now.spaces result }
{
    // Its contract tells `IsLayout`.
    let _ = layout.space_count();
    let owner = layout.owner(first);
    if owner == affinity {
        return first;
    }
    let below = next_below(layout.tree(), jumps, affinity, owner);
    lifting_cell(layout, ops, affinity, first, below)
}

/// The first cell without a lock that the operations name, where there is one.
fn first_cell(layout: &Layout, ops: &Ops) -> Cell
    requires some { (cell : CellOf) × IsUnlockedAmong layout.now (cells_of ops.now) cell }
    requires cells { All (IsCell layout.now.spaces) (cells_of ops.now) }
    ensures first { IsFirst (IsUnlockedAmong layout.now (cells_of ops.now)) result }
    ensures within { IsCell layout.now.spaces result }
{
    match first_outside(layout, ops, None) {
        Some(cell) => cell,
        None => unreachable!("an operation names a cell without a lock"),
    }
}

/// The first cell without a lock that the operations name with an owner that is not at or below the affinity `below`, which is the next
/// one below theirs on the way to the owner of the first.
fn lifting_cell(
    layout: &Layout,
    ops: &Ops,
    affinity: AffinityId,
    first: Cell,
    below: AffinityId,
) -> Cell
    requires cells { All (IsCell layout.now.spaces) (cells_of ops.now) }
    requires lowest { IsLowest layout.now (IsUnlockedAmong layout.now (cells_of ops.now)) affinity.0 }
    requires first { IsFirst (IsUnlockedAmong layout.now (cells_of ops.now)) first }
    requires below { parent_of layout.now.tree below.0 ≡ Some affinity.0 }
    requires above { AtOrAbove layout.now.tree below.0 (owner_of layout.now.spaces first) }
    requires within { below.0 < length layout.now.tree }
    ensures lifting { AreLifting layout.now (IsUnlockedAmong layout.now (cells_of ops.now)) affinity.0 first result }
    ensures within { IsCell layout.now.spaces result }
{
    // Its contract tells `IsLayout`.
    let _ = layout.space_count();
    match first_outside(layout, ops, Some(below)) {
        Some(cell) => cell,
        None => unreachable!("the affinity below is not at or above the owners of all cells"),
    }
}

/// The first cell without a lock that the operations name with an owner that is not at or below the affinity; of all such cells where
/// there is none.
fn first_outside(layout: &Layout, ops: &Ops, below: Option<AffinityId>) -> Option<Cell>
    requires cells { All (IsCell layout.now.spaces) (cells_of ops.now) }
    requires within { IfSome below (λ a. a.0 < length layout.now.tree) }
    ensures { IsFirstAmong (cells_of ops.now) (IsOutside layout.now (option_map (λ a. a.0) below)) result }
{
    let mut first = None;
    for index in 0..ops.len() {
        first = sooner_of_op(layout, below, first, ops.get(index));
    }
    first
}

/// The first of the cells so far, which is known, and of those that the operation names.
#[inline(always)]
fn sooner_of_op(
    layout: &Layout,
    below: Option<AffinityId>,
    first: Option<Cell>,
    op: Op,
) -> Option<Cell>
    requires cells { All (IsCell layout.now.spaces) (cells_of_op op) }
    requires within { IfSome below (λ a. a.0 < length layout.now.tree) }
    ensures { (cells : List CellOf)
        → IsFirstAmong cells (IsOutside layout.now (option_map (λ a. a.0) below)) first
        → IsFirstAmong (cells ++ cells_of_op op)
        (IsOutside layout.now (option_map (λ a. a.0) below)) result }
{
    match op {
        Op::Set { cell, .. } | Op::Add { cell, .. } | Op::Read { cell } => {
            sooner(layout, below, first, cell)
        }
        Op::Copy {
            cell,
            source: other,
        }
        | Op::Swap { cell, other } => {
            let first = sooner(layout, below, first, cell);
            sooner(layout, below, first, other)
        }
    }
}

/// The first of the cells so far, which is known, and of one more.
#[inline(always)]
fn sooner(
    layout: &Layout,
    below: Option<AffinityId>,
    first: Option<Cell>,
    cell: Cell,
) -> Option<Cell>
    requires cell { IsCell layout.now.spaces cell }
    requires within { IfSome below (λ a. a.0 < length layout.now.tree) }
    ensures { (cells : List CellOf)
        → IsFirstAmong cells (IsOutside layout.now (option_map (λ a. a.0) below)) first
        → IsFirstAmong (cells ++ cell ∷ []) (IsOutside layout.now (option_map (λ a. a.0) below)) result }
{
    if !is_sooner(first, cell) {
        return first;
    }
    if is_outside(layout, below, cell) {
        Some(cell)
    } else {
        first
    }
}

/// Whether the cell comes before the first one so far, if there is one.
#[inline(always)]
fn is_sooner(first: Option<Cell>, cell: Cell) -> bool
    ensures { IsTrue result ↔ IsSooner first cell }
{
    match first {
        Some(first) => comes_before(cell, first),
        None => true,
    }
}

#[inline(always)]
fn comes_before(cell: Cell, other: Cell) -> bool
    ensures { IsTrue result ↔ ComesBefore cell other }
{
    cell < other
}

/// Whether the cell has no lock, and its owner is not at or below the affinity, if there is one.
#[inline(always)]
fn is_outside(layout: &Layout, below: Option<AffinityId>, cell: Cell) -> bool
    requires cell { IsCell layout.now.spaces cell }
    requires within { IfSome below (λ a. a.0 < length layout.now.tree) }
    ensures { IsTrue result ↔ IsOutside layout.now (option_map (λ a. a.0) below) cell }
{
    layout.locking(cell) == Locking::Unlocked && is_not_below(layout, below, cell)
}

/// Whether the owner of the cell is not at or below the affinity, if there is one.
#[inline(always)]
fn is_not_below(layout: &Layout, below: Option<AffinityId>, cell: Cell) -> bool
    requires cell { IsCell layout.now.spaces cell }
    requires within { IfSome below (λ a. a.0 < length layout.now.tree) }
    ensures { IsTrue result ↔ IsNotBelow layout.now (option_map (λ a. a.0) below) cell }
{
    match below {
        Some(below) => !layout.tree().at_or_above(below, layout.owner(cell)),
        None => true,
    }
}
