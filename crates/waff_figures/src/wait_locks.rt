//! The locks by which messages wait for one another.

ghost use Rattle.std.specs.Prelude.{◌≡◌, ◌-◌, ◌<◌, ◌≤◌, All, IfOk, IfSome, None, length, slice_index_or};
ghost use Rattle.waff_assign.specs.Held.{AreKnown};
ghost use Rattle.waff_assign.specs.Order.{held_of};
ghost use Rattle.waff_model.specs.Layout.{has_locks};
ghost use Rattle.waff_plan.specs.Work.{IsAmongFirst};
ghost use Rattle.waff_figures.specs.WaitLocks.{AreBy, IsBy, IsLockBetween, cell_by, space_by};

use std::alloc::{AllocError, Global};
use waff_assign::{Assigned, Case, contended_lock, exclude_by_affinities};
use waff_model::{Cell, Layout, Tree};

/// The cells that number the locks which messages use, and the spaces that these cells are of.
#[derive(Clone, Copy)]
pub struct LockCells<'a> {
    pub layout: &'a Layout,
    pub cells: &'a [Cell],
    /// Whether some space has locks.
    pub are_some: bool,
    pub ghost some: { are_some ≡ has_locks layout.now.spaces },
    pub ghost known: { All (λ cell. cell.space < length layout.now.spaces) cells.now },
}

impl<'a> LockCells<'a> {
    /// The cell of this lock, if it is one.
    pub(crate) fn cell(&self, by: Option<u32>) -> Option<Cell>
        ensures cell { result ≡ cell_by self.now.cells.now by }
        ensures known { IfSome result (λ cell. cell.space < length self.now.layout.now.spaces) }
    {
        cell_by(self.cells, by)
    }
}

/// The cell of this lock, if it is one.
pub(crate) fn cell_by(cells: &[Cell], by: Option<u32>) -> Option<Cell>
    ensures { result ≡ cell_by cells.now by }
{
    match by {
        Some(lock) => cells.get(lock as usize).copied(),
        None => None,
    }
}

/// The space of the cell of this lock, if it is one.
pub(crate) fn space_by(cells: &[Cell], by: Option<u32>) -> Option<u32>
    ensures { result ≡ space_by cells.now by }
{
    match cell_by(cells, by) {
        Some(cell) => Some(cell.space),
        None => None,
    }
}

/// For each message the lock by which it waits for the one that it waited for; none are listed where no message uses a
/// lock.
pub(crate) fn locks_waited_for(
    alloc: Global,
    case: &Case<'_>,
    waited: &[Option<u32>],
) -> Result<Vec<Option<u32>>, AllocError>
    requires count { length waited.now ≡ length case.now.assigned.now }
    requires known { All (λ on. IfSome on (IsAmongFirst (length case.now.assigned.now))) waited.now }
    ensures { IfOk result (λ locks. AreBy case.now.tree.now case.now.assigned.now waited.now locks.items) }
{
    let mut locks = Vec::new(alloc);
    if case.assigned.is_unlocked() {
        return Ok(locks);
    }
    for n in 1..case.assigned.len() + 1 {
        locks.push(lock_waited_for(case, n, waited[n as usize - 1]))?;
    }
    Ok(locks)
}

/// The lock by which message `n` waits for another one, if it waits for one.
fn lock_waited_for(case: &Case<'_>, n: u32, on: Option<u32>) -> Option<u32>
    requires message { IsAmongFirst (length case.now.assigned.now) n }
    requires on { IfSome on (IsAmongFirst (length case.now.assigned.now)) }
    ensures { IsBy case.now.tree.now case.now.assigned.now n on result }
{
    match on {
        Some(other) => lock_between(case.tree, case.assigned, other, n),
        None => None,
    }
}

/// The lock by which messages `i` and `j` exclude each other, if they do so by no affinity.
fn lock_between(tree: &Tree, assigned: &Assigned, i: u32, j: u32) -> Option<u32>
    requires first { IsAmongFirst (length assigned.now) i }
    requires second { IsAmongFirst (length assigned.now) j }
    requires known { AreKnown tree.now assigned.now }
    ensures { IsLockBetween tree.now (held_of assigned.now i) (held_of assigned.now j) result }
{
    if exclude_by_affinities(tree, assigned, i, j) {
        return None;
    }
    contended_lock(assigned, i, j)
}

/// The lock that is listed for message `n`, if one is.
pub(crate) fn lock_of(locks: &[Option<u32>], n: u32) -> Option<u32>
    requires { 1 ≤ n }
    ensures { result ≡ slice_index_or locks.now (n - 1) None }
{
    match locks.get(n as usize - 1) {
        Some(by) => *by,
        None => None,
    }
}
