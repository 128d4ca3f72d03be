//! Waits of one kind told together.

ghost use Rattle.std.specs.Prelude.{◌≡◌, ◌+◌, ◌<◌, ◌≤◌, ◌^◌, [], ◌∷◌, All, false, IfOk};
ghost use Rattle.std.specs.Prelude.{OnOk, length};
ghost use Rattle.std.specs.List.{AllPairs};
ghost use Rattle.waff_figures.specs.Waits.{ComesFirst, IsWaitAmong};
ghost use Rattle.waff_figures.specs.WaitRows.{AreRows, kind_in, row_over, row_with};
ghost use Rattle.waff_figures.specs.WaitRows.{rows_by, rows_with, same_in};

use crate::wait_locks::space_by;
use crate::waits::Wait;
use indexmap::IndexSet;
use std::alloc::{AllocError, Global};
use std::cmp::Reverse;
use waff_model::Cell;

/// What is told of all waits of one kind: how many messages wait so, and how long.
#[derive(Clone, Copy)]
pub struct Row {
    /// The first of these waits: the others are of messages like its own.
    pub first: Wait,
    pub messages: usize,
    /// The sum of the ticks. It may pass 64 bits, as 1,048,576 starts may be up to 10^15.
    pub ticks: u128,
    /// The most ticks of one message.
    pub longest: u64,
}

/// The group of a message: the number of its name, or 0 where names don't count, and that of its
/// affinity.
pub type Group = (u32, u32);

/// What kind a wait is of: the groups of its message and of the one that it waits for, and the space of the lock by
/// which it does.
type Kind = (Group, (Option<Group>, Option<u32>));

/// The rows of these waits, where message n is in the group `groups[n - 1]` and the locks are numbered by these
/// cells: the most ticks first, and of as many ticks in the order of their first waits.
pub(crate) fn rows(
    alloc: Global,
    waits: &[Wait],
    groups: &[Group],
    cells: &[Cell],
) -> Result<Vec<Row>, AllocError>
    requires order { AllPairs ComesFirst waits.now }
    requires among { All (IsWaitAmong (length groups.now)) waits.now }
    ensures { IfOk result (λ rows. AreRows (same_in groups.now cells.now) waits.now rows.items) }
{
    let mut rows = gathered(alloc, waits, groups, cells)?;
    rows.sort_by_key(|row| Reverse(row.ticks))?;
    Ok(rows)
}

/// The rows in the order of their first waits.
fn gathered(
    alloc: Global,
    waits: &[Wait],
    groups: &[Group],
    cells: &[Cell],
) -> Result<Vec<Row>, AllocError>
    requires among { All (IsWaitAmong (length groups.now)) waits.now }
    ensures { IfOk result (λ rows. rows.items ≡ rows_by (same_in groups.now cells.now) waits.now) }
{
    let mut kinds = IndexSet::new(alloc);
    gathered_by(alloc, &mut kinds, waits, groups, cells)
}

/// The same rows, by a set that has no kind yet.
fn gathered_by(
    alloc: Global,
    kinds: &mut IndexSet<Kind>,
    waits: &[Wait],
    groups: &[Group],
    cells: &[Cell],
) -> Result<Vec<Row>, AllocError>
    requires none { kinds.old.keys ≡ [] }
    requires among { All (IsWaitAmong (length groups.now)) waits.now }
    ensures { IfOk result (λ rows. rows.items ≡ rows_by (same_in groups.now cells.now) waits.now) }
{
    let mut rows = Vec::new(alloc);
    for wait in waits {
        let (place, is_new) = kinds.insert_full(kind(groups, cells, wait))?;
        tell(&mut rows, place, is_new, wait)?;
    }
    Ok(rows)
}

/// Tells of one wait more: in the row at this place, or where its kind is new in a row of its own
/// behind the others.
fn tell(rows: &mut Vec<Row>, place: usize, is_new: bool, wait: &Wait) -> Result<(), AllocError>
    requires place { is_new ≡ false → place < length rows.old.items }
    requires few { All (λ row. row.messages + 1 < 2 ^ 64) rows.old.items }
    requires short { All (λ row. row.ticks + 2 ^ 64 ≤ 2 ^ 128) rows.old.items }
    ensures told { OnOk result
        (rows.new.items ≡ rows_with rows.old.items place is_new wait.now) }
    ensures small { wait.now.ticks < 2 ^ 64 }
{
    let _ticks = wait.ticks;
    if is_new {
        rows.push(row_of_one(wait))?;
    } else {
        rows[place] = row_with(&rows[place], wait);
    }
    Ok(())
}

/// What kind a wait is of.
fn kind(groups: &[Group], cells: &[Cell], wait: &Wait) -> Kind
    requires { IsWaitAmong (length groups.now) wait.now }
    ensures { result ≡ kind_in groups.now cells.now wait.now }
{
    let on = match wait.on {
        Some(other) => Some(groups[other as usize - 1]),
        None => None,
    };
    (
        groups[wait.message as usize - 1],
        (on, space_by(cells, wait.by)),
    )
}

/// The row of one wait.
fn row_of_one(wait: &Wait) -> Row
    ensures { result ≡ row_over (wait.now ∷ []) wait.now }
{
    Row {
        first: *wait,
        messages: 1,
        ticks: u128::from(wait.ticks),
        longest: wait.ticks,
    }
}

/// The row with one wait more.
fn row_with(row: &Row, wait: &Wait) -> Row
    requires few { row.now.messages + 1 < 2 ^ 64 }
    requires short { row.now.ticks + wait.now.ticks < 2 ^ 128 }
    ensures { result ≡ row_with row.now wait.now }
{
    let ticks = wait.ticks;
    Row {
        first: row.first,
        messages: row.messages + 1,
        ticks: row.ticks + u128::from(ticks),
        longest: row.longest.max(ticks),
    }
}
