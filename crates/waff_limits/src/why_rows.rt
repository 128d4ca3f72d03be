//! Messages that run high told together.

ghost use Rattle.std.specs.Prelude.{◌≡◌, ◌+◌, ◌<◌, ◌≤◌, ◌^◌, [], ◌∷◌, All, AllPairs, false, IfOk};
ghost use Rattle.std.specs.Prelude.{OnOk, length};
ghost use Rattle.waff_model.specs.Layout.{IsCell};
ghost use Rattle.waff_model.specs.Numbers.{IsAmongFirst};
ghost use Rattle.waff_model.specs.declared.limits.TheConstants.{MAX_MESSAGES};
ghost use Rattle.waff_limits.specs.Lifted.{IsTold};
ghost use Rattle.waff_limits.specs.WhyRows.{AreRows, kind_in, row_over, row_with, rows_by, rows_with, same_group};

use crate::lifted::Lift;
use indexmap::IndexSet;
use std::alloc::{AllocError, Global};
use std::cmp::Reverse;
use waff_figures::Group;
use waff_model::Layout;

/// What is told of all messages of one kind that run high.
#[derive(Clone, Copy)]
pub struct Row {
    /// The first of them.
    pub first: Lift,
    pub messages: u32,
    /// The sum of their costs, in ticks.
    pub cost: u64,
}

/// The owners of the two cells that lift a message.
type Owners = (u32, u32);

/// The rows of these lifts, where message n is in the group `groups[n - 1]`: the most cost first, and of as much cost in the order of
/// their first messages.
pub(crate) fn rows(
    alloc: Global,
    layout: &Layout,
    lifts: &[Lift],
    groups: &[Group],
) -> Result<Vec<Row>, AllocError>
    requires order { AllPairs (λ one other. one.message < other.message) lifts.now }
    requires told { All (IsTold layout.now.spaces (length groups.now)) lifts.now }
    requires few { length lifts.now ≤ MAX_MESSAGES }
    ensures { IfOk result (λ rows. AreRows (same_group groups.now layout.now.spaces) lifts.now rows.items) }
{
    let mut rows = gathered(alloc, layout, lifts, groups)?;
    rows.sort_by_key(|row| Reverse(row.cost))?;
    Ok(rows)
}

/// The rows in the order of their first messages.
fn gathered(
    alloc: Global,
    layout: &Layout,
    lifts: &[Lift],
    groups: &[Group],
) -> Result<Vec<Row>, AllocError>
    requires told { All (IsTold layout.now.spaces (length groups.now)) lifts.now }
    requires few { length lifts.now ≤ MAX_MESSAGES }
    ensures { IfOk result (λ rows. rows.items ≡ rows_by (same_group groups.now layout.now.spaces) lifts.now) }
{
    let mut kinds = IndexSet::new(alloc);
    gathered_by(alloc, layout, &mut kinds, lifts, groups)
}

/// The same rows, by a set that has no kind yet.
fn gathered_by(
    alloc: Global,
    layout: &Layout,
    kinds: &mut IndexSet<(Group, Owners)>,
    lifts: &[Lift],
    groups: &[Group],
) -> Result<Vec<Row>, AllocError>
    requires none { kinds.old.keys ≡ [] }
    requires told { All (IsTold layout.now.spaces (length groups.now)) lifts.now }
    requires few { length lifts.now ≤ MAX_MESSAGES }
    ensures { IfOk result (λ rows. rows.items ≡ rows_by (same_group groups.now layout.now.spaces) lifts.now) }
{
    let mut rows = Vec::new(alloc);
    for lift in lifts {
        let (place, is_new) = kinds.insert_full(kind(layout, groups, lift))?;
        tell(&mut rows, place, is_new, lift)?;
    }
    Ok(rows)
}

/// Tells of one lift more: in the row at this place, or where its kind is new in a row of its own behind the others.
fn tell(rows: &mut Vec<Row>, place: usize, is_new: bool, lift: &Lift) -> Result<(), AllocError>
    requires place { is_new ≡ false → place < length rows.old.items }
    requires few { All (λ row. row.messages + 1 < 2 ^ 32) rows.old.items }
    requires small { All (λ row. row.cost + 2 ^ 32 ≤ 2 ^ 64) rows.old.items }
    ensures told { OnOk result
        (rows.new.items ≡ rows_with rows.old.items place is_new lift.now) }
    ensures small { lift.now.cost < 2 ^ 32 }
{
    let _cost = lift.cost;
    if is_new {
        rows.push(row_of_one(lift))?;
    } else {
        rows[place] = row_with(&rows[place], lift);
    }
    Ok(())
}

/// What kind a lift is of: the group of its message, and the owners of its cells.
fn kind(layout: &Layout, groups: &[Group], lift: &Lift) -> (Group, Owners)
    requires { IsTold layout.now.spaces (length groups.now) lift.now }
    ensures { result ≡ kind_in groups.now layout.now.spaces lift.now }
{
    let first = layout.owner(lift.cell);
    let second = layout.owner(lift.other);
    (
        groups[lift.message as usize - 1],
        (u32::from(first.0), u32::from(second.0)),
    )
}

/// The row of one lift.
fn row_of_one(lift: &Lift) -> Row
    ensures { result ≡ row_over (lift.now ∷ []) lift.now }
{
    Row {
        first: *lift,
        messages: 1,
        cost: u64::from(lift.cost),
    }
}

/// The row with one lift more.
fn row_with(row: &Row, lift: &Lift) -> Row
    requires few { row.now.messages + 1 < 2 ^ 32 }
    requires small { row.now.cost + lift.now.cost < 2 ^ 64 }
    ensures { result ≡ row_with row.now lift.now }
{
    Row {
        first: row.first,
        messages: row.messages + 1,
        cost: row.cost + u64::from(lift.cost),
    }
}
