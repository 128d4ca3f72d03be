//! The owners of the footprints of messages, kept flat.

ghost use Rattle.std.specs.Prelude.{◌≡◌, length, All, IfOk, OnOk};
ghost use Rattle.waff_model.specs.Cells.{cells_of, cells_of_op};
ghost use Rattle.waff_model.specs.Layout.{IsCell, IsLayout};
ghost use Rattle.waff_model.specs.Messages.{IsTrace, sizes_of};
ghost use Rattle.waff_cells.specs.Serial.{operations};
ghost use Rattle.waff_core.specs.Owners.{AreAdded, AreOwners, owners_in};

use crate::owner_set::OwnerSet;
use std::alloc::{AllocError, Global};
use waff_cells::ParcelTable;
use waff_model::{Op, Ops, Trace};
use waff_order::Lists;

/// The owners of the footprint of each message, each once.
pub(crate) fn list_owners(
    alloc: Global,
    table: &ParcelTable,
    trace: &Trace,
) -> Result<Lists<u16>, AllocError>
    requires layout { IsLayout table.now }
    requires fits { trace.now.sizes ≡ sizes_of table.now.spaces }
    ensures trace { IfOk result (λ owners. IsTrace trace.now) }
    ensures owners { IfOk result
        (AreOwners table.now.spaces (operations trace.now.messages)) }
{
    let mut lists = Lists::with_capacity(alloc, trace.len() as usize)?;
    let mut owners = OwnerSet::none(alloc, table.layout().tree().len() as usize)?;
    for n in 1..trace.len() + 1 {
        owners.clear();
        push_owners(&mut owners, table, &trace.message(n).ops)?;
        lists.push(owners.as_slice())?;
    }
    Ok(lists)
}

/// Appends the owners of the cells that the operations name, where they are new.
fn push_owners(owners: &mut OwnerSet, table: &ParcelTable, ops: &Ops) -> Result<(), AllocError>
    requires layout { IsLayout table.now }
    requires count { owners.old.count ≡ length table.now.tree }
    requires cells { All (IsCell table.now.spaces) (cells_of ops.now) }
    ensures count { owners.new.count ≡ owners.old.count }
    ensures added { OnOk result (AreAdded (owners_in table.now.spaces (cells_of ops.now))
        owners.old.owners owners.new.owners) }
{
    for at in 0..ops.len() {
        push_owners_of_op(owners, table, ops.get(at))?;
    }
    Ok(())
}

/// Appends the owners of the cells that the operation names, where they are new.
fn push_owners_of_op(owners: &mut OwnerSet, table: &ParcelTable, op: Op) -> Result<(), AllocError>
    requires layout { IsLayout table.now }
    requires count { owners.old.count ≡ length table.now.tree }
    requires cells { All (IsCell table.now.spaces) (cells_of_op op) }
    ensures count { owners.new.count ≡ owners.old.count }
    ensures added { OnOk result (AreAdded (owners_in table.now.spaces (cells_of_op op))
        owners.old.owners owners.new.owners) }
{
    match op {
        Op::Set { cell, .. } | Op::Add { cell, .. } | Op::Read { cell } => {
            owners.insert(table.owner(cell))
        }
        Op::Copy {
            cell,
            source: other,
        }
        | Op::Swap { cell, other } => {
            owners.insert(table.owner(cell))?;
            owners.insert(table.owner(other))
        }
    }
}
