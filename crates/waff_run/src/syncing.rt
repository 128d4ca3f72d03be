//! Which files are synced at the end of a message.

ghost use Rattle.std.specs.Prelude.{◌≡◌, ◌++◌, OnOk};
ghost use Rattle.waff_model.specs.Cells.{cells_of_op};
ghost use Rattle.waff_run.specs.Syncing.{ListsOnce, cells_synced, cells_written, files_synced};
ghost use Rattle.waff_run.specs.Syncing.{files_with};

use crate::places::Places;
use std::alloc::AllocError;
use waff_model::{Op, Ops};

/// Which files are synced at the end of a message.
#[derive(Clone, Copy, Debug, PartialEq)]
pub enum Syncs {
    None,
    /// Those that it has written.
    Written,
    /// Those in which its cells lie.
    All,
}

/// Lists the files that are synced at the end of operations, each once.
pub(crate) fn list_synced(
    places: &Places,
    ops: &Ops,
    which: Syncs,
    files: &mut Vec<usize>,
) -> Result<(), AllocError>
    ensures { OnOk result
        (ListsOnce (files_synced places.now which ops.now) files.new.items) }
{
    files.clear();
    for at in 0..ops.len() {
        push_synced(places, ops.get(at), which, files)?;
    }
    files.sort_unstable();
    files.dedup();
    Ok(())
}

/// Appends the files of the cells of an operation that are synced.
fn push_synced(
    places: &Places,
    op: Op,
    which: Syncs,
    files: &mut Vec<usize>,
) -> Result<(), AllocError>
    ensures { OnOk result (files.new.items
        ≡ files.old.items ++ files_with places.now (cells_synced which op)) }
{
    match which {
        Syncs::None => Ok(()),
        Syncs::Written => push_written(places, op, files),
        Syncs::All => push_named(places, op, files),
    }
}

/// Appends the files of the cells that an operation writes.
fn push_written(places: &Places, op: Op, files: &mut Vec<usize>) -> Result<(), AllocError>
    ensures { OnOk result (files.new.items
        ≡ files.old.items ++ files_with places.now (cells_written op)) }
{
    match op {
        Op::Read { .. } => {}
        Op::Set { cell, .. } | Op::Add { cell, .. } | Op::Copy { cell, .. } => {
            files.push(places.spot(cell).file)?;
        }
        Op::Swap { cell, other } => {
            files.push(places.spot(cell).file)?;
            files.push(places.spot(other).file)?;
        }
    }
    Ok(())
}

/// Appends the files of the cells that an operation names.
fn push_named(places: &Places, op: Op, files: &mut Vec<usize>) -> Result<(), AllocError>
    ensures { OnOk result (files.new.items
        ≡ files.old.items ++ files_with places.now (cells_of_op op)) }
{
    match op {
        Op::Set { cell, .. } | Op::Add { cell, .. } | Op::Read { cell } => {
            files.push(places.spot(cell).file)?;
        }
        Op::Copy {
            cell,
            source: other,
        }
        | Op::Swap { cell, other } => {
            files.push(places.spot(cell).file)?;
            files.push(places.spot(other).file)?;
        }
    }
    Ok(())
}
