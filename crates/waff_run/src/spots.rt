//! The cells that a trace names, as places in files.

ghost use Rattle.std.specs.Prelude.{◌≡◌, ◌++◌, ◌∷◌, [], IfOk, List, OnOk, map};
ghost use Rattle.waff_model.specs.Cells.{cells_of, cells_of_op};
ghost use Rattle.waff_model.specs.declared.cell.Cell.{Cell};
ghost use Rattle.waff_run.specs.Named.{AreEnds, ListsSpots, cells_named};
ghost use Rattle.waff_run.specs.Places.{spot_of};
ghost use Rattle.waff_run.specs.Syncing.{ListsOnce};

use crate::places::{Places, Spot};
use std::alloc::{AllocError, Global};
use waff_model::{Cell, Op, Ops, Trace};

/// The byte behind the last cell that the trace names in each file, 0 for a file in which it names none.
pub(crate) fn ends(alloc: Global, trace: &Trace, places: &Places) -> Result<Vec<u64>, AllocError>
    ensures { IfOk result (λ ends.
        AreEnds places.now (cells_named trace.now.messages) ends.items) }
{
    let mut ends = vec![in alloc; 0; places.files()]?;
    for m in 1..trace.len() + 1 {
        note_ends(&mut ends, places, &trace.message(m).ops);
    }
    Ok(ends)
}

/// Notes the ends of the cells that operations name.
fn note_ends(ends: &mut [u64], places: &Places, ops: &Ops)
    ensures { (cells : List Cell) → AreEnds places.now cells ends.old
        → AreEnds places.now (cells ++ cells_of ops.now) ends.new }
{
    for at in 0..ops.len() {
        note_ends_of_op(ends, places, ops.get(at));
    }
}

/// Notes the ends of the cells that an operation names.
fn note_ends_of_op(ends: &mut [u64], places: &Places, op: Op)
    ensures { (cells : List Cell) → AreEnds places.now cells ends.old
        → AreEnds places.now (cells ++ cells_of_op op) ends.new }
{
    match op {
        Op::Set { cell, .. } | Op::Add { cell, .. } | Op::Read { cell } => {
            note_end(ends, places, cell);
        }
        Op::Copy {
            cell,
            source: other,
        }
        | Op::Swap { cell, other } => {
            note_end(ends, places, cell);
            note_end(ends, places, other);
        }
    }
}

/// Notes the end of a cell in its file.
fn note_end(ends: &mut [u64], places: &Places, cell: Cell)
    ensures { (cells : List Cell) → AreEnds places.now cells ends.old
        → AreEnds places.now (cells ++ cell ∷ []) ends.new }
{
    let spot = places.spot(cell);
    if spot.file < ends.len() {
        let end = spot.at + places.bytes();
        if ends[spot.file] < end {
            ends[spot.file] = end;
        }
    }
}

/// The cells that the trace names, each once.
pub(crate) fn spots(alloc: Global, trace: &Trace, places: &Places) -> Result<Vec<Spot>, AllocError>
    ensures { IfOk result (λ spots.
        ListsSpots places.now (cells_named trace.now.messages) spots.items) }
{
    let mut spots = all_spots(alloc, trace, places)?;
    spots.sort_unstable();
    spots.dedup();
    Ok(spots)
}

/// The cells that the trace names, in order.
fn all_spots(alloc: Global, trace: &Trace, places: &Places) -> Result<Vec<Spot>, AllocError>
    ensures { IfOk result (λ spots.
        spots.items ≡ map (spot_of places.now) (cells_named trace.now.messages)) }
{
    let mut spots = Vec::new(alloc);
    for m in 1..trace.len() + 1 {
        push_spots(&mut spots, places, &trace.message(m).ops)?;
    }
    Ok(spots)
}

/// Appends the places of the cells that operations name.
fn push_spots(spots: &mut Vec<Spot>, places: &Places, ops: &Ops) -> Result<(), AllocError>
    ensures { OnOk result (spots.new.items
        ≡ spots.old.items ++ map (spot_of places.now) (cells_of ops.now)) }
{
    for at in 0..ops.len() {
        push_spots_of_op(spots, places, ops.get(at))?;
    }
    Ok(())
}

/// Appends the places of the cells that an operation names.
fn push_spots_of_op(spots: &mut Vec<Spot>, places: &Places, op: Op) -> Result<(), AllocError>
    ensures { OnOk result (spots.new.items
        ≡ spots.old.items ++ map (spot_of places.now) (cells_of_op op)) }
{
    match op {
        Op::Set { cell, .. } | Op::Add { cell, .. } | Op::Read { cell } => {
            spots.push(places.spot(cell))?;
        }
        Op::Copy {
            cell,
            source: other,
        }
        | Op::Swap { cell, other } => {
            spots.push(places.spot(cell))?;
            spots.push(places.spot(other))?;
        }
    }
    Ok(())
}

/// Lists the files in which these places lie, each once.
pub(crate) fn list_files(spots: &[Spot], files: &mut Vec<usize>) -> Result<(), AllocError>
    ensures { OnOk result (ListsOnce (map (λ spot. spot.file) spots.now) files.new.items) }
{
    files.clear();
    for at in 0..spots.len() {
        files.push(spots[at].file)?;
    }
    files.sort_unstable();
    files.dedup();
    Ok(())
}
