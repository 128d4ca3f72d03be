//! Cells in a row of one space.

ghost use Rattle.std.specs.Prelude.{◌≡◌, ◌≤◌, ◌∷◌, ◌++◌, [], IfSome, List, length};
ghost use Rattle.waff_model.specs.Cells.{cells_of, cells_of_op};
ghost use Rattle.waff_model.specs.declared.cell.Cell.{Cell as CellOf};
ghost use Rattle.waff_limits.specs.Runs.{AreOfRun};

use waff_model::{Cell, Op, Ops};

/// The cells of a space from the index `first` up to `last`, both included.
#[derive(Clone, Copy)]
pub(crate) struct Run {
    pub space: u32,
    pub first: u32,
    pub last: u32,
}

/// The cells that the operations, of which there is one at least, name, where there are several and each operation names the one behind
/// that of the operation before it.
pub(crate) fn run_of(ops: &Ops) -> Option<Run>
    requires some { 1 ≤ length ops.now }
    ensures cells { IfSome result (AreOfRun (cells_of ops.now)) }
    ensures filled { IfSome result (λ run. run.first ≤ run.last) }
{
    let Some(cell) = only_cell(ops.get(0)) else {
        return None;
    };
    let mut run = Run {
        space: cell.space,
        first: cell.index,
        last: cell.index,
    };
    for index in 1..ops.len() {
        match longer(run, ops.get(index)) {
            Some(longer) => run = longer,
            None => return None,
        }
    }
    if run.first < run.last {
        Some(run)
    } else {
        None
    }
}

/// The run with the cell behind it, if the operation names that one alone.
#[inline(always)]
fn longer(run: Run, op: Op) -> Option<Run>
    requires filled { run.first ≤ run.last }
    ensures longer { IfSome result (λ longer. (cells : List CellOf) → AreOfRun cells run
        → AreOfRun (cells ++ cells_of_op op) longer) }
    ensures filled { IfSome result (λ longer. longer.first ≤ longer.last) }
{
    let Some(cell) = only_cell(op) else {
        return None;
    };
    if cell.space == run.space && run.last < cell.index && cell.index - run.last == 1 {
        Some(Run {
            last: cell.index,
            ..run
        })
    } else {
        None
    }
}

/// The cell that the operation names, where it names one alone.
#[inline(always)]
fn only_cell(op: Op) -> Option<Cell>
    ensures { IfSome result (λ cell. cells_of_op op ≡ cell ∷ []) }
{
    match op {
        Op::Set { cell, .. } | Op::Add { cell, .. } | Op::Read { cell } => Some(cell),
        Op::Copy { .. } | Op::Swap { .. } => None,
    }
}
