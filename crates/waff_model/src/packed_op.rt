//! Operations of small numbers, of twelve bytes each.

ghost use Rattle.std.specs.Prelude.{◌≡◌, ◌↔◌, ◌<◌, ◌^◌, IsTrue, IsSome, IfSome};
ghost use Rattle.waff_model.specs.PackedOps.{IsSmall, cell_at, op_by, op_of};

use crate::cell::Cell;
use crate::op::{Op, Verb};

/// An operation whose spaces are below 2^8 and its value below 2^32. The cell that every operation
/// has stands at one place, so that it is found without a look at the verb.
#[derive(Clone, Copy)]
pub(crate) struct PackedOp {
    verb: Verb,
    space: u8,
    other_space: u8,
    index: u32,
    /// The index of the other cell, or the value.
    rest: u32,
}

impl PackedOp {
    /// The operation, where its numbers are small.
    pub fn of(op: Op) -> Option<PackedOp>
        ensures small { IsSome result ↔ IsSmall op }
        ensures same { IfSome result (λ packed. op_of packed ≡ op) }
    {
        if is_small(op) { Some(packed(op)) } else { None }
    }

    /// The operation that this one stands for.
    pub fn op(self) -> Op
        ensures { result ≡ op_of self }
    {
        let cell = cell_at(self.space, self.index);
        let other = cell_at(self.other_space, self.rest);
        let value = self.rest as u64;
        match self.verb {
            Verb::Set => Op::Set { cell, value },
            Verb::Add => Op::Add { cell, value },
            Verb::Copy => Op::Copy {
                cell,
                source: other,
            },
            Verb::Swap => Op::Swap { cell, other },
            Verb::Read => Op::Read { cell },
        }
    }
}

/// The operation, whose numbers are small.
fn packed(op: Op) -> PackedOp
    requires { IsSmall op }
    ensures { op_of result ≡ op }
{
    match op {
        Op::Set { cell, value } => with_value(Verb::Set, cell, value as u32),
        Op::Add { cell, value } => with_value(Verb::Add, cell, value as u32),
        Op::Copy { cell, source } => with_other(Verb::Copy, cell, source),
        Op::Swap { cell, other } => with_other(Verb::Swap, cell, other),
        Op::Read { cell } => with_value(Verb::Read, cell, 0),
    }
}

/// The operation of this verb on a cell, with this value.
fn with_value(verb: Verb, cell: Cell, value: u32) -> PackedOp
    requires { cell.space < 2 ^ 8 }
    ensures { op_of result ≡ op_by verb cell (cell_at 0 value) value }
{
    PackedOp {
        verb,
        space: cell.space as u8,
        other_space: 0,
        index: cell.index,
        rest: value,
    }
}

/// The operation of this verb on two cells.
fn with_other(verb: Verb, cell: Cell, other: Cell) -> PackedOp
    requires cell { cell.space < 2 ^ 8 }
    requires other { other.space < 2 ^ 8 }
    ensures { op_of result ≡ op_by verb cell other other.index }
{
    PackedOp {
        verb,
        space: cell.space as u8,
        other_space: other.space as u8,
        index: cell.index,
        rest: other.index,
    }
}

/// The cell with this index in a space.
fn cell_at(space: u8, index: u32) -> Cell
    ensures { result ≡ cell_at space index }
{
    Cell {
        space: space as u32,
        index,
    }
}

/// Whether the numbers of the operation are small.
fn is_small(op: Op) -> bool
    ensures { IsTrue result ↔ IsSmall op }
{
    match op {
        Op::Set { cell, value } => cell.space < 256 && value < 4_294_967_296,
        Op::Add { cell, value } => cell.space < 256 && value < 4_294_967_296,
        Op::Copy { cell, source } => cell.space < 256 && source.space < 256,
        Op::Swap { cell, other } => cell.space < 256 && other.space < 256,
        Op::Read { cell } => cell.space < 256,
    }
}
