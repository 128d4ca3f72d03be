//! Operations on cells.

use crate::cell::Cell;

/// One operation of a message. The two cells of `Copy` and of `Swap` may be the same.
#[derive(Clone, Copy, PartialEq)]
pub enum Op {
    /// The cell becomes the value.
    Set { cell: Cell, value: u64 },
    /// The value is added to the cell, modulo 2^64.
    Add { cell: Cell, value: u64 },
    /// The cell becomes the value of the source.
    Copy { cell: Cell, source: Cell },
    /// The two cells exchange their values.
    Swap { cell: Cell, other: Cell },
    /// Nothing changes; the cell counts as used.
    Read { cell: Cell },
}

/// What an operation does.
#[derive(Clone, Copy)]
pub enum Verb {
    Set,
    Add,
    Copy,
    Swap,
    Read,
}
