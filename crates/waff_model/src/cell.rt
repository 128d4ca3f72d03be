//! Cells.

/// A cell: its space, by number from 0, and its index in the space. Cells are in order by space,
/// then index.
#[derive(Clone, Copy, Debug, PartialEq, Eq, PartialOrd, Ord)]
pub struct Cell {
    pub space: u32,
    pub index: u32,
}
