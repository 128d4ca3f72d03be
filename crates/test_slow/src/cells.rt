//! What operations do to the cells of the samples' spaces, by the table of operations.

use waff_model::{Cell, Op};

/// The numbers of all cells: those of the spaces f, m and g, one after another.
#[derive(Drop)]
pub struct Cells {
    numbers: [u64; 18],
}

impl Cells {
    /// Every cell is 0.
    pub fn zero() -> Self {
        Cells { numbers: [0; 18] }
    }

    /// The number of the cell.
    pub fn get(&self, cell: Cell) -> u64 {
        self.numbers.get(place(cell)).copied().unwrap_or(0)
    }

    fn put(&mut self, cell: Cell, number: u64) {
        if let Some(old) = self.numbers.get_mut(place(cell)) {
            *old = number;
        }
    }

    /// Runs the operation.
    pub fn run(&mut self, op: Op) {
        match op {
            Op::Set { cell, value } => self.put(cell, value),
            Op::Add { cell, value } => self.put(cell, self.get(cell).wrapping_add(value)),
            Op::Copy { cell, source } => self.put(cell, self.get(source)),
            Op::Swap { cell, other } => {
                let (one, two) = (self.get(cell), self.get(other));
                self.put(cell, two);
                self.put(other, one);
            }
            Op::Read { .. } => {}
        }
    }
}

/// Where the number of a cell stands.
fn place(cell: Cell) -> usize {
    let first: u32 = match cell.space {
        0 => 0,
        1 => 8,
        _ => 10,
    };
    first.saturating_add(cell.index) as usize
}

/// The cells that the operation names. Where it names one, this stands twice.
pub fn named(op: Op) -> [Cell; 2] {
    match op {
        Op::Set { cell, .. } | Op::Add { cell, .. } | Op::Read { cell } => [cell, cell],
        Op::Copy { cell, source } => [cell, source],
        Op::Swap { cell, other } => [cell, other],
    }
}
