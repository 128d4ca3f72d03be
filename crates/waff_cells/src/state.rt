//! The state of all cells of a layout.

ghost use Rattle.std.specs.Prelude.{◌≡◌, ◌<◌, length, map, All, IfOk};
ghost use Rattle.waff_model.specs.Cells.{cells_of, LiesIn};
ghost use Rattle.waff_model.specs.Messages.{sizes_of};
ghost use Rattle.waff_model.specs.declared.cell.Cell.{Cell};
ghost use Rattle.waff_cells.specs.Meaning.{meaning};
ghost use Rattle.waff_cells.specs.Grid.{cells_in, HasSizes};
ghost use Rattle.waff_cells.specs.Held.{rows_of};

use crate::addresses::Addresses;
use crate::rows;
use std::alloc::{AllocError, Global};
use std::marker::Model;
use waff_model::{Cell, Layout, Message, Ops};

/// The number that each cell of a layout holds: a row for each space.
pub struct State {
    pub(crate) rows: Vec<Vec<u64>>,
}

impl Model for State {
    ghost use Rattle.std.specs.Prelude.{ℕ, List, map};

    ghost Value = { List (List ℕ) };

    ghost view = { λ s. map (λ row. row.items) s.rows.items };
}

// Written out: a derived drop is proved again in each crate that lets go of the value.
impl Drop for State {
    fn drop(self) {
        let State { rows } = self;
        drop(rows);
    }
}

impl State {
    /// The state in which every cell is 0.
    pub fn zero(alloc: Global, layout: &Layout) -> Result<State, AllocError>
        ensures sizes { IfOk result (λ state. HasSizes state (sizes_of layout.now.spaces)) }
        ensures cells { IfOk result (λ state. (cell : Cell) → cells_in state cell ≡ 0) }
    {
        let mut rows = Vec::with_capacity(alloc, layout.space_count() as usize)?;
        for s in 0..layout.space_count() {
            rows.push(vec![in alloc; 0; layout.space_size(s) as usize]?)?;
        }
        Ok(State { rows })
    }

    /// Runs the operations of the message, whose cells are the state's.
    pub fn apply(&mut self, message: &Message)
        requires { All (LiesIn (map length self.old)) (cells_of message.now.ops) }
        ensures sizes { HasSizes self.new (map length self.old) }
        ensures cells { (cell : Cell)
            → cells_in self.new cell ≡ meaning message.now.ops (cells_in self.old) cell }
    {
        run(&mut self.rows, &message.ops);
    }

    /// The number that the cell, which is the state's, holds.
    pub fn get(&self, cell: Cell) -> u64
        requires { LiesIn (map length self.now) cell }
        ensures { result ≡ cells_in self.now cell }
    {
        self.rows[cell.space as usize][cell.index as usize]
    }
}

/// Runs the operations on the rows of a state.
fn run(spaces: &mut [Vec<u64>], ops: &Ops)
    requires { All (LiesIn (map length (rows_of spaces.old))) (cells_of ops.now) }
    ensures sizes { HasSizes (rows_of spaces.new) (map length (rows_of spaces.old)) }
    ensures cells { (cell : Cell) → cells_in (rows_of spaces.new) cell
        ≡ meaning ops.now (cells_in (rows_of spaces.old)) cell }
{
    rows::run(spaces, &InSpaces, ops);
}

/// Where a state holds each cell: in the row of its space, at its index.
struct InSpaces;

impl Addresses for InSpaces {
    ghost use Rattle.std.specs.Prelude.{⊤};

    ghost has = { λ _ _. ⊤ };

    ghost at = { λ _ cell. (cell.space, cell.index) };

    fn address(&self, cell: Cell) -> (usize, usize) {
        (cell.space as usize, cell.index as usize)
    }
}
