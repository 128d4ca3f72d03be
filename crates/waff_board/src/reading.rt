//! Reading the message of a token, and the cells that it holds.

ghost use Rattle.std.specs.Prelude.{◌≡◌, ◌-◌, ◌↔◌, IfSome, IsSome};
ghost use Rattle.waff_cells.specs.Meaning.{Cells};
ghost use Rattle.waff_cells.specs.Serial.{serial};
ghost use Rattle.waff_board.specs.Tokens.{HoldsCells, IsCellOf};

use crate::tokens::{Cleared, Drawn, Finished, Grant, Running};
use waff_cells::parcels;
use waff_model::Cell;

impl Drawn {
    /// The message that the seat has drawn.
    pub fn message(&self) -> u32
        ensures { result ≡ self.now.message }
    {
        self.message
    }
}

impl Cleared {
    /// The message that the seat has drawn.
    pub fn message(&self) -> u32
        ensures { result ≡ self.now.message }
    {
        self.drawn.message
    }
}

impl<'a> Running<'a> {
    /// The number of a cell of the parcels, None for another cell.
    fn get(&self, cell: Cell) -> Option<u64>
        requires { (cells : Cells) × HoldsCells self.now cells }
        ensures held { IsSome result ↔ IsCellOf self.now cell }
        ensures number { (cells : Cells) → HoldsCells self.now cells
            → IfSome result (λ number. number ≡ cells cell) }
    {
        parcels::get(
            self.hand.parcels.as_slice(),
            self.job.parcel_table(),
            self.job.owners(self.message),
            cell,
        )
    }
}

impl<'a> Grant<'a> {
    /// The message that the seat runs.
    pub fn message(&self) -> u32
        ensures { result ≡ self.now.message }
    {
        self.running.message
    }

    /// The number of a cell of the parcels before the message, None for another cell.
    pub fn get(&self, cell: Cell) -> Option<u64>
        ensures held { IsSome result ↔ IsCellOf self.now cell }
        ensures number { IfSome result (λ number.
            number ≡ serial self.now.view.job.ops (self.now.message - 1) cell) }
    {
        self.running.get(cell)
    }
}

impl<'a> Finished<'a> {
    /// The message that the seat has run.
    pub fn message(&self) -> u32
        ensures { result ≡ self.now.message }
    {
        self.running.message
    }

    /// The number of a cell of the parcels after the message, None for another cell.
    pub fn get(&self, cell: Cell) -> Option<u64>
        ensures held { IsSome result ↔ IsCellOf self.now cell }
        ensures number { IfSome result (λ number.
            number ≡ serial self.now.view.job.ops self.now.message cell) }
    {
        self.running.get(cell)
    }
}
