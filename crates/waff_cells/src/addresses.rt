//! Where rows of numbers hold cells.

ghost use Rattle.std.specs.Prelude.{◌≡◌};

use waff_model::Cell;

/// Rows of numbers that hold cells: each cell in a row of its own kind, at a column.
pub(crate) trait Addresses {
    ghost use Rattle.std.specs.Prelude.{ℕ};
    ghost use Rattle.waff_model.specs.declared.cell.Cell.{Cell};

    /// The cells that have an address.
    ghost has: { Self → Cell → Type 0 };

    /// The address of a cell: its row, and its column in it.
    ghost at: { Self → Cell → ℕ × ℕ };

    /// The address of the cell.
    fn address(&self, cell: Cell) -> (usize, usize)
        requires { has self.now cell }
        ensures { result ≡ at self.now cell };
}
