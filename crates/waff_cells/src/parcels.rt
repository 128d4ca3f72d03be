//! Operations on the parcels of some affinities, each in the row of its affinity's number.

ghost use Rattle.std.specs.Prelude.{◌≡◌, ◌↔◌, ℕ, List, length, map, All, IsTrue, IsSome, IfSome};
ghost use Rattle.waff_model.specs.Cells.{cells_of};
ghost use Rattle.waff_cells.specs.Meaning.{Cells, meaning};
ghost use Rattle.waff_cells.specs.Held.{rows_of};
ghost use Rattle.waff_cells.specs.Grid.{HasSizes};
ghost use Rattle.waff_cells.specs.Parcel.{AreParcels, HaveParcelSizes, IsHeld, IsOwned};

use crate::addresses::Addresses;
use crate::parcel_table::ParcelTable;
use crate::rows;
use waff_model::{Cell, Layout, Ops};

/// Runs operations on parcels.
pub fn run(parcels: &mut [Vec<u64>], table: &ParcelTable, ops: &Ops)
    requires held { All (IsHeld table.now.spaces (rows_of parcels.old)) (cells_of ops.now) }
    ensures sizes { HasSizes (rows_of parcels.new) (map length (rows_of parcels.old)) }
    ensures parcels { (owners : List ℕ) (cells : Cells)
        → All (IsOwned table.now.spaces owners) (cells_of ops.now)
        → AreParcels table.now.spaces owners cells (rows_of parcels.old)
        → AreParcels table.now.spaces owners (meaning ops.now cells) (rows_of parcels.new) }
{
    rows::run(parcels, table, ops);
}

/// The number of the cell, where it is one of the parcels of these affinities.
pub fn get(parcels: &[Vec<u64>], table: &ParcelTable, owners: &[u16], cell: Cell) -> Option<u64>
    requires { HaveParcelSizes table.now.spaces owners.now (rows_of parcels.now) }
    ensures owned { IsSome result ↔ IsOwned table.now.spaces owners.now cell }
    ensures number { (cells : Cells)
        → AreParcels table.now.spaces owners.now cells (rows_of parcels.now)
        → IfSome result (λ number. number ≡ cells cell) }
{
    if is_owned(table.layout(), owners, cell) {
        Some(rows::number_at(parcels, table.address(cell)))
    } else {
        None
    }
}

/// Whether the cell is one of the parcels of these affinities.
fn is_owned(layout: &Layout, owners: &[u16], cell: Cell) -> bool
    ensures { IsTrue result ↔ IsOwned layout.now.spaces owners.now cell }
{
    layout.has(cell) && owners.contains(&layout.owner(cell).0)
}
