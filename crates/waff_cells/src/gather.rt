//! The state whose cells lie in parcels.

ghost use Rattle.std.specs.Prelude.{◌≡◌, ◌<◌, length, map, IfOk};
ghost use Rattle.std.specs.List.{range_with_len};
ghost use Rattle.waff_model.specs.Layout.{IsCell, size_at};
ghost use Rattle.waff_model.specs.Messages.{sizes_of};
ghost use Rattle.waff_model.specs.declared.cell.Cell.{Cell};
ghost use Rattle.waff_cells.specs.Grid.{cells_in, HasSizes};
ghost use Rattle.waff_cells.specs.Held.{rows_of};
ghost use Rattle.waff_cells.specs.Gathered.{LieIn, cells_of_parcels};

use crate::addresses::Addresses;
use crate::parcel_table::ParcelTable;
use crate::rows::number_at;
use crate::state::State;
use std::alloc::{AllocError, Global};
use waff_model::Cell;

impl State {
    /// The state in which each cell has its number in these parcels, of which there is one for each
    /// affinity.
    pub fn of_parcels(
        alloc: Global,
        table: &ParcelTable,
        parcels: &[Vec<u64>],
    ) -> Result<State, AllocError>
        requires { LieIn table.now.spaces (rows_of parcels.now) }
        ensures sizes { IfOk result (λ state. HasSizes state (sizes_of table.now.spaces)) }
        ensures cells { IfOk result (λ state. (cell : Cell) → IsCell table.now.spaces cell
            → cells_in state cell ≡ cells_of_parcels table.now.spaces (rows_of parcels.now) cell) }
    {
        let count = table.layout().space_count();
        let mut rows = Vec::with_capacity(alloc, count as usize)?;
        for s in 0..count {
            rows.push(row_of(alloc, table, parcels, s)?)?;
        }
        Ok(State { rows })
    }
}

/// The numbers of the cells of space `s`.
fn row_of(
    alloc: Global,
    table: &ParcelTable,
    parcels: &[Vec<u64>],
    s: u32,
) -> Result<Vec<u64>, AllocError>
    requires space { s < length table.now.spaces }
    requires lie { LieIn table.now.spaces (rows_of parcels.now) }
    ensures { IfOk result (λ row. row.items ≡ map
        (λ i. cells_of_parcels table.now.spaces (rows_of parcels.now)
        (record { space = s; index = i }))
        (range_with_len 0 (size_at table.now.spaces s))) }
{
    let size = table.layout().space_size(s);
    let mut row = Vec::with_capacity(alloc, size as usize)?;
    for index in 0..size {
        let at = table.address(Cell { space: s, index });
        row.push_reserved(number_at(parcels, at));
    }
    Ok(row)
}
