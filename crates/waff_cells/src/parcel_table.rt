//! Where each cell of a layout lies in the parcels.

ghost use Rattle.std.specs.Prelude.{◌≡◌, ◌+◌, ◌<◌, length, IfOk, OnOk};
ghost use Rattle.waff_model.specs.Layout.{HasFewCells, IsCell, IsLayout, owner_of};
ghost use Rattle.waff_model.specs.Parcel.{cells_ahead, offset_of, parcel_size};
ghost use Rattle.waff_cells.specs.ParcelTable.{AreCounted, across};

use crate::addresses::Addresses;
use std::alloc::{AllocError, Global};
use std::marker::Model;
use waff_model::{AffinityId, Cell, Layout};

/// A layout with the table of its parcels: the owner of each cell, and the offset of each cell among
/// those of its owner, in a row for each space, and how many cells each affinity owns.
pub struct ParcelTable {
    layout: Layout,
    owners: Vec<Vec<u16>>,
    offsets: Vec<Vec<u32>>,
    sizes: Vec<u32>,
}

impl Model for ParcelTable {
    ghost use Rattle.waff_model.specs.Layout.{Hierarchy};
    ghost use Rattle.waff_cells.specs.Held.{rows_of};
    ghost use Rattle.waff_cells.specs.ParcelTable.{IsParcelTable};

    ghost Value = { Hierarchy };

    ghost view = { λ t. t.layout };

    ghost invariant = { λ t.
        IsParcelTable t.layout (rows_of t.owners.items) (rows_of t.offsets.items) t.sizes.items };
}

// Written out: a derived drop is proved again in each crate that lets go of the value.
impl Drop for ParcelTable {
    fn drop(self) {
        let ParcelTable {
            layout,
            owners,
            offsets,
            sizes,
        } = self;
        drop(layout);
        drop(owners);
        drop(offsets);
        drop(sizes);
    }
}

impl ParcelTable {
    /// The layout, which has few cells, with its table.
    pub fn new(alloc: Global, layout: Layout) -> Result<ParcelTable, AllocError>
        requires few { HasFewCells layout.spaces }
        ensures kept { IfOk result (λ table. table ≡ layout) }
        ensures layout { OnOk result (IsLayout layout) }
    {
        let mut owners = Vec::new(alloc);
        let mut offsets = Vec::new(alloc);
        let mut sizes = vec![in alloc; 0; layout.tree().len() as usize]?;
        for s in 0..layout.space_count() {
            let (owner_row, offset_row) = rows_across(alloc, &layout, s, &mut sizes)?;
            owners.push(owner_row)?;
            offsets.push(offset_row)?;
        }
        Ok(ParcelTable {
            layout,
            owners,
            offsets,
            sizes,
        })
    }

    /// The layout.
    pub fn layout(&self) -> &Layout
        ensures { result.now ≡ self.now }
    {
        &self.layout
    }

    /// The affinity that owns the cell.
    pub fn owner(&self, cell: Cell) -> AffinityId
        requires { IsCell self.now.spaces cell }
        ensures { result.0 ≡ owner_of self.now.spaces cell }
    {
        AffinityId(self.owners[cell.space as usize][cell.index as usize])
    }

    /// How many cells the affinity owns.
    pub fn parcel_len(&self, a: AffinityId) -> u32
        requires { a.0 < length self.now.tree }
        ensures { result ≡ parcel_size self.now.spaces a.0 }
    {
        self.sizes[a.0 as usize]
    }
}

/// Parcels hold each cell in the row of its owner, at its offset.
impl Addresses for ParcelTable {
    ghost use Rattle.waff_model.specs.Layout.{IsCell};
    ghost use Rattle.waff_cells.specs.Parcel.{lies_at};

    ghost has = { λ t. IsCell t.spaces };

    ghost at = { λ t. lies_at t.spaces };

    fn address(&self, cell: Cell) -> (usize, usize) {
        let offset = self.offsets[cell.space as usize][cell.index as usize];
        (self.owner(cell).0 as usize, offset as usize)
    }
}

/// The owners and the offsets of the cells of space `s`. What each affinity owns of the cells before
/// them is counted, and then what it owns of them too.
fn rows_across(
    alloc: Global,
    layout: &Layout,
    s: u32,
    counts: &mut [u32],
) -> Result<(Vec<u16>, Vec<u32>), AllocError>
    requires few { HasFewCells layout.now.spaces }
    requires space { s < length layout.now.spaces }
    requires count { length counts.old ≡ length layout.now.tree }
    requires counted { AreCounted layout.now.spaces (cells_ahead layout.now.spaces s) counts.old }
    ensures owners { IfOk result (λ rows. rows.0.items
        ≡ across layout.now.spaces (owner_of layout.now.spaces) s) }
    ensures offsets { IfOk result (λ rows. rows.1.items
        ≡ across layout.now.spaces (offset_of layout.now.spaces) s) }
    ensures count { length counts.new ≡ length layout.now.tree }
    ensures counted { OnOk result
        (AreCounted layout.now.spaces (cells_ahead layout.now.spaces (s + 1)) counts.new) }
{
    let size = layout.space_size(s);
    let mut owners = Vec::with_capacity(alloc, size as usize)?;
    let mut offsets = Vec::with_capacity(alloc, size as usize)?;
    for index in 0..size {
        let owner = layout.owner(Cell { space: s, index }).0;
        let count = counts[owner as usize];
        owners.push_reserved(owner);
        offsets.push_reserved(count);
        counts[owner as usize] = count + 1;
    }
    Ok((owners, offsets))
}
