//! The parcels of a layout, by counting over its cells.

ghost use Rattle.std.specs.Prelude.{◌≡◌, ◌+◌, ◌<◌, ◌≤◌, length};
ghost use Rattle.waff_model.specs.Layout.{IsCell, owner_of, size_at};
ghost use Rattle.waff_model.specs.Parcel.{cells_ahead, offset_of, owned_among, parcel_size};

use crate::cell::Cell;
use crate::layout::Layout;
use crate::tree::AffinityId;

impl Layout {
    /// How many cells the affinity owns.
    pub fn parcel_len(&self, a: AffinityId) -> u64
        ensures { result ≡ parcel_size self.now.spaces a.0 }
    {
        count_ahead(self, a, self.space_count())
    }

    /// The owner of the cell, and the cell's place in the owner's parcel: how many of the owner's
    /// cells come before it.
    pub fn place(&self, cell: Cell) -> (AffinityId, u64)
        requires { IsCell self.now.spaces cell }
        ensures owner { result.0.0 ≡ owner_of self.now.spaces cell }
        ensures affinity { result.0.0 < length self.now.tree }
        ensures place { result.1 ≡ offset_of self.now.spaces cell }
        ensures within { result.1 < parcel_size self.now.spaces result.0.0 }
    {
        let owner = self.owner(cell);
        let ahead = count_ahead(self, owner, cell.space);
        (owner, count_on(self, owner, ahead, cell.space, cell.index))
    }
}

/// How many cells of the spaces before `s` the affinity owns.
fn count_ahead(layout: &Layout, a: AffinityId, s: u32) -> u64
    requires { s ≤ length layout.now.spaces }
    ensures { result ≡ owned_among layout.now.spaces (cells_ahead layout.now.spaces s) a.0 }
{
    let mut count = 0;
    for before in 0..s {
        count = count_on(layout, a, count, before, layout.space_size(before));
    }
    count
}

/// The count of cells before space `s` that the affinity owns, and then those of it below `end`.
fn count_on(layout: &Layout, a: AffinityId, ahead: u64, s: u32, end: u32) -> u64
    requires space { s < length layout.now.spaces }
    requires end { end ≤ size_at layout.now.spaces s }
    requires ahead { ahead ≡ owned_among layout.now.spaces (cells_ahead layout.now.spaces s) a.0 }
    ensures { result ≡ owned_among layout.now.spaces (cells_ahead layout.now.spaces s + end) a.0 }
{
    // Its contract tells how many cells there are at most.
    let _ = layout.space_count();
    let mut count = ahead;
    for index in 0..end {
        if layout.owner(Cell { space: s, index }) == a {
            count += 1;
        }
    }
    count
}
