//! The lowest affinity that covers.

ghost use Rattle.std.specs.Prelude.{ℕ, ◌<◌, length, All, Contains};
ghost use Rattle.waff_assign.specs.Lowest.{IsLowest};
ghost use Rattle.waff_model.specs.Layout.{IsCell};
ghost use Rattle.waff_model.specs.Tree.{AtOrAbove};

use waff_model::{AffinityId, Cell, Layout, Tree};

/// The lowest affinity that is at or above the owner of each cell, of which there is one at least.
pub fn lowest(layout: &Layout, cells: &[Cell]) -> AffinityId
    requires some { 0 < length cells.now }
    requires cells { All (IsCell layout.now.spaces) cells.now }
    ensures lowest { IsLowest layout.now (Contains cells.now) result.0 }
    ensures within { result.0 < length layout.now.tree }
{
    let mut low = layout.owner(cells[0]);
    for i in 1..cells.len() {
        let owner = layout.owner(cells[i]);
        low = lowest_above(layout.tree(), low, owner);
    }
    low
}

/// The lowest affinity that is at or above both: the second, where it is above the first; else
/// climbs from the first until it is at or above the second.
pub(crate) fn lowest_above(tree: &Tree, first: AffinityId, second: AffinityId) -> AffinityId
    requires first { first.0 < length tree.now }
    requires second { second.0 < length tree.now }
    ensures first { AtOrAbove tree.now result.0 first.0 }
    ensures second { AtOrAbove tree.now result.0 second.0 }
    ensures lowest { (a : ℕ) → AtOrAbove tree.now a first.0 → AtOrAbove tree.now a second.0
        → AtOrAbove tree.now a result.0 }
    ensures within { result.0 < length tree.now }
{
    if tree.at_or_above(second, first) {
        return second;
    }
    let mut at = first;
    while !tree.at_or_above(at, second) {
        match tree.parent(at) {
            Some(parent) => at = parent,
            None => unreachable!("the root is at or above each affinity"),
        }
    }
    at
}
