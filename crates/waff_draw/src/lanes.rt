//! The lanes of a picture: affinities in preorder, those that have a message, or these and what is
//! above them.

ghost use Rattle.std.specs.Prelude.{◌≡◌, ◌^◌, ◌<◌, ◌≤◌, ℕ, All, IfOk, List, length, map};
ghost use Rattle.std.specs.Prelude.{slice_index, false, slice_index_or, ◌||◌, ◌+◌, ◌++◌, OnOk, replicate};
ghost use Rattle.std.specs.BTreeMap.{values};
ghost use Rattle.std.specs.List.{range_with_len};
ghost use Rattle.waff_draw.specs.Lanes.{affinities_of, is_among, lane_of, laned_of, lanes_of};
ghost use Rattle.waff_draw.specs.Lanes.{path_of, row_of, used_below, way_to};

use crate::marks::marks;
use std::alloc::{AllocError, Global};
use std::collections::BTreeMap;
use waff_assign::Case;
use waff_model::{AffinityId, Tree};

/// A lane: an affinity, and how many steps below the root it is.
#[derive(Clone, Copy)]
pub struct Lane {
    pub affinity: u32,
    pub depth: u64,
}

/// What a lane is of: an affinity, or, below those, a worker.
#[derive(Clone, Copy)]
pub enum LaneKind {
    Affinity,
    Worker,
}

/// The lanes of the affinities that have a message, or, of the tree, of these and what is above them.
pub(crate) fn lanes(alloc: Global, case: &Case<'_>, is_tree: bool) -> Result<Vec<Lane>, AllocError>
    ensures lanes { IfOk result (λ lanes. lanes.items ≡ lanes_of case.now.tree.now
        (laned_of case.now.tree.now case.now.assigned.now is_tree)) }
    ensures known { IfOk result (λ lanes.
        All (λ lane. lane.affinity < length case.now.tree.now) lanes.items) }
    ensures few { IfOk result (λ lanes. length lanes.items ≤ 65536) }
{
    let _tree = case.tree.len();
    let laned = laned(alloc, case, is_tree)?;
    let lanes = by_place(alloc, case.tree, &laned)?;
    lanes.into_values().collect(alloc)
}

/// Appends so many lanes of messages that have no affinity; this number stands for none.
pub(crate) fn push_loose_lanes(
    lanes: &mut Vec<Lane>,
    none: u32,
    count: usize,
) -> Result<(), AllocError>
    requires few { length lanes.old.items + count < 2 ^ 32 }
    ensures { OnOk result (lanes.new.items ≡ lanes.old.items ++ replicate count (lane_of none 0)) }
{
    let lane = Lane {
        affinity: none,
        depth: 0,
    };
    lanes.resize(lanes.len() + count, lane)
}

/// For each affinity whether it has a lane.
fn laned(alloc: Global, case: &Case<'_>, is_tree: bool) -> Result<Vec<bool>, AllocError>
    ensures count { IfOk result (λ laned. length case.now.tree.now ≤ length laned.items) }
    ensures each { IfOk result (λ laned. (a : ℕ) → a < length case.now.tree.now
        → slice_index_or laned.items a false
        ≡ is_among (laned_of case.now.tree.now case.now.assigned.now is_tree) a) }
{
    let used = used(alloc, case)?;
    if is_tree {
        used_below(alloc, case.tree, &used)
    } else {
        Ok(used)
    }
}

/// For each affinity whether it or one below it is used.
fn used_below(alloc: Global, tree: &Tree, used: &[bool]) -> Result<Vec<bool>, AllocError>
    requires { length tree.now ≤ length used.now }
    ensures count { IfOk result (λ marks. length marks.items ≡ length tree.now) }
    ensures each { IfOk result (λ marks. (assigned : List ℕ)
        → ((a : ℕ) → a < length tree.now → slice_index_or used.now a false ≡ is_among assigned a)
        → (a : ℕ) → a < length tree.now
        → slice_index_or marks.items a false ≡ is_among (used_below tree.now assigned) a) }
{
    let mut marks = vec![in alloc; false; tree.len() as usize]?;
    for affinity in 0..tree.len() {
        if used[affinity as usize] {
            mark_way(tree, &mut marks, AffinityId(affinity as u16));
        }
    }
    Ok(marks)
}

/// Marks the affinities at or above this one.
fn mark_way(tree: &Tree, marks: &mut [bool], affinity: AffinityId)
    requires known { affinity.0 < length tree.now }
    requires count { length marks.old ≡ length tree.now }
    ensures count { length marks.new ≡ length tree.now }
    ensures each { (n : ℕ) → slice_index_or marks.new n false
        ≡ (slice_index_or marks.old n false || is_among (way_to tree.now affinity.0) n) }
{
    let _affinities = tree.len();
    let mut next = Some(affinity);
    while let Some(above) = next {
        marks[above.0 as usize] = true;
        next = tree.parent(above);
    }
}

/// For each affinity whether a message has it.
fn used(alloc: Global, case: &Case<'_>) -> Result<Vec<bool>, AllocError>
    ensures count { IfOk result (λ used. length case.now.tree.now ≤ length used.items) }
    ensures each { IfOk result (λ used. (a : ℕ) → a < length case.now.tree.now
        → slice_index_or used.items a false
        ≡ is_among (affinities_of case.now.tree.now case.now.assigned.now) a) }
{
    let none = case.tree.len();
    let affinities = case.assigned.numbers(alloc, none)?;
    marks(alloc, none as usize + 1, affinities.as_slice())
}

/// The lanes of the affinities that are used, each at its place in preorder.
fn by_place(alloc: Global, tree: &Tree, used: &[bool]) -> Result<BTreeMap<u16, Lane>, AllocError>
    requires { length tree.now ≤ length used.now }
    ensures { IfOk result (λ lanes. (assigned : List ℕ)
        → ((a : ℕ) → a < length tree.now → slice_index_or used.now a false ≡ is_among assigned a)
        → values lanes ≡ lanes_of tree.now assigned) }
{
    let depths = depths(alloc, tree)?;
    let spans = tree.spans();
    let mut lanes = BTreeMap::new(alloc);
    for affinity in (0..tree.len()).rev() {
        if used[affinity as usize] {
            let depth = depths[affinity as usize];
            let place = spans[affinity as usize].first;
            lanes.insert(place, Lane { affinity, depth })?;
        }
    }
    Ok(lanes)
}

/// How many steps below the root each affinity is.
fn depths(alloc: Global, tree: &Tree) -> Result<Vec<u64>, AllocError>
    ensures { IfOk result (λ depths. depths.items
        ≡ map (λ a. length (path_of tree.now a)) (range_with_len 0 (length tree.now))) }
{
    let mut depths = Vec::with_capacity(alloc, tree.len() as usize)?;
    for affinity in 0..tree.len() {
        let depth = match tree.parent(AffinityId(affinity as u16)) {
            Some(parent) => depths[parent.0 as usize] + 1,
            None => 0,
        };
        depths.push(depth)?;
    }
    Ok(depths)
}

/// For each affinity below `count` the row of its lane.
pub(crate) fn rows(alloc: Global, count: usize, lanes: &[Lane]) -> Result<Vec<u64>, AllocError>
    requires known { All (λ lane. lane.affinity < count) lanes.now }
    requires few { length lanes.now < 2 ^ 32 }
    ensures count { IfOk result (λ rows. length rows.items ≡ count) }
    ensures each { IfOk result (λ rows. (a : ℕ)
        → a < count → slice_index rows.items a ≡ row_of lanes.now a) }
{
    let mut rows = vec![in alloc; 0; count]?;
    for row in (0..lanes.len()).rev() {
        rows[lanes[row].affinity as usize] = row as u64;
    }
    Ok(rows)
}
