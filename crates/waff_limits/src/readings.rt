//! The greatest cost of one that reads a cell, told by readings of cells in a row.

ghost use Rattle.std.specs.Prelude.{◌≡◌, ◌+◌, ◌^◌, ◌<◌, ◌≤◌, ◌&&◌, ℕ, [], ◌∷◌, All, IfSome, OnOk};
ghost use Rattle.std.specs.Prelude.{if◌then◌else◌, max, not};
ghost use Rattle.std.specs.List.{list_any};
ghost use Rattle.std.specs.List.Sorted.{IsNonDecreasingBy, IsPermutation, IsSortedBy};
ghost use Rattle.std.specs.Ordering.{is_lt};
ghost use Rattle.std.specs.Prelude.{slice_get};
ghost use Rattle.waff_model.specs.declared.cell.Cell.{Cell as CellOf};
ghost use Rattle.waff_assign.specs.Footprint.{cell_cmp};
ghost use Rattle.waff_limits.specs.Data.{is_cell};
ghost use Rattle.waff_limits.specs.Edges.{AreUsed, edges_of};
ghost use Rattle.waff_limits.specs.Readings.{ArePeaks, AreRead, peak_at, readings_of, with_peak};
ghost use Rattle.waff_limits.specs.Runs.{is_in_run};

use crate::edges::{Edges, place_of};
use crate::runs::Run;
use std::alloc::{AllocError, Global};
use std::collections::BinaryHeap;
use std::marker::Model;
use waff_model::Cell;

/// Places from the first to the last are read, for so many ticks.
#[derive(Clone, Copy)]
pub(crate) struct Reading {
    first: u64,
    last: u64,
    cost: u32,
}

impl Reading {
    /// The first place.
    fn first(self) -> u128
        ensures first { result ≡ self.first }
        ensures small { result < 2 ^ 64 }
    {
        u128::from(self.first)
    }

    /// The last place.
    fn last(self) -> u128
        ensures last { result ≡ self.last }
        ensures small { result < 2 ^ 64 }
    {
        u128::from(self.last)
    }
}

/// What is read so far. The last reading may still grow.
#[derive(Drop)]
pub(crate) struct Readings {
    readings: Vec<Reading>,
    last: Reading,
}

impl Readings {
    /// Nothing is read.
    pub(crate) fn none(alloc: Global) -> Self
        ensures { AreRead (readings_of result) (λ cell. 0) }
    {
        Readings {
            readings: Vec::new(alloc),
            last: Reading {
                first: 0,
                last: 0,
                cost: 0,
            },
        }
    }

    /// Each cell of the run is read for so many ticks.
    pub(crate) fn add_run(&mut self, run: Run, cost: u32) -> Result<(), AllocError>
        ensures { OnOk result ((peak : CellOf → ℕ) → AreRead (readings_of self.old) peak
            → AreRead (readings_of self.new)
            (λ cell. max (peak cell) (if is_in_run run cell then cost else 0))) }
    {
        let Run { space, first, last } = run;
        let last = place_of(Cell { space, index: last });
        let first = place_of(Cell {
            space,
            index: first,
        });
        let before = self.last;
        self.readings.push(before)?;
        self.last = Reading { first, last, cost };
        Ok(())
    }

    /// Each of these cells is read for so many ticks, but for those that are written.
    pub(crate) fn add_others(
        &mut self,
        cells: &[Cell],
        written: &[Cell],
        cost: u32,
    ) -> Result<(), AllocError>
        requires sorted { IsSortedBy (λ a b. is_lt (cell_cmp a b)) written.now }
        ensures { OnOk result ((peak : CellOf → ℕ) → AreRead (readings_of self.old) peak
            → AreRead (readings_of self.new) (λ cell. max (peak cell)
            (if list_any (is_cell cell) cells.now && not (list_any (is_cell cell) written.now)
            then cost else 0))) }
    {
        for at in 0..cells.len() {
            let cell = cells[at];
            if !has(written, cell) {
                self.add(cell, cost)?;
            }
        }
        Ok(())
    }

    /// The cell is read for so many ticks.
    fn add(&mut self, cell: Cell, cost: u32) -> Result<(), AllocError>
        ensures { OnOk result ((peak : CellOf → ℕ) → AreRead (readings_of self.old) peak
            → AreRead (readings_of self.new)
            (λ other. max (peak other) (if is_cell cell other then cost else 0))) }
    {
        let place = place_of(cell);
        let last = self.last;
        if last.cost == cost && last.first <= place && last.last < place && place - last.last == 1 {
            self.last = Reading {
                first: last.first,
                last: place,
                cost,
            };
        } else {
            self.readings.push(last)?;
            self.last = Reading {
                first: place,
                last: place,
                cost,
            };
        }
        Ok(())
    }

    /// Each cell is used for as many ticks more as the greatest cost of one that reads it.
    pub(crate) fn lay(&mut self, alloc: Global, edges: &mut Edges) -> Result<(), AllocError>
        ensures { OnOk result ((used peak : CellOf → ℕ) → AreUsed (edges_of edges.old) used
            → AreRead (readings_of self.old) peak
            → AreUsed (edges_of edges.new) (λ cell. used cell + peak cell)) }
    {
        let last = self.last;
        self.readings.push(last)?;
        self.readings.sort_unstable_by_key(|reading| reading.first);
        lay_all(alloc, edges, self.readings.as_slice())
    }
}

/// Whether the cell is one of these.
fn has(cells: &[Cell], cell: Cell) -> bool
    requires sorted { IsSortedBy (λ a b. is_lt (cell_cmp a b)) cells.now }
    ensures { result ≡ list_any (is_cell cell) cells.now }
{
    cells.binary_search(&cell).is_ok()
}

/// The place behind all places.
const END: u128 = 18_446_744_073_709_551_616;

/// At each place so many ticks are used more as the greatest cost of the readings there. Readings are in the order of their first
/// places.
fn lay_all(alloc: Global, edges: &mut Edges, readings: &[Reading]) -> Result<(), AllocError>
    requires rising { IsNonDecreasingBy (λ reading. reading.first) readings.now }
    ensures { OnOk result ((used : CellOf → ℕ) → AreUsed (edges_of edges.old) used
        → AreUsed (edges_of edges.new) (with_peak used (peak_at readings.now) (2 ^ 64))
        × ((place : ℕ) → 2 ^ 64 ≤ place → peak_at readings.now place ≡ 0)) }
{
    let mut going = Going::none(alloc);
    let mut at: u128 = 0;
    for i in 0..readings.len() {
        let reading = readings[i];
        let next = reading.first();
        let _last = reading.last();
        lay_until(edges, &mut going, at, next)?;
        going.begin(reading.cost, reading.last)?;
        at = next;
    }
    lay_until(edges, &mut going, at, END)
}

/// From one place up to another so many ticks are used more as the greatest cost of the readings that have begun.
fn lay_until(edges: &mut Edges, going: &mut Going, from: u128, end: u128) -> Result<(), AllocError>
    requires order { from ≤ end }
    requires within { end ≤ 2 ^ 64 }
    ensures laid { OnOk result ((used : CellOf → ℕ) (peak : ℕ → ℕ)
        → AreUsed (edges_of edges.old) (with_peak used peak from) → ArePeaks going.old peak from
        → AreUsed (edges_of edges.new) (with_peak used peak end)) }
    ensures go_on { OnOk result ((peak : ℕ → ℕ) → ArePeaks going.old peak from → ArePeaks going.new peak end) }
{
    let mut at = from;
    while let Some((cost, last)) = going.first() {
        if end <= u128::from(last) {
            return lay_rest(edges, at, end, cost);
        }
        going.end_first();
        if at <= u128::from(last) {
            edges.add_places(at as u64, last, cost)?;
            at = u128::from(last) + 1;
        }
    }
    Ok(())
}

/// Each place from one up to another is used for so many ticks more.
fn lay_rest(edges: &mut Edges, from: u128, end: u128, cost: u32) -> Result<(), AllocError>
    requires order { from ≤ end }
    requires within { end ≤ 2 ^ 64 }
    ensures { OnOk result ((used : CellOf → ℕ) (peak : ℕ → ℕ)
        → AreUsed (edges_of edges.old) (with_peak used peak from)
        → ((place : ℕ) → from ≤ place → place < end → peak place ≡ cost)
        → AreUsed (edges_of edges.new) (with_peak used peak end)) }
{
    if from < end {
        edges.add_places(from as u64, (end - 1) as u64, cost)
    } else {
        Ok(())
    }
}

/// The readings that have begun, each with its cost and its last place: the one that costs most first.
#[derive(Drop)]
struct Going {
    heap: BinaryHeap<(u32, u64)>,
}

impl Model for Going {
    ghost use Rattle.std.specs.Prelude.{List, ℕ};
    ghost use Rattle.std.specs.Ordering.{nat_cmp, ordering_then};
    ghost use Rattle.std.specs.BinaryHeap.{IsHeap, heap_items};

    ghost Value = { List (ℕ × ℕ) };

    ghost view = { λ g. heap_items g.heap };

    ghost invariant = { λ g. IsHeap (λ x y. ordering_then (nat_cmp x.0 y.0) (nat_cmp x.1 y.1))
        (heap_items g.heap) };
}

impl Going {
    /// None has begun.
    fn none(alloc: Global) -> Self
        ensures { result ≡ [] }
    {
        Going {
            heap: BinaryHeap::new(alloc),
        }
    }

    /// One begins, of this cost, to its last place.
    fn begin(&mut self, cost: u32, last: u64) -> Result<(), AllocError>
        ensures { OnOk result (IsPermutation ((cost, last) ∷ self.old) self.new) }
    {
        self.heap.push((cost, last))?;
        Ok(())
    }

    /// The first: none costs more.
    fn first(&self) -> Option<(u32, u64)>
        ensures first { result ≡ slice_get self.now 0 }
        ensures most { IfSome result (λ r. All (λ s. s.0 ≤ r.0) self.now) }
    {
        self.heap.peek().copied()
    }

    /// The first ends.
    fn end_first(&mut self)
        ensures { IfSome (slice_get self.old 0) (λ r. IsPermutation self.old (r ∷ self.new)) }
    {
        self.heap.pop();
    }
}
