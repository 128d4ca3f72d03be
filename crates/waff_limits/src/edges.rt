//! How long cells are used, told by edges: where use begins, and after which place it ends. Cells in a row that are used as long are
//! told by two edges, however many they are.

ghost use Rattle.std.specs.Prelude.{◌≡◌, ◌+◌, ◌-◌, ◌^◌, ◌<◌, ◌≤◌, ℕ, [], ◌∷◌, ◌++◌, IfOk, OnOk, true, false};
ghost use Rattle.std.specs.Prelude.{length, slice_index_or};
ghost use Rattle.std.specs.List.Sorted.{IsNonDecreasingBy, IsStrictlySortedBy};
ghost use Rattle.waff_model.specs.declared.cell.Cell.{Cell};
ghost use Rattle.waff_assign.specs.Footprint.{cell_cmp};
ghost use Rattle.waff_limits.specs.Data.{IsMore, IsMostOf, used_among};
ghost use Rattle.waff_limits.specs.Edges.{AreSmall, AreUsed, IsCellAt, IsMostAt};
ghost use Rattle.waff_limits.specs.Edges.{begun_at, edges_of, ended_at};
ghost use Rattle.waff_limits.specs.Edges as specs;
ghost use Rattle.waff_limits.specs.Readings.{with_places};
ghost use Rattle.waff_limits.specs.Runs.{used_in_run};
ghost use Rattle.waff_limits.specs.declared.edges.Edge.{Edge as EdgeOf};

use crate::data::CellUse;
use crate::runs::Run;
use std::alloc::{AllocError, Global};
use waff_model::Cell;

/// At this place so many ticks begin, and after it so many end.
#[derive(Clone, Copy)]
pub(crate) struct Edge {
    place: u64,
    begins: u32,
    ends: u32,
}

impl Edge {
    /// How many ticks begin.
    fn begins(self) -> u128
        ensures begins { result ≡ self.begins }
        ensures small { result < 2 ^ 32 }
    {
        u128::from(self.begins)
    }

    /// How many ticks end.
    fn ends(self) -> u128
        ensures ends { result ≡ self.ends }
        ensures small { result < 2 ^ 32 }
    {
        u128::from(self.ends)
    }
}

/// The use of cells so far. The last edge may still move.
#[derive(Drop)]
pub(crate) struct Edges {
    edges: Vec<Edge>,
    last: Edge,
}

impl Edges {
    /// No cell is used.
    pub(crate) fn none(alloc: Global) -> Self
        ensures { AreUsed (edges_of result) (λ cell. 0) }
    {
        Edges {
            edges: Vec::new(alloc),
            last: Edge {
                place: 0,
                begins: 0,
                ends: 0,
            },
        }
    }

    /// Each of these cells is used for so many ticks more.
    pub(crate) fn add_all(&mut self, cells: &[Cell], cost: u32) -> Result<(), AllocError>
        requires rising { IsStrictlySortedBy cell_cmp cells.now }
        ensures { OnOk result ((used : Cell → ℕ) → AreUsed (edges_of self.old) used
            → AreUsed (edges_of self.new) (used_among cells.now used cost)) }
    {
        for at in 0..cells.len() {
            let cell = cells[at];
            self.add(cell, cost)?;
        }
        Ok(())
    }

    /// Each cell of the run is used for so many ticks more.
    pub(crate) fn add_run(&mut self, run: Run, cost: u32) -> Result<(), AllocError>
        requires filled { run.first ≤ run.last }
        ensures { OnOk result ((used : Cell → ℕ) → AreUsed (edges_of self.old) used
            → AreUsed (edges_of self.new) (used_in_run run used cost)) }
    {
        let Run { space, first, last } = run;
        let last = place_of(Cell { space, index: last });
        let first = place_of(Cell {
            space,
            index: first,
        });
        self.add_places(first, last, cost)
    }

    /// Each cell from one place to another is used for so many ticks more.
    pub(crate) fn add_places(&mut self, first: u64, last: u64, cost: u32) -> Result<(), AllocError>
        requires filled { first ≤ last }
        ensures { OnOk result ((used : Cell → ℕ) → AreUsed (edges_of self.old) used
            → AreUsed (edges_of self.new) (with_places used first last cost)) }
    {
        let before = self.last;
        self.keep(before)?;
        self.keep(Edge {
            place: first,
            begins: cost,
            ends: 0,
        })?;
        self.last = Edge {
            place: last,
            begins: 0,
            ends: cost,
        };
        Ok(())
    }

    /// The cell is used for so many ticks more.
    fn add(&mut self, cell: Cell, cost: u32) -> Result<(), AllocError>
        ensures { OnOk result ((used next : Cell → ℕ) → AreUsed (edges_of self.old) used
            → IsMore used cell cost next → AreUsed (edges_of self.new) next) }
    {
        let place = place_of(cell);
        let Edge {
            place: before,
            begins,
            ends,
        } = self.last;
        if ends == cost && before < place && place - before == 1 {
            self.keep(Edge {
                place: before,
                begins,
                ends: 0,
            })?;
            self.last = Edge {
                place,
                begins: 0,
                ends: cost,
            };
        } else {
            let last = self.last;
            self.keep(last)?;
            self.last = Edge {
                place,
                begins: cost,
                ends: cost,
            };
        }
        Ok(())
    }

    /// Keeps an edge, unless nothing begins or ends there.
    fn keep(&mut self, edge: Edge) -> Result<(), AllocError>
        ensures begun { OnOk result ((place : ℕ) → begun_at self.new.edges.items place
            ≡ begun_at (self.old.edges.items ++ edge ∷ []) place) }
        ensures ended { OnOk result ((place : ℕ) → ended_at self.new.edges.items place
            ≡ ended_at (self.old.edges.items ++ edge ∷ []) place) }
        ensures last { OnOk result (self.new.last ≡ self.old.last) }
    {
        if edge.begins != 0 || edge.ends != 0 {
            self.edges.push(edge)?;
        }
        Ok(())
    }

    /// The cell that is used longest, of several the first.
    pub(crate) fn most(&mut self) -> Result<Option<CellUse>, AllocError>
        requires { AreSmall (edges_of self.old) }
        ensures { IfOk result (λ most. (used : Cell → ℕ) → AreUsed (edges_of self.old) used
            → IsMostOf used most) }
    {
        let last = self.last;
        self.edges.push(last)?;
        self.edges.sort_unstable_by_key(|edge| edge.place);
        Ok(most_of(self.edges.as_slice()).cell())
    }
}

/// The place of a cell among all cells: by its space, then its index.
pub(crate) fn place_of(cell: Cell) -> u64
    ensures place { result ≡ specs.place_of cell }
    ensures small { cell.index < 2 ^ 32 }
{
    u64::from(cell.space) * 4_294_967_296 + u64::from(cell.index)
}

/// A place, and for how many ticks its cell is used.
#[derive(Clone, Copy)]
struct Most {
    place: u64,
    ticks: u64,
}

impl Most {
    /// This place, if its cell is used longer.
    fn or(self, place: u64, ticks: u64) -> Self
        ensures longer { self.ticks < ticks → result ≡ record { place = place; ticks = ticks } }
        ensures other { ticks ≤ self.ticks → result ≡ self }
    {
        if self.ticks < ticks {
            Most { place, ticks }
        } else {
            self
        }
    }

    /// The cell at the place, none where none is used.
    fn cell(self) -> Option<CellUse>
        ensures { IsCellAt self result }
    {
        if self.ticks == 0 {
            return None;
        }
        let space = (self.place / 4_294_967_296) as u32;
        let index = (self.place % 4_294_967_296) as u32;
        Some(CellUse {
            cell: Cell { space, index },
            ticks: self.ticks,
        })
    }
}

/// Where the ticks that have begun and have not ended are most: the first such place. Edges are in the order of their places.
fn most_of(edges: &[Edge]) -> Most
    requires rising { IsNonDecreasingBy (λ edge. edge.place) edges.now }
    requires small { AreSmall edges.now }
    ensures { IsMostAt (λ place. begun_at edges.now place - ended_at edges.now place) result }
{
    let mut most = Most { place: 0, ticks: 0 };
    let mut begun: u128 = 0;
    let mut ended: u128 = 0;
    let mut ending: u128 = 0;
    for i in 0..edges.len() {
        let edge = edges[i];
        begun += edge.begins();
        ending += edge.ends();
        if is_last_there(edges, i) {
            most = most.or(edge.place, (begun - ended) as u64);
            ended = ending;
        }
    }
    most
}

/// Whether the next edge is at a later place, or there is none.
fn is_last_there(edges: &[Edge], i: usize) -> bool
    requires { i < length edges.now }
    ensures last { result ≡ true → (d : EdgeOf) → i + 1 < length edges.now
        → (slice_index_or edges.now i d).place < (slice_index_or edges.now (i + 1) d).place }
    ensures more { result ≡ false → i + 1 < length edges.now }
    ensures same { result ≡ false → (d : EdgeOf)
        → (slice_index_or edges.now (i + 1) d).place ≤ (slice_index_or edges.now i d).place }
{
    i + 1 == edges.len() || edges[i].place < edges[i + 1].place
}
