//! The locks of the cells that the messages of a trace name.

ghost use Rattle.std.specs.Prelude.{◌≡◌, ◌≤◌, ◌↔◌, ◌∷◌, [], length, slice_get, All, Contains, IfOk, IsTrue};
ghost use Rattle.std.specs.Prelude.{OnOk, Some};
ghost use Rattle.std.specs.Thread.{IsSync};
ghost use Rattle.waff_model.specs.Cells.{cells_of, cells_of_op};
ghost use Rattle.waff_model.specs.Layout.{IsCell};
ghost use Rattle.waff_model.specs.Messages.{sizes_of};
ghost use Rattle.waff_assign.specs.Lowest.{ListsLocks};
ghost use Rattle.waff_assign.specs.Uses.{Adds, AreLocks, ListsOnce, locked_cells, locked_cells_between, number_in};

use crate::gathering::{HALVINGS, MANY};
use crate::guesses::Guesses;
use std::alloc::{AllocError, Global};
use std::marker::Model;
use std::thread;
use std::thread::Threads;
use waff_model::{Cell, Layout, Op, Ops, Trace};

/// The cells with locks that messages name, each once, in order: they number the locks, from 0.
pub(crate) struct Locks {
    cells: Vec<Cell>,
    guesses: Guesses,
}

impl Model for Locks {
    ghost use Rattle.std.specs.Prelude.{List};
    ghost use Rattle.waff_model.specs.declared.cell.Cell.{Cell};
    ghost use Rattle.waff_assign.specs.Uses.{AreLocks};

    ghost Value = { List Cell };

    ghost view = { λ l. l.cells.items };

    ghost invariant = { λ l. AreLocks l.cells.items };
}

impl Drop for Locks {
    fn drop(self) {
        let Locks { cells, guesses } = self;
        drop(cells);
        drop(guesses);
    }
}

/// The cells with locks that messages name, each once, by space, then index: the place of each is the number of its
/// lock.
pub fn lock_cells(alloc: Global, layout: &Layout, trace: &Trace) -> Result<Vec<Cell>, AllocError>
    requires fits { trace.now.sizes ≡ sizes_of layout.now.spaces }
    ensures { IfOk result (λ cells. ListsLocks layout.now trace.now.messages cells.items) }
{
    let locks = Locks::of(alloc, layout, trace)?;
    Ok(locks.into_cells())
}

impl Locks {
    /// The locks of all cells that the messages name.
    pub(crate) fn of(alloc: Global, layout: &Layout, trace: &Trace) -> Result<Self, AllocError>
        requires fits { trace.now.sizes ≡ sizes_of layout.now.spaces }
        ensures { IfOk result (ListsLocks layout.now trace.now.messages) }
    {
        let cells = list(alloc, layout, trace, 0, trace.len())?;
        Locks::of_cells(alloc, cells, trace.len())
    }

    /// The same, listed by several threads where there are many messages.
    pub(crate) fn by_threads<R: Threads + Sync>(
        rt: &R,
        alloc: Global,
        layout: &Layout,
        trace: &Trace,
    ) -> Result<Self, AllocError>
        requires fits { trace.now.sizes ≡ sizes_of layout.now.spaces }
        ensures { IfOk result (ListsLocks layout.now trace.now.messages) }
    {
        let cells = list_halves(rt, alloc, layout, trace, 0, trace.len(), HALVINGS)?;
        Locks::of_cells(alloc, cells, trace.len())
    }

    /// The locks of these cells, which so many messages name.
    fn of_cells(alloc: Global, cells: Vec<Cell>, messages: u32) -> Result<Self, AllocError>
        requires { AreLocks cells.items }
        ensures { IfOk result (λ locks. locks ≡ cells.items) }
    {
        let mut guesses = Guesses::new(alloc, messages)?;
        for place in 0..cells.len() {
            guesses.put(cells[place], place);
        }
        Ok(Locks { cells, guesses })
    }

    /// The cells.
    fn into_cells(self) -> Vec<Cell>
        ensures { result.items ≡ self }
    {
        let Locks { cells, guesses } = self;
        drop(guesses);
        cells
    }

    /// How many locks there are.
    pub(crate) fn len(&self) -> u32
        ensures { result ≡ length self.now }
    {
        self.cells.len() as u32
    }

    /// The number of the lock of this cell, which is one of them.
    pub(crate) fn number(&self, cell: Cell) -> u32
        requires { Contains self.now cell }
        ensures { result ≡ number_in self.now cell }
    {
        let guess = self.guesses.at(cell);
        if is_at(&self.cells, guess, cell) {
            return guess as u32;
        }
        match self.cells.binary_search(&cell) {
            Ok(number) => number as u32,
            Err(_) => unreachable!("all cells with locks are listed"),
        }
    }
}

/// The cells with locks that the messages behind the first so many name, up to the end.
fn list(
    alloc: Global,
    layout: &Layout,
    trace: &Trace,
    before: u32,
    end: u32,
) -> Result<Vec<Cell>, AllocError>
    requires fits { trace.now.sizes ≡ sizes_of layout.now.spaces }
    requires order { before ≤ end }
    requires within { end ≤ length trace.now.messages }
    ensures { IfOk result (λ cells. ListsOnce
        (locked_cells_between layout.now.spaces trace.now.messages before end) cells.items) }
{
    // Its contract tells that messages are few.
    let _ = trace.len();
    let mut cells = Vec::new(alloc);
    let mut guesses = Guesses::new(alloc, end - before)?;
    for n in before + 1..end + 1 {
        add_locked(&mut cells, &mut guesses, layout, &trace.message(n).ops)?;
    }
    drop(guesses);
    keep_once(&mut cells)?;
    Ok(cells)
}

/// The same, by a thread for each part of the messages, that are halved so often.
#[cycle(listing)]
fn list_halves<R: Threads + Sync>(
    rt: &R,
    alloc: Global,
    layout: &Layout,
    trace: &Trace,
    before: u32,
    end: u32,
    halvings: u32,
) -> Result<Vec<Cell>, AllocError>
    requires fits { trace.now.sizes ≡ sizes_of layout.now.spaces }
    requires order { before ≤ end }
    requires within { end ≤ length trace.now.messages }
    ensures { IfOk result (λ cells. ListsOnce
        (locked_cells_between layout.now.spaces trace.now.messages before end) cells.items) }
{
    if halvings == 0 || end - before < MANY {
        return list(alloc, layout, trace, before, end);
    }
    let middle = before + (end - before) / 2;
    let front = move || -> Result<Vec<Cell>, AllocError>
        requires more { IsSync R.row × (1 ≤ halvings) }
        requires fits { trace.now.sizes ≡ sizes_of layout.now.spaces }
        requires order { before ≤ middle }
        requires within { middle ≤ length trace.now.messages }
        ensures { IfOk result (λ cells. ListsOnce (locked_cells_between layout.entry.now.spaces
            trace.entry.now.messages before middle) cells.items) }
    { list_halves(rt, alloc, layout, trace, before, middle, halvings - 1) };
    let back = move || -> Result<Vec<Cell>, AllocError>
        requires more { IsSync R.row × (1 ≤ halvings) }
        requires fits { trace.now.sizes ≡ sizes_of layout.now.spaces }
        requires order { middle ≤ end }
        requires within { end ≤ length trace.now.messages }
        ensures { IfOk result (λ cells. ListsOnce (locked_cells_between layout.entry.now.spaces
            trace.entry.now.messages middle end) cells.items) }
    { list_halves(rt, alloc, layout, trace, middle, end, halvings - 1) };
    let (first, second) = thread::join(rt, front, back);
    let mut cells = first?;
    let second = second?;
    cells.extend_from_slice(&second)?;
    keep_once(&mut cells)?;
    Ok(cells)
}

/// Sorts cells, and keeps each once. Of two lists in order, one behind the other, it makes one in a walk.
fn keep_once(cells: &mut Vec<Cell>) -> Result<(), AllocError>
    ensures { OnOk result (ListsOnce cells.old.items cells.new.items) }
{
    cells.sort()?;
    cells.dedup();
    Ok(())
}

/// Whether the cell stands at this place.
fn is_at(cells: &[Cell], place: usize, cell: Cell) -> bool
    ensures { IsTrue result ↔ (slice_get cells.now place ≡ Some cell) }
{
    place < cells.len() && cells[place] == cell
}

/// Adds those cells with locks that the operations name.
fn add_locked(
    cells: &mut Vec<Cell>,
    guesses: &mut Guesses,
    layout: &Layout,
    ops: &Ops,
) -> Result<(), AllocError>
    requires cells { All (IsCell layout.now.spaces) (cells_of ops.now) }
    ensures { OnOk result (Adds cells.old.items cells.new.items
        (locked_cells layout.now.spaces (cells_of ops.now))) }
{
    for index in 0..ops.len() {
        add_locked_of_op(cells, guesses, layout, ops.get(index))?;
    }
    Ok(())
}

/// Adds those cells with locks that the operation names.
fn add_locked_of_op(
    cells: &mut Vec<Cell>,
    guesses: &mut Guesses,
    layout: &Layout,
    op: Op,
) -> Result<(), AllocError>
    requires cells { All (IsCell layout.now.spaces) (cells_of_op op) }
    ensures { OnOk result (Adds cells.old.items cells.new.items
        (locked_cells layout.now.spaces (cells_of_op op))) }
{
    match op {
        Op::Set { cell, .. } | Op::Add { cell, .. } | Op::Read { cell } => {
            add_where_locked(cells, guesses, layout, cell)?;
        }
        Op::Copy {
            cell,
            source: other,
        }
        | Op::Swap { cell, other } => {
            add_where_locked(cells, guesses, layout, cell)?;
            add_where_locked(cells, guesses, layout, other)?;
        }
    }
    Ok(())
}

/// Adds the cell, where it has a lock and is not found at once.
fn add_where_locked(
    cells: &mut Vec<Cell>,
    guesses: &mut Guesses,
    layout: &Layout,
    cell: Cell,
) -> Result<(), AllocError>
    requires cell { IsCell layout.now.spaces cell }
    ensures { OnOk result (Adds cells.old.items cells.new.items
        (locked_cells layout.now.spaces (cell ∷ []))) }
{
    if layout.locking(cell).are_some() {
        add(cells, guesses, cell)?;
    }
    Ok(())
}

/// Adds the cell, where it is not found at once.
fn add(cells: &mut Vec<Cell>, guesses: &mut Guesses, cell: Cell) -> Result<(), AllocError>
    ensures { OnOk result (Adds cells.old.items cells.new.items (cell ∷ [])) }
{
    if !is_at(cells, guesses.at(cell), cell) {
        guesses.put(cell, cells.len());
        cells.push(cell)?;
    }
    Ok(())
}
