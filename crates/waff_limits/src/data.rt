//! The cell that messages use longest.

ghost use Rattle.std.specs.Prelude.{◌-◌, IfOk, OnOk, length, take};
ghost use Rattle.waff_model.specs.Numbers.{IsAmongFirst};
ghost use Rattle.waff_limits.specs.Data.{IsMostOf, ticks_on};
ghost use Rattle.waff_limits.specs.Edges.{AreUsed, edges_of};

use crate::edges::Edges;
use crate::runs::run_of;
use std::alloc::{AllocError, Global};
use waff_assign::footprint;
use waff_model::{Cell, Trace};

/// A cell, and for how many ticks messages use it.
#[derive(Clone, Copy)]
pub struct CellUse {
    pub cell: Cell,
    pub ticks: u64,
}

/// The cell that messages use for the most ticks in all, of several the first; none where there is no message. A message uses each cell
/// of its footprint once, for as long as it runs.
pub fn most_used_cell(alloc: Global, trace: &Trace) -> Result<Option<CellUse>, AllocError>
    ensures { IfOk result (IsMostOf (ticks_on trace.now.messages)) }
{
    let mut edges = Edges::none(alloc);
    for n in 1..trace.len() + 1 {
        add_message(alloc, &mut edges, trace, n)?;
    }
    edges.most()
}

/// The cells of message `n` are used for as long as it runs.
fn add_message(alloc: Global, edges: &mut Edges, trace: &Trace, n: u32) -> Result<(), AllocError>
    requires number { IsAmongFirst (length trace.now.messages) n }
    ensures { OnOk result (AreUsed (edges_of edges.old) (ticks_on (take (n - 1) trace.now.messages))
        → AreUsed (edges_of edges.new) (ticks_on (take n trace.now.messages))) }
{
    let message = trace.message(n);
    let cost = message.cost;
    match run_of(&message.ops) {
        Some(run) => edges.add_run(run, cost),
        None => {
            let cells = footprint(alloc, trace, n)?;
            edges.add_all(cells.as_slice(), cost)
        }
    }
}
