//! The footprint of a message.

ghost use Rattle.std.specs.Prelude.{length, IfOk};
ghost use Rattle.waff_model.specs.Numbers.{IsAmongFirst};
ghost use Rattle.waff_assign.specs.Footprint.{ListsFootprint};

use crate::assignment::push_cells;
use std::alloc::{AllocError, Global};
use waff_model::{Cell, Trace};

/// The cells that the operations of message `n`, from 1, name: each once, by space, then index.
pub fn footprint(alloc: Global, trace: &Trace, n: u32) -> Result<Vec<Cell>, AllocError>
    requires number { IsAmongFirst (length trace.now.messages) n }
    ensures { IfOk result (λ cells. ListsFootprint trace.now.messages n cells.items) }
{
    let mut cells = Vec::new(alloc);
    push_cells(&mut cells, &trace.message(n).ops)?;
    cells.sort_unstable();
    cells.dedup();
    Ok(cells)
}
