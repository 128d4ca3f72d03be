//! The run in the order of arrival.

ghost use Rattle.std.specs.Prelude.{◌≡◌, length, IfOk};
ghost use Rattle.waff_model.specs.Messages.{sizes_of};
ghost use Rattle.waff_model.specs.declared.cell.Cell.{Cell};
ghost use Rattle.waff_cells.specs.Grid.{cells_in, HasSizes};
ghost use Rattle.waff_cells.specs.Serial.{operations, serial};

use std::alloc::{AllocError, Global};
use waff_cells::State;
use waff_model::{Layout, Trace};

/// The state that the messages leave when they run one after another in the order of arrival, where
/// every cell is 0 at first.
pub fn serial(alloc: Global, layout: &Layout, trace: &Trace) -> Result<State, AllocError>
    requires fits { trace.now.sizes ≡ sizes_of layout.now.spaces }
    ensures sizes { IfOk result (λ state. HasSizes state (sizes_of layout.now.spaces)) }
    ensures cells { IfOk result (λ state. (cell : Cell)
        → cells_in state cell
        ≡ serial (operations trace.now.messages) (length trace.now.messages) cell) }
{
    let mut state = State::zero(alloc, layout)?;
    for n in 1..trace.len() + 1 {
        state.apply(trace.message(n));
    }
    Ok(state)
}
