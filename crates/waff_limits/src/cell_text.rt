//! Cells in a text.

ghost use Rattle.std.specs.Prelude.{OnOk};
ghost use Rattle.waff_model.specs.Layout.{IsCell};
ghost use Rattle.waff_plan_text.specs.Lines.{Adds};
ghost use Rattle.waff_read.specs.Spellings.{cell_spelled};

use std::alloc::AllocError;
use waff_figures::push_cell as push_cell_of_space;
use waff_model::{Cell, Layout};

/// Appends the cell as a trace spells it: the name of its space, `:`, and its index.
pub(crate) fn push_cell(text: &mut String, layout: &Layout, cell: Cell) -> Result<(), AllocError>
    requires { IsCell layout.now.spaces cell }
    ensures { OnOk result (Adds text.old text.new (cell_spelled layout.now.spaces cell)) }
{
    push_cell_of_space(text, layout, cell)
}
