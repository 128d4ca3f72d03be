//! Cells in a text.

ghost use Rattle.std.specs.Prelude.{◌<◌, OnOk, length};
ghost use Rattle.waff_plan_text.specs.Lines.{Adds};
ghost use Rattle.waff_read.specs.Spellings.{cell_spelled};

use std::alloc::AllocError;
use waff_model::{Cell, Layout};
use waff_plan_text::push_number;

/// Appends the cell as a trace spells it: the name of its space, `:`, and its index.
pub fn push_cell(text: &mut String, layout: &Layout, cell: Cell) -> Result<(), AllocError>
    requires { cell.space < length layout.now.spaces }
    ensures { OnOk result (Adds text.old text.new (cell_spelled layout.now.spaces cell)) }
{
    text.push_str(layout.space_name(cell.space))?;
    text.push(':')?;
    push_number(text, u64::from(cell.index))
}
