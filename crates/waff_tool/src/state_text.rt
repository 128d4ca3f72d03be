//! The text of a state.

ghost use Rattle.std.specs.Prelude.{◌≡◌, ◌<◌, ◌≤◌, List, Some, [], ◌∷◌, IfOk, OnOk};
ghost use Rattle.std.specs.Prelude.{decimal, length, map, slice_index};
ghost use Rattle.std.specs.Prelude.{string_bytes};
ghost use Rattle.std.specs.List.{join_with_byte};
ghost use Rattle.waff_model.specs.Layout.{Space, name_at, size_at};
ghost use Rattle.waff_cells.specs.Grid.{cells_in};
ghost use Rattle.waff_plan_text.specs.Lines.{Adds, line_text, text_of};
ghost use Rattle.waff_tool.specs.PrintedSpaces.{AreAllPrinted};
ghost use Rattle.waff_cells.specs.InOrder.{all_cells, cells_below};
ghost use Rattle.waff_tool.specs.ReplayText.{cell_lines, state_lines};

use std::alloc::{AllocError, Global};
use waff_cells::State;
use waff_model::limits::MAX_SPACES;
use waff_model::{Cell, Layout, Text};
use waff_plan_text::{push_field, push_number};

/// A space, as far as it is printed.
#[derive(Drop)]
pub(crate) struct PrintedSpace {
    pub(crate) name: Text,
    pub(crate) size: u32,
}

/// The spaces of the layout, which stay when the layout is gone.
pub(crate) fn printed_spaces(
    alloc: Global,
    layout: &Layout,
) -> Result<Vec<PrintedSpace>, AllocError>
    ensures printed { IfOk result (λ printed. AreAllPrinted layout.now.spaces printed.items) }
    ensures few { IfOk result (λ printed. length printed.items ≤ MAX_SPACES) }
{
    let mut printed = Vec::with_capacity(alloc, layout.space_count() as usize)?;
    for s in 0..layout.space_count() {
        let name = Text::of(alloc, layout.space_name(s))?;
        let size = layout.space_size(s);
        printed.push(PrintedSpace { name, size })?;
    }
    Ok(printed)
}

/// The lines of a state of these spaces.
pub(crate) fn state_text(
    alloc: Global,
    printed: &[PrintedSpace],
    state: &State,
) -> Result<String, AllocError>
    requires few { length printed.now ≤ MAX_SPACES }
    requires sizes { map length state.now ≡ map (λ space. space.size) printed.now }
    ensures { IfOk result (λ text. (spaces : List Space) → AreAllPrinted spaces printed.now
        → string_bytes text ≡ text_of (state_lines spaces (cells_in state.now))) }
{
    let mut text = String::new(alloc);
    text.push_str("cell,value\n")?;
    push_spaces(&mut text, printed, state)?;
    Ok(text)
}

/// Appends the lines of all cells.
fn push_spaces(text: &mut String, printed: &[PrintedSpace], state: &State) -> Result<(), AllocError>
    requires few { length printed.now ≤ MAX_SPACES }
    requires sizes { map length state.now ≡ map (λ space. space.size) printed.now }
    ensures { OnOk result ((spaces : List Space) → AreAllPrinted spaces printed.now
        → Adds text.old text.new
        (text_of (cell_lines spaces (cells_in state.now) (all_cells spaces)))) }
{
    for s in 0..printed.len() {
        push_space(text, s as u32, &printed[s], state)?;
    }
    Ok(())
}

/// Appends the lines of the cells of space `s`, which is printed so.
fn push_space(
    text: &mut String,
    s: u32,
    printed: &PrintedSpace,
    state: &State,
) -> Result<(), AllocError>
    requires size { slice_index (map length state.now) s ≡ printed.now.size }
    ensures { OnOk result ((spaces : List Space) → name_at spaces s ≡ Some printed.now.name
        → size_at spaces s ≡ printed.now.size → Adds text.old text.new
        (text_of (cell_lines spaces (cells_in state.now) (cells_below s printed.now.size)))) }
{
    for index in 0..printed.size {
        let value = state.get(Cell { space: s, index });
        if value != 0 {
            push_cell(text, printed.name.as_str(), index, value)?;
        }
    }
    Ok(())
}

/// Appends the line of one cell.
fn push_cell(text: &mut String, space: &str, index: u32, value: u64) -> Result<(), AllocError>
    ensures { OnOk result (Adds text.old text.new
        (line_text (join_with_byte 58 (space.now ∷ decimal index ∷ []) ∷ decimal value ∷ []))) }
{
    text.push_str(space)?;
    text.push(':')?;
    push_field(text, u64::from(index))?;
    push_number(text, value)?;
    text.push('\n')
}
