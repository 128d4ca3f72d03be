//! Ranges: a piece that stands for an operation on each of some cells in a row.

ghost use Rattle.std.specs.Prelude.{◌≡◌};
ghost use Rattle.waff_read.specs.Ranges as ranges;

use crate::op::{named_cell, read_value};
use crate::space_table::SpaceTable;
use crate::trace_fault::TraceFault;
use waff_model::{Cell, Op};
use waff_parse::{are_rising, pair, three_parts, two_parts};

/// What is done to each cell of a range.
#[derive(Clone, Copy)]
pub(crate) enum Deed {
    /// It becomes the value.
    Set { value: u64 },
    /// The value is added to it, modulo 2^64.
    Add { value: u64 },
    /// Nothing; it counts as used.
    Read,
}

/// An operation on each of some cells in a row: those of a space from the first one up to the last
/// index.
#[derive(Clone, Copy)]
pub(crate) struct Range {
    pub(crate) deed: Deed,
    pub(crate) first: Cell,
    pub(crate) last: u32,
}

impl Deed {
    /// The operation that does this to a cell.
    pub(crate) fn on(self, cell: Cell) -> Op
        ensures { result ≡ ranges.op_on self cell }
    {
        match self {
            Deed::Set { value } => Op::Set { cell, value },
            Deed::Add { value } => Op::Add { cell, value },
            Deed::Read => Op::Read { cell },
        }
    }
}

// The range of a deed, from the first cell to the last one.
fn range_to(deed: Deed, ends: (Cell, Cell)) -> Range
    ensures { result ≡ ranges.range_to deed ends }
{
    Range {
        deed,
        first: ends.0,
        last: ends.1.index,
    }
}

// The cells of a name and two indices, which do not fall.
fn named_ends(
    spaces: &SpaceTable<'_>,
    name: &str,
    first: &str,
    last: &str,
) -> Result<(Cell, Cell), TraceFault>
    ensures { result ≡ ranges.ends_of_name spaces.now name.now first.now last.now }
{
    if !are_rising(first, last) {
        return Err(TraceFault::Op);
    }
    pair(
        named_cell(spaces, name, first),
        named_cell(spaces, name, last),
    )
}

// The first and the last cell that a text spells.
#[tactic(auto, unfolding(crate::specs::Ranges::ends_of))]
fn read_ends(spaces: &SpaceTable<'_>, text: &str) -> Result<(Cell, Cell), TraceFault>
    ensures { result ≡ ranges.ends_of spaces.now text.now }
{
    let Some((name, indices)) = two_parts(text, ':') else {
        return Err(TraceFault::Op);
    };
    let Some((first, last)) = two_parts(indices, '-') else {
        return Err(TraceFault::Op);
    };
    named_ends(spaces, name, first, last)
}

// The range of two words.
fn range_of_two(spaces: &SpaceTable<'_>, verb: &str, cells: &str) -> Result<Range, TraceFault>
    ensures { result ≡ ranges.range_of_two spaces.now (verb.now, cells.now) }
{
    if verb != "read" {
        return Err(TraceFault::Op);
    }
    let ends = read_ends(spaces, cells)?;
    Ok(range_to(Deed::Read, ends))
}

// The range behind `set`.
fn set_range(spaces: &SpaceTable<'_>, cells: &str, value: &str) -> Result<Range, TraceFault>
    ensures { result ≡ ranges.set_range spaces.now cells.now value.now }
{
    let (ends, value) = pair(read_ends(spaces, cells), read_value(value))?;
    Ok(range_to(Deed::Set { value }, ends))
}

// The range behind `add`.
fn add_range(spaces: &SpaceTable<'_>, cells: &str, value: &str) -> Result<Range, TraceFault>
    ensures { result ≡ ranges.add_range spaces.now cells.now value.now }
{
    let (ends, value) = pair(read_ends(spaces, cells), read_value(value))?;
    Ok(range_to(Deed::Add { value }, ends))
}

// The range of three words.
fn range_of_three(
    spaces: &SpaceTable<'_>,
    verb: &str,
    cells: &str,
    value: &str,
) -> Result<Range, TraceFault>
    ensures { result ≡ ranges.range_of_three spaces.now (verb.now, cells.now, value.now) }
{
    if verb == "set" {
        return set_range(spaces, cells, value);
    }
    if verb == "add" {
        return add_range(spaces, cells, value);
    }
    Err(TraceFault::Op)
}

/// The range that a piece spells.
#[tactic(auto, unfolding(crate::specs::Ranges::range_of))]
pub(crate) fn read_range(spaces: &SpaceTable<'_>, piece: &str) -> Result<Range, TraceFault>
    ensures { result ≡ ranges.range_of spaces.now piece.now }
{
    if let Some((verb, cells, value)) = three_parts(piece, ' ') {
        return range_of_three(spaces, verb, cells, value);
    }
    match two_parts(piece, ' ') {
        Some((verb, cells)) => range_of_two(spaces, verb, cells),
        None => Err(TraceFault::Op),
    }
}
