//! One operation of a message.

ghost use Rattle.std.specs.Prelude.{ℕ, ◌≡◌, ◌<◌, length};
ghost use Rattle.waff_parse.specs.Texts.{blank, parts, small};
ghost use Rattle.waff_read.specs.Ops as ops;

use crate::space_table::SpaceTable;
use crate::trace_fault::TraceFault;
use waff_model::{Cell, Op, Verb, is_name};
use waff_parse::{cut, number, pair};

// The cell with this index in a space; none is the index where it is 2^64 or more.
fn cell_in(spaces: &SpaceTable<'_>, space: u32, index: Option<u64>) -> Result<Cell, TraceFault>
    requires { space < length spaces.now }
    ensures { (n : ℕ) → index ≡ small n → result ≡ ops.cell_in spaces.now space n }
{
    let size = spaces.size(space);
    let Some(index) = index else {
        return Err(TraceFault::IndexTooLarge);
    };
    if index < u64::from(size) {
        Ok(Cell {
            space,
            index: index as u32,
        })
    } else {
        Err(TraceFault::IndexTooLarge)
    }
}

/// The cell of a name and an index. What a space is called is a name.
#[inline(always)]
pub(crate) fn named_cell(
    spaces: &SpaceTable<'_>,
    name: &str,
    index: &str,
) -> Result<Cell, TraceFault>
    ensures { result ≡ ops.cell_of_name spaces.now name.now index.now }
{
    let Some(space) = spaces.find(name) else {
        if !is_name(name) {
            return Err(TraceFault::Op);
        }
        return match number(index) {
            Some(_) => Err(TraceFault::SpaceUnknown),
            None => Err(TraceFault::Op),
        };
    };
    match number(index) {
        Some(index) => cell_in(spaces, space, index),
        None => Err(TraceFault::Op),
    }
}

// The cell that a text spells. An index with a `:` is no number.
#[tactic(auto, unfolding(crate::specs::Ops::cell_of))]
fn read_cell(spaces: &SpaceTable<'_>, text: &str) -> Result<Cell, TraceFault>
    ensures { result ≡ ops.cell_of spaces.now text.now }
{
    let (name, index) = cut(text, ':');
    match index {
        Some(index) => named_cell(spaces, name, index),
        None => Err(TraceFault::Op),
    }
}

/// The number below 2^64 that a text spells.
#[tactic(auto, unfolding(crate::specs::Ops::value_of))]
pub(crate) fn read_value(text: &str) -> Result<u64, TraceFault>
    ensures { result ≡ ops.value_of text.now }
{
    match number(text) {
        Some(Some(value)) => Ok(value),
        Some(None) => Err(TraceFault::Op),
        None => Err(TraceFault::Op),
    }
}

// The cell and the number that two words spell. A second word with a space is no number.
fn cell_and_value(spaces: &SpaceTable<'_>, words: &str) -> Result<(Cell, u64), TraceFault>
    ensures { result ≡ ops.cell_and spaces.now ops.value_of (parts blank words.now) }
{
    let (cell, value) = cut(words, ' ');
    match value {
        Some(value) => pair(read_cell(spaces, cell), read_value(value)),
        None => Err(TraceFault::Op),
    }
}

// The cells that two words spell. A second word with a space is no cell.
fn two_cells(spaces: &SpaceTable<'_>, words: &str) -> Result<(Cell, Cell), TraceFault>
    ensures { result ≡ ops.cell_and spaces.now (ops.cell_of spaces.now) (parts blank words.now) }
{
    let (cell, other) = cut(words, ' ');
    match other {
        Some(other) => pair(read_cell(spaces, cell), read_cell(spaces, other)),
        None => Err(TraceFault::Op),
    }
}

// The operation of a verb and the words behind it. A word with a space is no cell.
#[tactic(auto, unfolding(crate::specs::Ops::op_of_verb), using(crate::proofs::PartLemmas::one_word))]
fn read_words(spaces: &SpaceTable<'_>, verb: Verb, words: &str) -> Result<Op, TraceFault>
    ensures { result ≡ ops.op_of_verb spaces.now verb (parts blank words.now) }
{
    match verb {
        Verb::Set => {
            let (cell, value) = cell_and_value(spaces, words)?;
            Ok(Op::Set { cell, value })
        }
        Verb::Add => {
            let (cell, value) = cell_and_value(spaces, words)?;
            Ok(Op::Add { cell, value })
        }
        Verb::Copy => {
            let (cell, source) = two_cells(spaces, words)?;
            Ok(Op::Copy { cell, source })
        }
        Verb::Swap => {
            let (cell, other) = two_cells(spaces, words)?;
            Ok(Op::Swap { cell, other })
        }
        Verb::Read => {
            let cell = read_cell(spaces, words)?;
            Ok(Op::Read { cell })
        }
    }
}

/// The operation that a piece spells.
pub(crate) fn read_op(spaces: &SpaceTable<'_>, piece: &str) -> Result<Op, TraceFault>
    ensures { result ≡ ops.op_of spaces.now piece.now }
{
    if let Some(words) = piece.strip_prefix("set ") {
        return read_words(spaces, Verb::Set, words);
    }
    if let Some(words) = piece.strip_prefix("add ") {
        return read_words(spaces, Verb::Add, words);
    }
    if let Some(words) = piece.strip_prefix("copy ") {
        return read_words(spaces, Verb::Copy, words);
    }
    if let Some(words) = piece.strip_prefix("swap ") {
        return read_words(spaces, Verb::Swap, words);
    }
    if let Some(words) = piece.strip_prefix("read ") {
        return read_words(spaces, Verb::Read, words);
    }
    Err(TraceFault::Op)
}
