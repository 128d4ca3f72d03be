//! How much there is where nothing is wrong.

ghost use Rattle.std.specs.Prelude.{IfOk, string_bytes};
ghost use Rattle.waff_explain.specs.Lines.{AreHeadedLines};

use crate::say;
use crate::words::Words;
use std::alloc::{AllocError, Global};
use waff_model::{Cell, Layout, Locking, Trace};

/// The line that tells how many affinities and cells a hierarchy has, how many messages a trace, where there is
/// one, and which spaces have locks.
pub fn sizes_words(
    alloc: Global,
    layout: &Layout,
    trace: Option<&Trace>,
) -> Result<String, AllocError>
    ensures { IfOk result (λ text. AreHeadedLines (string_bytes text)) }
{
    let mut words = Words::new(alloc);
    push_sizes(&mut words, layout, trace);
    words.finish()
}

/// Appends how much there is.
pub(crate) fn push_sizes(words: &mut Words, layout: &Layout, trace: Option<&Trace>) {
    let affinities = layout.tree().len();
    let cells = cell_count(layout);
    let Ok(locks) = locks_text(words.alloc(), layout) else {
        return words.refuse();
    };
    match trace {
        Some(trace) => say!(words; Affinities: "{}, cells: {}, messages: {}{}",
            affinities, cells, trace.len(), locks.as_str()),
        None => say!(words; Affinities: "{}, cells: {}{}", affinities, cells, locks.as_str()),
    }
}

/// Which spaces have locks, and of which kind; nothing where none has.
fn locks_text(alloc: Global, layout: &Layout) -> Result<String, AllocError> {
    let mut text = String::new(alloc);
    for space in 0..layout.space_count() {
        if let Some(kind) = kind_of_locks(layout, space) {
            let name = layout.space_name(space);
            write!(text, ", {kind} locks: {name}")?;
        }
    }
    Ok(text)
}

/// The kind of the locks of a space, if it has locks.
fn kind_of_locks(layout: &Layout, space: u32) -> Option<&'static str> {
    let first = Cell { space, index: 0 };
    if !layout.has(first) {
        return None;
    }
    match layout.locking(first) {
        Locking::Unlocked => None,
        Locking::Exclusive => Some("exclusive"),
        Locking::Shared => Some("shared"),
    }
}

/// How many cells all spaces have.
fn cell_count(layout: &Layout) -> u64 {
    let mut cells: u64 = 0;
    for space in 0..layout.space_count() {
        cells = cells.saturating_add(u64::from(layout.space_size(space)));
    }
    cells
}
