//! What is wrong with an operation of a message.

use crate::say;
use crate::words::Words;
use waff_model::{Layout, Version, is_name};
use waff_parse::{are_rising, cut, number, two_parts};
use waff_read::TraceError;

/// What is wrong with a piece.
#[derive(Clone, Copy)]
pub(crate) enum Flaw<'a> {
    /// It is no operation by its words.
    Words,
    /// This word is no cell.
    Cell(&'a str),
    /// This word is no range of cells.
    Range(&'a str),
    /// This word is no number below 2^64.
    Number(&'a str),
    /// No space has this name.
    Space(&'a str),
    /// The cell of this word is behind the end of its space, which has this size.
    Index(&'a str, u32),
}

impl<'a> Flaw<'a> {
    /// Appends what was found, and what is wanted.
    pub(crate) fn push_words(self, words: &mut Words, piece: u64, op: &str) {
        let op = op.as_bytes();
        match self {
            Flaw::Words => {
                say!(words; Found: "operation {}, `{}`: these words are no operation", piece, op);
                say!(words; Wanted: "`set C N`, `add C N`, `copy C D`, `swap C D` or `read C`");
                if op.starts_with(b"write ") {
                    say!(words; Found: "perhaps `set`, which writes a number to a cell");
                }
            }
            Flaw::Cell(word) => {
                let shown = word.as_bytes();
                say!(words; Found: "operation {}, `{}`: `{}` is no cell", piece, op, shown);
                say!(words; Wanted: "a cell: a name, `:` and a number without a leading zero");
                push_early_range(words, op, word);
            }
            Flaw::Range(word) => {
                let word = word.as_bytes();
                say!(words; Found: "operation {}, `{}`: `{}` is no range of cells", piece, op, word);
                say!(words; Wanted: "a range: a name, `:` and two numbers joined by `-` that do not fall");
            }
            Flaw::Number(word) => {
                let word = word.as_bytes();
                say!(words; Found: "operation {}, `{}`: `{}` is no number in range", piece, op, word);
                say!(words; Wanted: "a number from 0 to {} without a leading zero", u64::MAX);
            }
            Flaw::Space(name) => {
                say!(words; Found: "operation {}, `{}`: no space has the name `{}`", piece, op, name);
                say!(words; Wanted: "the name of a space of the hierarchy");
            }
            Flaw::Index(word, size) => {
                let word = word.as_bytes();
                say!(words; Found: "operation {}, `{}`: `{}` is behind the end of its space",
                    piece, op, word);
                say!(words; Wanted: "a number below the size of the space, which is {}", size);
            }
        }
    }
}

/// Appends the guess that a range was meant, where the word of an operation is no cell but would be
/// a range in a trace of version 3.
fn push_early_range(words: &mut Words, op: &[u8], word: &str) {
    if is_range(word) && !op.starts_with(b"copy ") && !op.starts_with(b"swap ") {
        say!(words; Found:
            "perhaps a range, which needs the header message,cost,release,client,think,ops");
    }
}

/// Whether a word is a range of cells.
fn is_range(word: &str) -> bool {
    range_of(Version::V3, word).is_some() && misspelt_cells(Version::V3, word).is_none()
}

/// What is wrong with a piece of a trace of this version for which the trace has the fault, if it is this
/// piece. Where a space is unknown, each piece is spelled as an operation, and where a cell is behind the
/// end of its space, each space is known.
pub(crate) fn flaw_of<'a>(
    layout: &Layout,
    version: Version,
    piece: &'a str,
    fault: TraceError,
) -> Option<Flaw<'a>> {
    match fault {
        TraceError::Op { .. } => misspelt(version, piece),
        _ => piece.split(' ').find_map(|word| stray(layout, word, fault)),
    }
}

/// Why a piece is not spelled as an operation, if it is not.
fn misspelt<'a>(version: Version, piece: &'a str) -> Option<Flaw<'a>> {
    let (verb, words) = cut(piece, ' ');
    let Some(words) = words else {
        return Some(Flaw::Words);
    };
    let (first, second) = cut(words, ' ');
    match (verb, second) {
        ("read", None) => misspelt_cells(version, first),
        ("set" | "add", Some(value)) => misspelt_cells(version, first).or(misspelt_number(value)),
        ("copy" | "swap", Some(other)) => misspelt_cell(first).or(misspelt_cell(other)),
        _ => Some(Flaw::Words),
    }
}

/// Why a word is neither a cell nor, in a trace of this version, a range, if it is not.
fn misspelt_cells<'a>(version: Version, word: &'a str) -> Option<Flaw<'a>> {
    let Some((name, first, last)) = range_of(version, word) else {
        return misspelt_cell(word);
    };
    let is_range = is_name(name) && are_rising(first, last);
    (!is_range).then_some(Flaw::Range(word))
}

fn misspelt_cell<'a>(word: &'a str) -> Option<Flaw<'a>> {
    let (name, index) = cut(word, ':');
    let is_cell = is_name(name) && number(index.unwrap_or("")).is_some();
    (!is_cell).then_some(Flaw::Cell(word))
}

fn misspelt_number<'a>(word: &'a str) -> Option<Flaw<'a>> {
    match number(word) {
        Some(Some(_)) => None,
        _ => Some(Flaw::Number(word)),
    }
}

/// What of this fault is wrong with a word of an operation, if it is a cell or a range.
fn stray<'a>(layout: &Layout, word: &'a str, fault: TraceError) -> Option<Flaw<'a>> {
    let (name, indices) = cut(word, ':');
    let (first, last) = cut(indices?, '-');
    match (layout.find_space(name), fault) {
        (None, TraceError::SpaceUnknown { .. }) => Some(Flaw::Space(name)),
        (Some(space), TraceError::IndexTooLarge { .. }) => {
            let size = layout.space_size(space);
            match number(last.unwrap_or(first)) {
                Some(Some(index)) if index < u64::from(size) => None,
                _ => Some(Flaw::Index(word, size)),
            }
        }
        _ => None,
    }
}

/// The indices of a word that is a range, or is to be one: they are joined by `-`.
fn range_of(version: Version, word: &str) -> Option<(&str, &str, &str)> {
    if !version.has_clients() {
        return None;
    }
    let (name, indices) = cut(word, ':');
    let (first, last) = two_parts(indices?, '-')?;
    Some((name, first, last))
}

/// How many operations the pieces of a field stand for.
pub(crate) fn count_ops(version: Version, ops: &str) -> u64 {
    let mut count: u64 = 0;
    for piece in ops.split(';') {
        count = count.saturating_add(ops_of(version, piece));
    }
    count
}

/// How many operations a piece stands for.
fn ops_of(version: Version, piece: &str) -> u64 {
    let (_, words) = cut(piece, ' ');
    let (cells, _) = cut(words.unwrap_or(""), ' ');
    match range_of(version, cells) {
        Some((_, first, last)) => match (number(first), number(last)) {
            (Some(Some(first)), Some(Some(last))) => last.saturating_sub(first).saturating_add(1),
            _ => 1,
        },
        None => 1,
    }
}
