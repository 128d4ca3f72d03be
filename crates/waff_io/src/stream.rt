//! A stream for what went wrong, which knows whether a write to it failed.
ghost use Rattle.std.specs.List.{flat_map};
ghost use Rattle.std.specs.Prelude.{◌≡◌, ℕ, List, Option, true};
ghost use Rattle.waff_io.specs.Writing.{WritesOrFails};

use crate::writing::{WriteFault, write_whole};
use std::alloc::Global;
use std::io::Write;

/// A stream for what went wrong.
pub trait ErrorStream {
    // What it holds, where that is known.
    ghost holds: { Self → Option (List ℕ) };

    // A write to it failed.
    ghost failed: { Self → Type 0 };

    /// Writes the text.
    fn write_text(&mut self, text: &[u8]) -> Result<(), WriteFault>
        ensures { WritesOrFails (holds self.old) (holds self.new) (failed self.new) text.now
            result };
}

/// A writer, and whether a write to it failed.
#[derive(Drop)]
pub struct Watched<W> {
    writer: W,
    failed: bool,
}

impl<W: Write> Watched<W> {
    /// The writer, to which no write failed yet.
    pub fn new(writer: W) -> Watched<W> {
        Watched {
            writer,
            failed: false,
        }
    }
}

impl<W: Write> ErrorStream for Watched<W> {
    ghost holds = { λ s. W.contents s.writer };

    ghost failed = { λ s. s.failed ≡ true };

    fn write_text(&mut self, text: &[u8]) -> Result<(), WriteFault> {
        match write_whole(&mut self.writer, text) {
            Ok(()) => Ok(()),
            Err(fault) => {
                self.failed = true;
                Err(fault)
            }
        }
    }
}

/// Writes the pieces as one text: together, or where there is no memory for that one after another.
pub fn write_pieces<S: ErrorStream>(
    alloc: Global,
    stream: &mut S,
    pieces: &[&str],
) -> Result<(), WriteFault>
    ensures { WritesOrFails (S.holds stream.old) (S.holds stream.new) (S.failed stream.new)
        (flat_map (λ piece. piece.now) pieces.now) result }
{
    match pieces.concat(alloc) {
        Ok(text) => {
            let written = stream.write_text(text.as_bytes());
            drop(text);
            written
        }
        Err(_) => write_apart(stream, pieces),
    }
}

/// Writes the pieces one after another.
fn write_apart<S: ErrorStream>(stream: &mut S, pieces: &[&str]) -> Result<(), WriteFault>
    ensures { WritesOrFails (S.holds stream.old) (S.holds stream.new) (S.failed stream.new)
        (flat_map (λ piece. piece.now) pieces.now) result }
{
    for piece in pieces {
        match stream.write_text(piece.as_bytes()) {
            Ok(()) => {}
            Err(fault) => return Err(fault),
        }
    }
    Ok(())
}
