//! Why there is nothing to answer, and what is said then.
ghost use Rattle.std.specs.Prelude.{◌≡◌};
ghost use Rattle.waff_io.specs.Writing.{Tells, WritesOrFails};
ghost use Rattle.waff_cli.specs.Refusals.{refusal_status, refusal_text};

use crate::tips::{NO_MEMORY, NOT_WRITTEN, text_with_tip};
use clap::error::ErrorKind;
use itoa::Buffer;
use std::alloc::{AllocError, AllocFailed, Global};
use waff_io::{ErrorStream, WriteFault, write_pieces};

/// The words were refused.
pub const REFUSED: u8 = 2;

/// Something could not be read or written, or memory was refused.
pub const FAILED: u8 = 4;

/// Why there is nothing to answer.
#[derive(Clone, Copy)]
pub enum Refusal {
    /// The words were refused, or ask for help, or a file was not read. That was told, and this is the
    /// exit status.
    Told(u8),
    /// A word is not text, or one is missing that was not refused.
    NoWords,
    /// The file of this place among the file words could not be read or is too long; 0 is standard
    /// input.
    Read(usize),
    Memory,
}

impl From<AllocError> for Refusal {
    fn from(_error: AllocError) -> Refusal {
        Refusal::Memory
    }
}

impl<T: Drop> From<AllocFailed<T>> for Refusal {
    fn from(_error: AllocFailed<T>) -> Refusal {
        Refusal::Memory
    }
}

impl Refusal {
    /// The refusal of this error of the words of a command, which is printed: help on standard output,
    /// what is wrong on standard error. Where that is a terminal it is loud, and has a tip that helps.
    pub(crate) fn of<R: Print + Eprint>(
        rt: &R,
        alloc: Global,
        error: &clap::Error,
        command: &str,
        loud: bool,
    ) -> Refusal {
        if error.kind() == ErrorKind::OutOfMemory {
            return Refusal::Memory;
        }
        if loud && error.use_stderr() {
            return match text_with_tip(alloc, error, command) {
                Ok(text) => Refusal::of_words(rt, text.as_str()),
                Err(_) => Refusal::Memory,
            };
        }
        if error.print(rt).is_err() && !error.use_stderr() {
            let _ = rt.eprintln("waff: Write");
            if loud {
                let _ = rt.eprint(NOT_WRITTEN);
            }
            return Refusal::Told(FAILED);
        }
        Refusal::Told(error.exit_code() as u8)
    }

    /// The refusal of words for what this text says, which is printed.
    fn of_words(rt: &impl Eprint, text: &str) -> Refusal {
        let _ = rt.eprint(text);
        Refusal::Told(REFUSED)
    }

    /// Says why, where that is not told yet, and gives the exit status. Where the error stream fails,
    /// the status has to do.
    pub fn report<E: ErrorStream>(self, alloc: Global, err: &mut E) -> u8
        ensures told { Tells (E.holds err.old) (E.holds err.new) (E.failed err.new)
            (refusal_text self) }
        ensures status { result ≡ refusal_status self }
    {
        match self.say(alloc, err) {
            Ok(()) => {}
            Err(_) => {}
        }
        self.status()
    }

    /// Says why, where that is not told yet.
    fn say<E: ErrorStream>(self, alloc: Global, err: &mut E) -> Result<(), WriteFault>
        ensures { WritesOrFails (E.holds err.old) (E.holds err.new) (E.failed err.new)
            (refusal_text self) result }
    {
        let mut digits = Buffer::new();
        match self {
            Refusal::Told(_) => write_pieces(alloc, err, &[]),
            Refusal::NoWords => {
                write_pieces(alloc, err, &["error: a word is missing or is not text\n"])
            }
            Refusal::Read(place) => {
                write_pieces(alloc, err, &["waff: Read ", digits.format(place), "\n"])
            }
            Refusal::Memory => write_pieces(alloc, err, &["waff: Memory\n"]),
        }
    }

    /// The exit status.
    fn status(self) -> u8
        ensures { result ≡ refusal_status self }
    {
        match self {
            Refusal::Told(status) => status,
            Refusal::NoWords => REFUSED,
            Refusal::Read(_) | Refusal::Memory => FAILED,
        }
    }

    /// The refusal of words for this, which is printed.
    pub(crate) fn because(rt: &impl Eprint, why: &str) -> Refusal {
        let _ = eprintln!(rt; "error: {why}\n\nFor more information, try '--help'.");
        Refusal::Told(REFUSED)
    }

    /// The refusal for memory, which is told, and below it what that is.
    pub(crate) fn no_memory<E: ErrorStream>(
        rt: &impl Eprint,
        alloc: Global,
        err: &mut E,
    ) -> Refusal {
        let status = Refusal::Memory.report(alloc, err);
        let _ = rt.eprint(NO_MEMORY);
        Refusal::Told(status)
    }
}
