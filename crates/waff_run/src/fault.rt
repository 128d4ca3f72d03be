//! Why a run ended before its end, and told nothing.
ghost use Rattle.std.specs.Prelude.{◌≡◌};
ghost use Rattle.waff_inputs.specs.declared.fault.ToolError.TheVariants as tool;
ghost use Rattle.waff_run.specs.declared.fault.RunError.TheVariants as run;

use crate::store::StoreFault;
use std::alloc::AllocError;
use waff_inputs::ToolError;
use waff_record::RecordError;

/// Why a run ended before its end.
#[derive(Clone, Copy, Debug, PartialEq)]
pub enum Stopped {
    Memory,
    /// This message ran for too many ticks.
    Tick(u32),
    /// In this file something could not be done.
    File(usize),
    /// Only so many workers could be started, the first of them counted.
    Threads(u32),
    /// The line would have gone on out of turn.
    Line,
}

impl From<AllocError> for Stopped {
    fn from(_error: AllocError) -> Stopped {
        Stopped::Memory
    }
}

impl From<RecordError> for Stopped {
    fn from(error: RecordError) -> Stopped {
        match error {
            RecordError::Memory => Stopped::Memory,
            RecordError::Tick(m) => Stopped::Tick(m),
        }
    }
}

impl From<StoreFault> for Stopped {
    fn from(fault: StoreFault) -> Stopped {
        Stopped::File(fault.file)
    }
}

/// Why a run told nothing.
#[derive(Drop)]
pub enum RunError {
    /// A file was refused, memory was, or the text could not be written.
    Tool(ToolError),
    /// This message ran for more ticks than a trace can tell, or the run had lasted too long when it ended.
    Tick(u32),
    /// The folder of the store is none.
    Folder,
    /// The file of the store that has this name is another one of the files of the run; or it is none of the store, and
    /// this is `trace`.
    Same(String),
    /// The file of the store that has this name is there, no run has made it, and it is not to be written over.
    Foreign(String),
    /// The file of the store that has this name could not be opened, locked, made longer, read, written or synced.
    File(String),
    /// Only so many workers could be started, the first of them counted, and nothing was run.
    Threads(u32),
    /// The line would have gone on out of turn.
    Run,
}

impl From<AllocError> for RunError {
    ghost from_gives = { λ _ error. error ≡ run.Tool tool.Memory };

    fn from(_error: AllocError) -> RunError {
        RunError::Tool(ToolError::Memory)
    }
}

impl From<ToolError> for RunError {
    fn from(error: ToolError) -> RunError {
        RunError::Tool(error)
    }
}
