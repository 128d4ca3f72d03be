//! Why nothing is told of a run.

use std::alloc::AllocError;

/// Why nothing is told of a run.
#[derive(Clone, Copy, Debug, PartialEq)]
pub enum RecordError {
    Memory,
    /// This message would be told to finish too late, or to run for too many ticks.
    Tick(u32),
}

impl From<AllocError> for RecordError {
    fn from(_error: AllocError) -> RecordError {
        RecordError::Memory
    }
}
