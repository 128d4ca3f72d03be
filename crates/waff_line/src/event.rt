//! What happens to the machine of a run.

/// An event of a run. Messages and workers are numbered from 1, times are nanoseconds of the run.
#[derive(Clone, Copy)]
pub enum Event {
    /// The machine is told the time.
    Tell { now: u64 },
    /// The message begins on the worker, at the time of the machine.
    Begin { worker: u32, message: u32 },
    /// The message, which runs, ends at this time, and no sooner than a nanosecond after its start.
    End { message: u32, now: u64 },
}
