//! How a run is run.

ghost use Rattle.std.specs.Prelude.{◌≤◌};
ghost use Rattle.waff_plan.specs.Bound.{IsWorkers};

/// How many workers a run has, and how long a tick of its trace is.
#[derive(Clone, Copy)]
pub struct Pace {
    /// How many workers there are.
    pub workers: u32,
    /// Nanoseconds of a tick.
    pub tick: u32,
    /// Whether progress is told.
    pub loud: bool,
    pub ghost staffed: { IsWorkers workers },
    pub ghost lasting: { 1 ≤ tick },
}
