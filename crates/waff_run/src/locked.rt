//! What is behind the lock of a run.

ghost use Rattle.std.specs.Prelude.{◌⊎◌, IfNone, IsSome};
ghost use Rattle.waff_line.specs.Lined.{course_in};
ghost use Rattle.waff_line.specs.Machine.{NobodyMayBegin};

use crate::fault::Stopped;
use crate::going::{Going, Performed, RunOf, Taken};
use crate::store::Store;
use waff_line::Ended;
use waff_plan::NEVER;

/// A sleep ends some 50 microseconds late: for so many nanoseconds before a deadline a worker looks at the
/// clock in place of sleeping.
pub(crate) const EARLY: u64 = 70_000;

/// Between two tellings of progress lie so many nanoseconds at least.
const TELLING: u64 = 500_000_000;

/// What is behind the lock.
#[derive(Drop)]
pub(crate) struct Locked<'a, C: RunOf, S: Store> {
    pub line: Going<'a, C, S>,
    pub stopped: Option<Stopped>,
    /// The time of the line until which a worker sleeps, `NEVER` where none has a deadline.
    pub keeper: u64,
    /// How many workers sleep.
    pub asleep: u32,
    /// When progress was told.
    pub told: u64,
}

impl<'a, C: RunOf, S: Store> Locked<'a, C, S> {
    /// Nothing has happened to the line.
    pub fn of(line: Going<'a, C, S>) -> Self {
        Locked {
            line,
            stopped: None,
            keeper: NEVER,
            asleep: 0,
            told: 0,
        }
    }

    /// Whether no message is left to begin, or the run was stopped.
    pub fn is_over(&self) -> bool {
        self.line.waiting() == 0 || self.stopped.is_some()
    }

    /// Whether the next issue is so near that nobody should sleep until then, and no other worker keeps its
    /// deadline.
    pub fn is_soon(&self, now: u64) -> bool {
        let due = self.line.next();
        due < self.keeper && due <= now.saturating_add(EARLY)
    }

    /// The worker that kept this deadline keeps it no more.
    pub fn leave(&mut self, due: u64) {
        if self.keeper == due {
            self.keeper = NEVER;
        }
    }

    /// Whether progress is told now.
    pub fn is_telling(&mut self, loud: bool, now: u64) -> bool {
        if !loud || now < self.told.saturating_add(TELLING) {
            return false;
        }
        self.told = now;
        true
    }

    /// The first message that is ready begins on this worker, where it is free. Where none does, none may, or the run stops.
    pub fn begin(&mut self, worker: u32) -> Option<Taken<C, S>>
        ensures idle { IfNone result (IsSome self.new.stopped
            ⊎ NobodyMayBegin (course_in self.old.line) self.old.line.state worker) }
    {
        match self.line.begin(worker) {
            Ok(begun) => begun,
            Err(_) => {
                self.stop(Stopped::Memory);
                None
            }
        }
    }

    /// A message that was performed ends at this time.
    pub fn end(&mut self, performed: Performed<C, S>, now: u64) {
        let m = performed.message();
        match self.line.end(performed, now) {
            Ok(Ended::Well) => {}
            Ok(Ended::TooLong) => self.stop(Stopped::Tick(m)),
            Ok(Ended::NotRunning) => self.stop(Stopped::Line),
            Err(_) => self.stop(Stopped::Memory),
        }
    }

    /// The line is told the time.
    pub fn arrive(&mut self, now: u64) {
        self.line.tell(now);
    }

    pub fn stop(&mut self, stopped: Stopped)
        ensures { IsSome self.new.stopped }
    {
        if self.stopped.is_none() {
            self.stopped = Some(stopped);
        }
    }
}
