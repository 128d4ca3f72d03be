//! The line and its events.

ghost use Rattle.std.specs.Prelude.{◌≡◌, false, true, map, IfOk, MatchOption, MatchResult};
ghost use Rattle.waff_plan.specs.Timetable.{work_of_messages};
ghost use Rattle.waff_line.specs.Lined.{course_in};
ghost use Rattle.waff_line.specs.Machine.{IsRunning, NobodyMayBegin, Steps, opening};
ghost use Rattle.waff_line.specs.Noted.{shown};
ghost use Rattle.waff_line.specs.Scaled.{scaled};
ghost use Rattle.waff_line.specs.declared.event.Event.TheVariants.{Begin, End, Tell};
ghost use Rattle.waff_line.specs.declared.queue.Ended.TheVariants.{NotRunning};

use crate::notes::Notes;
use crate::queue::{Ended, Over, Queue};
use crate::turn::Turn;
use std::alloc::{AllocError, Global};
use std::marker::Model;
use waff_assign::Case;

/// The line of a run. Messages are numbered from 1, workers from 1. Contracts see what it is of, its state: one that the
/// machine reaches by events, and whether it is over.
#[derive(Drop)]
pub struct Line<'a> {
    queue: Queue<'a>,
    notes: Notes,
    /// How many messages have not begun.
    waiting: u32,
    /// How many have ended.
    ended: u32,
}

impl<'a> Model for Line<'a> {
    ghost use Rattle.waff_line.specs.Lined.{LineValue};
    ghost use Rattle.waff_line.specs.Machine.{Reaches};
    ghost use Rattle.waff_line.specs.Queued.{IsQueue, course_of, value_of};

    ghost Value = { LineValue };

    ghost view = { λ l. value_of l.queue l.notes };

    ghost invariant = { λ l. IsQueue l.queue l.notes.1 l.notes.0
        × Reaches (course_of l.queue l.notes.1) l.notes.0 };
}

impl<'a> Line<'a> {
    /// The line of a case for this many workers, before anything has happened. A tick of the trace is `tick` nanoseconds.
    pub fn of(alloc: Global, case: Case<'a>, workers: u32, tick: u32) -> Result<Self, AllocError>
        ensures course { IfOk result (λ line. course_in line ≡ record {
          version = case.entry.trace.now.version;
          tree = case.entry.tree.now;
          assigned = case.entry.assigned.now;
          work = scaled tick (work_of_messages case.entry.trace.now.messages);
          workers = workers;
        }) }
        ensures opening { IfOk result (λ line. line.state ≡ opening (course_in line)) }
        ensures going { IfOk result (λ line. line.over ≡ false) }
    {
        let count = case.trace.len();
        Ok(Line {
            queue: Queue::of(alloc, case, workers, tick)?,
            notes: Notes::none(alloc, count as usize, workers)?,
            waiting: count,
            ended: 0,
        })
    }

    /// It is told the time. An earlier one than it was told before counts for nothing.
    pub fn tell(&mut self, now: u64)
        ensures course { course_in self.new ≡ course_in self.old }
        ensures told { Steps (course_in self.old) self.old.state (Tell now) self.new.state }
    {
        self.notes.tell(now);
    }

    /// How many messages have not begun.
    pub fn waiting(&self) -> u32 {
        self.waiting
    }

    /// How many messages have ended.
    pub fn ended(&self) -> u32 {
        self.ended
    }

    /// Whether a message waits for nothing but a worker.
    pub fn is_ready(&self) -> bool {
        self.queue.waiting.is_ready()
    }

    /// The time from which on the next message may begin, as far as it is known, or `NEVER`. By issue that is a nanosecond
    /// behind its issue: all that are issued at once are known then.
    pub fn next(&self) -> u64 {
        let issue = self.queue.due.next();
        if self.queue.case.trace.version().has_clients() {
            issue.saturating_add(1)
        } else {
            issue
        }
    }

    /// The first message that is ready begins on this worker, where it is free. None does where no message may.
    pub fn begin(&mut self, worker: u32) -> Result<Option<u32>, Over>
        ensures course { course_in self.new ≡ course_in self.old }
        ensures begun { MatchResult result
            (λ begun. MatchOption begun ((self.new ≡ self.old)
            × NobodyMayBegin (course_in self.old) self.old.state worker)
            (λ m. Steps (course_in self.old) self.old.state (Begin worker m) self.new.state))
            (λ _. (self.new.state ≡ self.old.state) × (self.new.over ≡ true)) }
    {
        self.queue.join_all(&self.notes)?;
        if !self.notes.is_free(worker) {
            return Ok(None);
        }
        let Some(m) = self.queue.waiting.pop() else {
            return Ok(None);
        };
        let clock = self.notes.clock();
        let (after, late) = self.queue.waiting.lateness(worker, m, clock);
        self.notes.begin(worker, m, after, late);
        self.waiting = self.waiting.saturating_sub(1);
        Ok(Some(m))
    }

    /// Message `m`, which runs, ends at this time, and no sooner than a nanosecond after its start.
    pub fn end(&mut self, m: u32, now: u64) -> Result<Ended, AllocError>
        ensures course { course_in self.new ≡ course_in self.old }
        ensures ended { IsRunning self.old.state m
            → Steps (course_in self.old) self.old.state (End m now) self.new.state }
        ensures not_running { ¬ IsRunning self.old.state m → self.new ≡ self.old }
        ensures told { ¬ IsRunning self.old.state m → IfOk result (λ ended. ended ≡ NotRunning) }
    {
        let turn = self.notes.turn(m);
        if turn.worker == 0 || turn.ended {
            return Ok(Ended::NotRunning);
        }
        self.ended = self.ended.saturating_add(1);
        self.queue.end(&mut self.notes, m, now)
    }

    /// What was noted of each message, in the order of the numbers.
    pub fn turns(&self) -> &[Turn]
        ensures { map shown result.now ≡ self.now.state.turns }
    {
        self.notes.turns()
    }
}
