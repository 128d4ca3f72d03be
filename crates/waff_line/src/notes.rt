//! What has happened so far: the time, the turns of the messages, and which one each worker runs.

ghost use Rattle.std.specs.Prelude.{◌≡◌, ◌↔◌, ℕ, ◌≤◌, replicate, map, IfOk, IsTrue};
ghost use Rattle.waff_model.specs.Numbers.{IsAmongFirst};
ghost use Rattle.waff_line.specs.Machine.{IsFree, IsRunning, begun_on, ended_at, finish_at, no_turn, told, turn_of};
ghost use Rattle.waff_line.specs.Noted.{CanBegin, shown};

use crate::turn::Turn;
use std::alloc::{AllocError, Global};
use std::marker::Model;

/// The clock, the turns of the messages, and which message each worker runs. Contracts see the state of the
/// machine, and how many workers there are.
#[derive(Drop)]
pub(crate) struct Notes {
    /// The greatest time that it was told.
    clock: u64,
    turns: Vec<Turn>,
    /// The message that each worker runs, 0 for none.
    runs: Vec<u32>,
}

impl Model for Notes {
    ghost use Rattle.std.specs.Prelude.{ℕ, length};
    ghost use Rattle.waff_line.specs.Machine.{State};
    ghost use Rattle.waff_line.specs.Noted.{AreNoted, state_of};

    ghost Value = { State × ℕ };

    ghost view = { λ n. (state_of n.clock n.turns.items, length n.runs.items) };

    ghost invariant = { λ n. AreNoted (state_of n.clock n.turns.items) n.runs.items };
}

impl Notes {
    /// Nothing has happened to `count` messages.
    pub fn none(alloc: Global, count: usize, workers: u32) -> Result<Self, AllocError>
        ensures { IfOk result (λ notes.
            notes ≡ (record { clock = 0; turns = replicate count no_turn }, workers)) }
    {
        Ok(Notes {
            clock: 0,
            turns: vec![in alloc; Turn::none(); count]?,
            runs: vec![in alloc; 0; workers as usize]?,
        })
    }

    /// The greatest time that it was told.
    pub fn clock(&self) -> u64
        ensures { result ≡ self.now.0.clock }
    {
        self.clock
    }

    /// The turns of the messages, in the order of the numbers.
    pub fn turns(&self) -> &[Turn]
        ensures { map shown result.now ≡ self.now.0.turns }
    {
        self.turns.as_slice()
    }

    /// The turn of message `m`.
    pub fn turn(&self, m: u32) -> Turn
        ensures turn { shown result ≡ turn_of self.now.0 m }
        ensures past { result.finish ≤ self.now.0.clock }
    {
        let place = m as usize;
        if place == 0 || place > self.turns.len() {
            return Turn::none();
        }
        self.turns[place - 1]
    }

    /// It is told the time. An earlier one than it was told before counts for nothing.
    pub fn tell(&mut self, now: u64)
        ensures { self.new ≡ (told self.old.0 now, self.old.1) }
    {
        self.clock = self.clock.max(now);
    }

    /// Whether this is one of the workers, and no message runs on it.
    pub fn is_free(&self, worker: u32) -> bool
        ensures { IsTrue result
            ↔ (IsAmongFirst self.now.1 worker × IsFree self.now.0 worker) }
    {
        if worker == 0 || worker as usize > self.runs.len() {
            return false;
        }
        self.runs[worker as usize - 1] == 0
    }

    /// Message `m` begins on this worker. What is told of it later: the message that it had to wait for, and how
    /// late it began.
    pub fn begin(&mut self, worker: u32, m: u32, after: u32, late: u64)
        requires { CanBegin self.old.0 self.old.1 worker m }
        ensures { self.new ≡ (begun_on self.old.0 worker m, self.old.1) }
    {
        self.turns[m as usize - 1] = Turn {
            start: self.clock,
            finish: 0,
            worker,
            after,
            late,
            ended: false,
        };
        self.runs[worker as usize - 1] = m;
    }

    /// Message `m`, which runs, ends at this time, and no sooner than a nanosecond after its start. Its finish.
    pub fn end(&mut self, m: u32, now: u64) -> u64
        requires { IsRunning self.old.0 m }
        ensures ended { self.new ≡ (ended_at self.old.0 m now, self.old.1) }
        ensures finish { result ≡ finish_at self.old.0 m now }
        ensures staffed { 1 ≤ self.old.1 }
    {
        let turn = self.turns[m as usize - 1];
        let finish = now.max(self.clock).max(turn.start + 1);
        self.turns[m as usize - 1] = Turn {
            start: turn.start,
            finish,
            worker: turn.worker,
            after: turn.after,
            late: turn.late,
            ended: true,
        };
        self.runs[turn.worker as usize - 1] = 0;
        self.clock = finish;
        finish
    }
}
