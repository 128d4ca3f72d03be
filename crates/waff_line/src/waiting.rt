//! What the messages that have joined wait for, and which ones are ready: they wait for nothing but a worker.

ghost use Rattle.std.specs.Prelude.{◌≡◌, ◌-◌, ℕ, List, [], ◌∷◌, ◌++◌, replicate, false, true};
ghost use Rattle.std.specs.Prelude.{length, All, Contains, IfOk, IsPermutation, MatchOption, OnOk, slice_set};
ghost use Rattle.waff_model.specs.Numbers.{IsAmongFirst};
ghost use Rattle.waff_line.specs.Entered.{IsReadied, needs_at, ready_in};
ghost use Rattle.waff_waits.specs.Times.{AreEach};
ghost use Rattle.waff_waits.specs.Waits.{Enters, IsFree, waiting_for};

use crate::notes::Notes;
use crate::order::Order;
use crate::queue::Joined;
use std::alloc::{AllocError, Global};
use std::cmp::Reverse;
use std::collections::BinaryHeap;
use waff_waits::Waits;

/// Of some messages the one that finished last, of several that of the lowest number; 0 where there is none.
#[derive(Clone, Copy)]
struct Last {
    message: u32,
    finish: u64,
}

impl Last {
    fn none() -> Last {
        Last {
            message: 0,
            finish: 0,
        }
    }

    /// With one more message.
    fn or(self, message: u32, finish: u64) -> Last {
        let is_later = finish > self.finish;
        if is_later || self.message == 0 || (finish == self.finish && message < self.message) {
            Last { message, finish }
        } else {
            self
        }
    }
}

/// What is told of a message when it begins.
#[derive(Clone, Copy)]
struct Wait {
    /// Its place in the order of service, from 1; 0 as long as it has not joined.
    place: u32,
    /// The one of its needs that finished last.
    last: Last,
    /// Since when it could begin but for a worker.
    since: u64,
}

/// What the messages wait for, and which ones are ready.
#[derive(Drop)]
pub(crate) struct Waiting {
    /// Who waits for whom, of the messages that have joined.
    pub waits: Waits,
    /// Those that wait for nothing but a worker, by their places.
    pub ready: BinaryHeap<Reverse<(u32, u32)>>,
    /// The needs of the message that joins, by number.
    needs: Vec<u32>,
    told: Vec<Wait>,
    /// The finish of the last message of each worker.
    frees: Vec<u64>,
}

impl Waiting {
    /// None of `count` messages has joined.
    pub fn none(alloc: Global, count: usize, workers: u32) -> Result<Self, AllocError>
        ensures waits { IfOk result (λ waiting. waiting.waits ≡ record {
          awaited = replicate count [];
          finished = replicate count false;
        }) }
        ensures ready { IfOk result (λ waiting. ready_in waiting ≡ []) }
    {
        let wait = Wait {
            place: 0,
            last: Last::none(),
            since: 0,
        };
        Ok(Waiting {
            waits: Waits::none(alloc, count)?,
            ready: BinaryHeap::with_capacity(alloc, count)?,
            needs: Vec::new(alloc),
            told: vec![in alloc; wait; count]?,
            frees: vec![in alloc; 0; workers as usize]?,
        })
    }

    /// Whether a message is ready.
    pub fn is_ready(&self) -> bool {
        !self.ready.is_empty()
    }

    /// A message that has joined waits for those of its needs that have not ended.
    pub fn enter(&mut self, order: &Order, notes: &Notes, joined: Joined) -> Result<(), AllocError>
        requires place { IsAmongFirst (length order.now.joining.needs) joined.place }
        requires number { IsAmongFirst (length self.old.waits.awaited) joined.message }
        requires needs { All (IsAmongFirst (length self.old.waits.awaited))
            (needs_at order.now.messages.items order.now.joining.needs joined.place) }
        ensures enters { OnOk result (Enters self.old.waits joined.message
            (needs_at order.now.messages.items order.now.joining.needs joined.place) self.new.waits) }
        ensures ready { OnOk result (IsReadied self.new.waits joined.message
            (ready_in self.old) (ready_in self.new)) }
    {
        order.list_needs(joined.place, &mut self.needs)?;
        self.note(notes, joined);
        let is_free = self.waits.enter(joined.message, self.needs.as_slice())?;
        if is_free {
            self.push(joined.message)?;
        }
        Ok(())
    }

    /// Notes what is told later of a message that joins, by those of its needs that have ended.
    fn note(&mut self, notes: &Notes, joined: Joined)
        ensures waits { self.new.waits ≡ self.old.waits }
        ensures ready { ready_in self.new ≡ ready_in self.old }
        ensures needs { self.new.needs.items ≡ self.old.needs.items }
    {
        let mut last = Last::none();
        for need in self.needs.iter() {
            let turn = notes.turn(*need);
            if turn.ended {
                last = last.or(*need, turn.finish);
            }
        }
        if let Some(wait) = self.told.get_mut(at(joined.message)) {
            *wait = Wait {
                place: joined.place,
                last,
                since: joined.issue.max(last.finish),
            };
        }
    }

    /// Message `m`, which waits for nothing but a worker, is ready.
    fn push(&mut self, m: u32) -> Result<(), AllocError>
        ensures ready { OnOk result (IsPermutation (m ∷ ready_in self.old) (ready_in self.new)) }
        ensures waits { OnOk result (self.new.waits ≡ self.old.waits) }
    {
        let place = self.place(m);
        self.ready.push(Reverse((place, m)))?;
        Ok(())
    }

    /// The place of message `m` in the order of service.
    fn place(&self, m: u32) -> u32 {
        match self.told.get(at(m)) {
            Some(wait) => wait.place,
            None => 0,
        }
    }

    /// Takes out the message that is ready at the first place.
    pub fn pop(&mut self) -> Option<u32>
        ensures ready { MatchOption result ((ready_in self.old ≡ []) × (ready_in self.new ≡ []))
            (λ m. IsPermutation (ready_in self.old) (m ∷ ready_in self.new)) }
        ensures waits { self.new.waits ≡ self.old.waits }
    {
        match self.ready.pop() {
            Some(Reverse((_, m))) => Some(m),
            None => None,
        }
    }

    /// Of message `m`, which begins on this worker by this clock, the need that finished last, and how late it
    /// begins.
    pub fn lateness(&self, worker: u32, m: u32, clock: u64) -> (u32, u64) {
        let free = match self.frees.get(at(worker)) {
            Some(free) => *free,
            None => 0,
        };
        match self.told.get(at(m)) {
            Some(wait) => (
                wait.last.message,
                clock.saturating_sub(wait.since.max(free)),
            ),
            None => (0, 0),
        }
    }

    /// Message `m` has finished on this worker: those that wait for it wait for it no more.
    pub fn finish(&mut self, worker: u32, m: u32, finish: u64) -> Result<(), AllocError>
        requires number { IsAmongFirst (length self.old.waits.awaited) m }
        ensures waits { OnOk result (self.new.waits ≡ record {
          awaited = slice_set self.old.waits.awaited (m - 1) [];
          finished = slice_set self.old.waits.finished (m - 1) true;
        }) }
        ensures ready { OnOk result ((entered begun : List ℕ)
            → ((d : ℕ) → Contains (waiting_for self.old.waits m) d → Contains entered d)
            → AreEach (IsFree entered self.old.waits) (begun ++ ready_in self.old)
            → AreEach (IsFree entered self.new.waits) (begun ++ ready_in self.new)) }
    {
        while let Some((waiter, is_free)) = self.waits.let_go(m) {
            self.tell(waiter, m, finish);
            if is_free {
                self.push(waiter)?;
            }
        }
        self.waits.finish(m);
        self.free(worker, finish);
        Ok(())
    }

    /// The worker is free from this time on.
    fn free(&mut self, worker: u32, finish: u64)
        ensures waits { self.new.waits ≡ self.old.waits }
        ensures ready { ready_in self.new ≡ ready_in self.old }
    {
        if let Some(free) = self.frees.get_mut(at(worker)) {
            *free = finish;
        }
    }

    /// One of the needs of message `waiter`, message `m`, has finished.
    fn tell(&mut self, waiter: u32, m: u32, finish: u64)
        ensures waits { self.new.waits ≡ self.old.waits }
        ensures ready { ready_in self.new ≡ ready_in self.old }
    {
        if let Some(wait) = self.told.get_mut(at(waiter)) {
            wait.last = wait.last.or(m, finish);
            wait.since = wait.since.max(finish);
        }
    }
}

/// The place of what is numbered from 1.
fn at(number: u32) -> usize {
    (number as usize).wrapping_sub(1)
}
