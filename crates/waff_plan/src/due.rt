//! Messages by the ticks at which they are due.

ghost use Rattle.std.specs.Prelude.{◌≡◌, ◌⊎◌, ℕ, ◌<◌, ◌≤◌, [], ◌∷◌, All, Contains, OnOk, map};
ghost use Rattle.std.specs.Prelude.{IsPermutation, MatchBool, MatchOption, false, option_map, true};
ghost use Rattle.waff_plan.specs.Due.{IsDueFirst, LeavesDue};

use std::alloc::{AllocError, Global};
use std::cmp::Reverse;
use std::collections::BinaryHeap;
use std::marker::Model;

/// The tick at which the next message is due where none is: it is later than every tick.
pub const NEVER: u64 = u64::MAX;

/// Messages, each with the tick at which it is due: at which it is issued, for one, or finishes. The first
/// to be due comes first, and of those of one tick the one of the lowest number.
#[derive(Drop)]
pub struct Due {
    /// Those that were due from the beginning, the first one last: a heap of so many would be slower.
    sorted: Vec<Reverse<(u64, u32)>>,
    /// The others.
    heap: BinaryHeap<Reverse<(u64, u32)>>,
}

impl Model for Due {
    ghost use Rattle.std.specs.Prelude.{List, ℕ, ◌++◌, map, AllPairs};
    ghost use Rattle.std.specs.Ordering.{nat_cmp, ordering_then};
    ghost use Rattle.std.specs.BinaryHeap.{IsHeap, heap_items};
    ghost use Rattle.waff_plan.specs.Due.{IsDueFirst};

    ghost Value = { List (ℕ × ℕ) };

    ghost view = { λ d. map (λ r. r.0) (d.sorted.items ++ heap_items d.heap) };

    ghost invariant = { λ d. AllPairs (λ x y. IsDueFirst y.0 x.0) d.sorted.items
        × IsHeap (λ x y. ordering_then (nat_cmp y.0.0 x.0.0) (nat_cmp y.0.1 x.0.1))
        (heap_items d.heap) };
}

impl Due {
    /// These messages are due, each with its tick.
    pub fn of(alloc: Global, messages: Vec<Reverse<(u64, u32)>>) -> Self
        ensures { IsPermutation (map (λ r. r.0) messages.items) result }
    {
        let mut sorted = messages;
        sorted.sort_unstable();
        Due {
            sorted,
            heap: BinaryHeap::new(alloc),
        }
    }

    /// One more message, which is due at this tick.
    pub fn push(&mut self, tick: u64, message: u32) -> Result<(), AllocError>
        ensures { OnOk result (IsPermutation ((tick, message) ∷ self.old) self.new) }
    {
        self.heap.push(Reverse((tick, message)))?;
        Ok(())
    }

    /// The tick at which the first message is due, or `NEVER`.
    pub fn next(&self) -> u64
        ensures least { All (λ r. result ≤ r.0) self.now }
        ensures one { (result ≡ NEVER) ⊎ ((m : ℕ) × Contains self.now (result, m)) }
    {
        tick_of(self.sorted.last()).min(tick_of(self.heap.peek()))
    }

    /// Takes out the message that is due first, with its tick.
    pub fn pop(&mut self) -> Option<(u64, u32)>
        ensures { MatchOption result ((self.old ≡ []) × (self.new ≡ self.old))
            (λ r. LeavesDue self.old r self.new) }
    {
        if is_first(self.sorted.last(), self.heap.peek()) {
            return pair_of(self.sorted.pop());
        }
        pair_of(self.heap.pop())
    }

    /// Takes out the message that is due first, with its tick, if that is by now.
    pub fn pop_by(&mut self, now: u64) -> Option<(u64, u32)>
        requires { now < NEVER }
        ensures { MatchOption result ((self.new ≡ self.old) × All (λ r. now < r.0) self.old)
            (λ r. (r.0 ≤ now) × LeavesDue self.old r self.new) }
    {
        if now < self.next() {
            return None;
        }
        self.pop()
    }
}

/// The tick of a message that is due, or `NEVER` where there is none.
fn tick_of(due: Option<&Reverse<(u64, u32)>>) -> u64
    ensures { MatchOption due.entry (result ≡ NEVER) (λ r. result ≡ r.now.0.0) }
{
    match due {
        Some(Reverse((tick, _))) => *tick,
        None => NEVER,
    }
}

/// A message with its tick, in their own order.
fn pair_of(due: Option<Reverse<(u64, u32)>>) -> Option<(u64, u32)>
    ensures { result ≡ option_map (λ r. r.0) due }
{
    match due {
        Some(Reverse(pair)) => Some(pair),
        None => None,
    }
}

/// Whether there is this message, and it is due before the other.
fn is_first(due: Option<&Reverse<(u64, u32)>>, other: Option<&Reverse<(u64, u32)>>) -> bool
    ensures { MatchOption due.entry (result ≡ false) (λ r. MatchOption other.entry (result ≡ true)
        (λ s. MatchBool result (IsDueFirst r.now.0 s.now.0) (IsDueFirst s.now.0 r.now.0))) }
{
    match (due, other) {
        (None, _) => false,
        (Some(_), None) => true,
        (Some(due), Some(other)) => other < due,
    }
}
