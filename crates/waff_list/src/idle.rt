//! The workers that are free, the least first.

ghost use Rattle.std.specs.Prelude.{◌≡◌, [], ◌∷◌, length, OnOk, IfOk, MatchOption};
ghost use Rattle.std.specs.List.Sorted.{IsPermutation};
ghost use Rattle.waff_model.specs.Numbers.{IsAmongFirst};
ghost use Rattle.waff_waits.specs.Times.{AreEach};
ghost use Rattle.waff_list.specs.Waiting.{LeavesLeast};

use std::alloc::{AllocError, Global};
use std::cmp::Reverse;
use std::collections::BinaryHeap;
use std::marker::Model;

/// The numbers of the workers that are free.
#[derive(Drop)]
pub(crate) struct Idle {
    heap: BinaryHeap<Reverse<u32>>,
}

impl Model for Idle {
    ghost use Rattle.std.specs.Prelude.{List, ℕ, map};
    ghost use Rattle.std.specs.Ordering.{nat_cmp};
    ghost use Rattle.std.specs.BinaryHeap.{IsHeap, heap_items};

    ghost Value = { List ℕ };

    ghost view = { λ i. map (λ r. r.0) (heap_items i.heap) };

    ghost invariant = { λ i. IsHeap (λ x y. nat_cmp y.0 x.0) (heap_items i.heap) };
}

impl Idle {
    fn new(alloc: Global) -> Self
        ensures { result ≡ [] }
    {
        Idle {
            heap: BinaryHeap::new(alloc),
        }
    }

    /// All workers.
    pub fn all(alloc: Global, workers: u32) -> Result<Self, AllocError>
        ensures { IfOk result (AreEach (IsAmongFirst workers)) }
    {
        let mut idle = Idle::new(alloc);
        for worker in 0..workers {
            idle.push(worker + 1)?;
        }
        Ok(idle)
    }

    /// How many workers are free.
    pub fn len(&self) -> usize
        ensures { result ≡ length self.now }
    {
        self.heap.len()
    }

    /// The worker is free.
    pub fn push(&mut self, worker: u32) -> Result<(), AllocError>
        ensures { OnOk result (IsPermutation (worker ∷ self.old) self.new) }
    {
        self.heap.push(Reverse(worker))?;
        Ok(())
    }

    /// Takes out the least worker.
    pub fn pop(&mut self) -> Option<u32>
        ensures { MatchOption result ((self.old ≡ [])
            × (self.new ≡ [])) (λ w. LeavesLeast self.old w self.new) }
    {
        match self.heap.pop() {
            Some(Reverse(worker)) => Some(worker),
            None => None,
        }
    }
}
