//! The messages that are ready, the one that is taken first first.

ghost use Rattle.std.specs.Prelude.{◌≡◌, ℕ, [], ◌∷◌, OnOk, MatchOption};
ghost use Rattle.std.specs.List.Sorted.{IsPermutation};
ghost use Rattle.waff_waits.specs.Ready.{LeavesTaker};

use std::alloc::{AllocError, Global};
use std::cmp::Reverse;
use std::collections::BinaryHeap;
use std::marker::Model;

/// The messages that are ready, each with its priority and the key by which it is served.
#[derive(Drop)]
pub struct Ready {
    heap: BinaryHeap<(u64, Reverse<(u64, u32)>)>,
}

impl Model for Ready {
    ghost use Rattle.std.specs.Prelude.{List, ℕ, map};
    ghost use Rattle.std.specs.Ordering.{nat_cmp, ordering_then};
    ghost use Rattle.std.specs.BinaryHeap.{IsHeap, heap_items};

    ghost Value = { List (ℕ × (ℕ × ℕ)) };

    ghost view = { λ t. map (λ r. (r.0, r.1.0)) (heap_items t.heap) };

    ghost invariant = { λ t. IsHeap (λ x y. ordering_then (nat_cmp x.0 y.0) (ordering_then
        (nat_cmp y.1.0.0 x.1.0.0) (nat_cmp y.1.0.1 x.1.0.1))) (heap_items t.heap) };
}

impl Ready {
    /// No message is ready.
    pub fn none(alloc: Global) -> Self
        ensures { result ≡ [] }
    {
        Ready {
            heap: BinaryHeap::new(alloc),
        }
    }

    /// Message `m` of this priority and key is ready.
    pub fn push(&mut self, priority: u64, key: u64, m: u32) -> Result<(), AllocError>
        ensures { OnOk result (IsPermutation ((priority, (key, m)) ∷ self.old) self.new) }
    {
        self.heap.push((priority, Reverse((key, m))))?;
        Ok(())
    }

    /// Takes out the message that is taken first.
    pub fn pop(&mut self) -> Option<(u64, (u64, u32))>
        ensures { MatchOption result ((self.old ≡ []) × (self.new ≡ self.old))
            (λ r. LeavesTaker self.old r self.new) }
    {
        match self.heap.pop() {
            Some((priority, Reverse(served))) => Some((priority, served)),
            None => None,
        }
    }
}
