//! Lists of lists, kept flat, and the needs of messages as such lists.

ghost use Rattle.std.specs.Prelude.{◌≡◌, ◌+◌, ◌-◌, ◌^◌, ◌<◌, ◌≤◌, [], ◌∷◌, ◌++◌, length, sum_by};
ghost use Rattle.std.specs.Prelude.{slice_index_or, slice_range, IfOk, OnErr, OnOk};
ghost use Rattle.std.specs.List.Sorted.{IsStrictlyIncreasing};
ghost use Rattle.waff_model.specs.Numbers.{IsAmongFirst};
ghost use Rattle.waff_order.specs.Needs.{needs_of, AreLists};
ghost use Rattle.waff_order.specs.Cuts.{parts, AreCuts};

use std::alloc::{AllocError, Global};
use std::marker::Model;

/// A list for each message: one list of all elements, and where in it the parts end.
#[derive(Drop)]
pub struct Lists<T> {
    all: Vec<T>,
    ends: Vec<u32>,
}

impl<T> Model for Lists<T> {
    ghost use Rattle.std.specs.Prelude.{List};
    ghost use Rattle.waff_order.specs.Cuts.{parts, AreCuts};

    ghost Value = { List (List T) };

    ghost view = { λ l. parts l.all.items 0 l.ends.items };

    ghost invariant = { λ l. AreCuts l.all.items 0 l.ends.items };
}

impl<T> Lists<T> {
    /// No list, with room for so many.
    pub fn with_capacity(alloc: Global, count: usize) -> Result<Self, AllocError>
        ensures { IfOk result (λ lists. lists ≡ []) }
    {
        let ends = Vec::with_capacity(alloc, count)?;
        Ok(Lists {
            all: Vec::new(alloc),
            ends,
        })
    }

    /// How many lists there are.
    pub fn len(&self) -> usize
        ensures { result ≡ length self.now }
    {
        self.ends.len()
    }

    /// How many elements there are in all.
    pub(crate) fn total(&self) -> usize
        ensures { result ≡ sum_by length self.now }
    {
        self.all.len()
    }

    /// The list of message `n`, from 1.
    pub fn of(&self, n: u32) -> &[T]
        requires number { IsAmongFirst (length self.now) n }
        ensures { result.now ≡ slice_index_or self.now (n - 1) [] }
    {
        let (from, to) = bounds(self.all.as_slice(), self.ends.as_slice(), n);
        &self.all[from..to]
    }
}

impl<T: Copy> Lists<T> {
    /// Appends a list, of which nothing is left where memory is refused.
    pub fn push(&mut self, list: &[T]) -> Result<(), AllocError>
        requires short { sum_by length self.old + length list.now < 2 ^ 32 }
        ensures pushed { OnOk result (self.new ≡ self.old ++ list.now ∷ []) }
        ensures unchanged { OnErr result (self.new ≡ self.old) }
    {
        self.ends.reserve(1)?;
        self.all.extend_from_slice(list)?;
        self.ends.push_reserved(self.all.len() as u32);
        Ok(())
    }
}

/// Where the list of message `n` begins and ends.
fn bounds<T>(all: &[T], ends: &[u32], n: u32) -> (usize, usize)
    requires cuts { AreCuts all.now 0 ends.now }
    requires number { IsAmongFirst (length ends.now) n }
    ensures { (result.0 ≤ result.1) × (result.1 ≤ length all.now)
        × (slice_range all.now result.0 result.1
        ≡ slice_index_or (parts all.now 0 ends.now) (n - 1) []) }
{
    let index = n as usize - 1;
    let to = ends[index] as usize;
    if index == 0 {
        return (0, to);
    }
    (ends[index - 1] as usize, to)
}

/// The needs of each message of a trace: earlier messages that must have finished before it starts.
pub struct Needs {
    lists: Lists<u32>,
}

impl Model for Needs {
    ghost use Rattle.std.specs.Prelude.{List, ℕ};
    ghost use Rattle.waff_order.specs.Needs.{AreLists};

    ghost Value = { List (List ℕ) };

    ghost view = { λ n. n.lists };

    ghost invariant = { λ n. AreLists n.lists };
}

// Written out: a derived drop is proved again in each crate that lets go of the value.
impl Drop for Needs {
    fn drop(self) {
        let Needs { lists } = self;
        drop(lists);
    }
}

impl Needs {
    /// The needs of as many messages as there are lists.
    pub(crate) fn new(lists: Lists<u32>) -> Self
        requires { AreLists lists }
        ensures { result ≡ lists }
    {
        Needs { lists }
    }

    /// How many messages there are.
    pub fn len(&self) -> u32
        ensures count { result ≡ length self.now }
        ensures lists { AreLists self.now }
    {
        self.lists.len() as u32
    }

    /// The needs of message `n`, from 1, in rising order.
    pub fn of(&self, n: u32) -> &[u32]
        requires number { IsAmongFirst (length self.now) n }
        ensures needs { result.now ≡ needs_of self.now n }
        ensures rising { IsStrictlyIncreasing result.now }
    {
        self.lists.of(n)
    }
}
