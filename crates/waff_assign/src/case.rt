//! A trace under a tree of affinities.

ghost use Rattle.std.specs.Prelude.{◌≡◌, length};
ghost use Rattle.waff_model.specs.Numbers.{IsAmongFirst};
ghost use Rattle.waff_assign.specs.Held.{AreKnown};
ghost use Rattle.waff_assign.specs.Order.{affinity_name};

use crate::Assigned;
use waff_model::{Trace, Tree};

/// A trace under a tree of affinities, with what each message holds.
#[derive(Clone, Copy)]
pub struct Case<'a> {
    pub tree: &'a Tree,
    pub assigned: &'a Assigned,
    pub trace: &'a Trace,
    pub ghost lengths: { length assigned.now ≡ length trace.now.messages },
    pub ghost known: { AreKnown tree.now assigned.now },
}

impl<'a> Case<'a> {
    /// The name of the affinity of message `n`, from 1; a hyphen where it has none.
    pub fn affinity_name(&self, n: u32) -> &'a str
        requires number { IsAmongFirst (length self.now.assigned.now) n }
        ensures { result.now ≡ affinity_name self.now.tree.now self.now.assigned.now n }
    {
        match self.assigned.affinity(n) {
            Some(affinity) => self.tree.name(affinity),
            None => "-",
        }
    }
}
