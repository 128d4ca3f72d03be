//! Sets of owners, in the order in which they come.

ghost use Rattle.std.specs.Prelude.{◌≡◌, ◌∷◌, ◌<◌, [], IfOk, OnOk};
ghost use Rattle.waff_core.specs.Owners.{AreAdded, AreMarked};

use std::alloc::{AllocError, Global};
use std::marker::Model;
use waff_model::AffinityId;

/// A list of affinities, each once. Whether one is in it is told by one look.
#[derive(Drop)]
pub(crate) struct OwnerSet {
    owners: Vec<u16>,
    /// For each affinity, whether it is in the list.
    marks: Vec<bool>,
}

impl Model for OwnerSet {
    ghost use Rattle.std.specs.Prelude.{length};
    ghost use Rattle.waff_core.specs.Owners.{AreMarked, Found};

    ghost Value = { Found };

    ghost view = { λ s. record { count = length s.marks.items; owners = s.owners.items } };

    ghost invariant = { λ s. AreMarked s.marks.items s.owners.items };
}

impl OwnerSet {
    /// The empty set, for so many affinities.
    pub fn none(alloc: Global, count: usize) -> Result<Self, AllocError>
        ensures count { IfOk result (λ set. set.count ≡ count) }
        ensures none { IfOk result (λ set. set.owners ≡ []) }
    {
        let marks = vec![in alloc; false; count]?;
        Ok(OwnerSet {
            owners: Vec::new(alloc),
            marks,
        })
    }

    /// Takes all out.
    pub fn clear(&mut self)
        ensures count { self.new.count ≡ self.old.count }
        ensures none { self.new.owners ≡ [] }
    {
        unmark(&mut self.marks, self.owners.as_slice());
        self.owners.clear();
    }

    /// Appends the affinity, where it is new.
    pub fn insert(&mut self, a: AffinityId) -> Result<(), AllocError>
        requires known { a.0 < self.old.count }
        ensures count { self.new.count ≡ self.old.count }
        ensures added { OnOk result (AreAdded (a.0 ∷ []) self.old.owners self.new.owners) }
    {
        if !self.marks[a.0 as usize] {
            self.owners.push(a.0)?;
            self.marks[a.0 as usize] = true;
        }
        Ok(())
    }

    /// The affinities.
    pub fn as_slice(&self) -> &[u16]
        ensures { result.now ≡ self.now.owners }
    {
        self.owners.as_slice()
    }
}

/// Takes the marks of these affinities away.
fn unmark(marks: &mut [bool], owners: &[u16])
    requires { AreMarked marks.old owners.now }
    ensures { AreMarked marks.new [] }
{
    for at in 0..owners.len() {
        marks[owners[at] as usize] = false;
    }
}
