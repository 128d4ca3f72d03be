//! What messages hold, gathered one message after another.

ghost use Rattle.std.specs.Prelude.{◌≡◌, ◌≤◌, ◌++◌, ◌∷◌, [], length, option_map, IfOk, OnOk};
ghost use Rattle.waff_assign.specs.Held.{AreLocksBelow};
ghost use Rattle.waff_model.specs.declared.limits.TheConstants.{MAX_MESSAGES};

use crate::Assigned;
use crate::assigned::uses_at;
use crate::held::LockUse;
use std::alloc::{AllocError, Global};
use std::marker::Model;
use waff_model::AffinityId;

/// What messages hold, so far, in the order of arrival.
pub(crate) struct Gathered {
    affinities: Vec<Option<AffinityId>>,
    uses: Vec<LockUse>,
    ends: Vec<usize>,
}

impl Model for Gathered {
    ghost use Rattle.std.specs.Prelude.{◌≡◌, List, length};
    ghost use Rattle.waff_assign.specs.Held.{Held};
    ghost use Rattle.waff_assign.specs.Order.{AreEnds, helds_of};

    ghost Value = { List Held };

    ghost view = { λ g. helds_of g.affinities.items g.uses.items g.ends.items };

    ghost invariant = { λ g. AreEnds (length g.affinities.items) g.uses.items g.ends.items
        × (length g.ends.items ≡ length g.affinities.items) };
}

impl Drop for Gathered {
    fn drop(self) {
        let Gathered {
            affinities,
            uses,
            ends,
        } = self;
        drop(affinities);
        drop(uses);
        drop(ends);
    }
}

impl Gathered {
    /// No message, with room for so many.
    pub(crate) fn with_capacity(alloc: Global, room: usize) -> Result<Self, AllocError>
        ensures { IfOk result (λ gathered. gathered ≡ []) }
    {
        let affinities = Vec::with_capacity(alloc, room)?;
        let ends = Vec::with_capacity(alloc, room)?;
        Ok(Gathered {
            affinities,
            uses: Vec::new(alloc),
            ends,
        })
    }

    /// One message more, of this affinity, if it has one, and these uses of locks.
    pub(crate) fn push(
        &mut self,
        affinity: Option<AffinityId>,
        uses: &[LockUse],
    ) -> Result<(), AllocError>
        ensures { OnOk result (self.new ≡ self.old ++ record {
          affinity = option_map (λ a. a.0) affinity;
          uses = uses.now;
        } ∷ []) }
    {
        self.affinities.reserve(1)?;
        self.ends.reserve(1)?;
        self.uses.extend_from_slice(uses)?;
        self.affinities.push_reserved(affinity);
        self.ends.push_reserved(self.uses.len());
        Ok(())
    }

    /// These messages more.
    pub(crate) fn append(&mut self, more: Gathered) -> Result<(), AllocError>
        ensures { OnOk result (self.new ≡ self.old ++ more) }
    {
        let Gathered {
            affinities,
            uses,
            ends,
        } = more;
        for k in 0..affinities.len() {
            self.push(affinities[k], uses_at(&uses, &ends, k))?;
        }
        Ok(())
    }

    /// What all messages hold, with uses of locks whose numbers are below the count.
    pub(crate) fn assigned(self, lock_count: u32) -> Assigned
        requires few { length self ≤ MAX_MESSAGES }
        requires below { AreLocksBelow lock_count self }
        ensures { result ≡ self }
    {
        let Gathered {
            affinities,
            uses,
            ends,
        } = self;
        Assigned::new(affinities, uses, ends, lock_count)
    }
}
