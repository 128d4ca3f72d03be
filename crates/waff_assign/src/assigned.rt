//! What the messages of a trace hold.

ghost use Rattle.std.specs.Prelude.{◌≡◌, ◌<◌, ◌≤◌, ◌↔◌, [], ℕ, length, map, option_map, slice_index};
ghost use Rattle.std.specs.Prelude.{unwrap_or, IfOk, IsTrue};
ghost use Rattle.waff_model.specs.Numbers.{IsAmongFirst};
ghost use Rattle.waff_assign.specs.Held.{AreLocksBelow, AreUnlocked};
ghost use Rattle.waff_assign.specs.Order.{affinity_of, held_of, helds_of, number_or};
ghost use Rattle.waff_assign.specs.Order.{AreEnds, start_at, uses_at};

use crate::held::LockUse;
use std::alloc::{AllocError, Global};
use std::marker::Model;
use waff_model::AffinityId;
use waff_model::limits::MAX_MESSAGES;

/// What each message of a trace holds, in the order of arrival: its affinity, but where all its cells have locks,
/// and uses of the locks of those that have.
pub struct Assigned {
    affinities: Vec<Option<AffinityId>>,
    /// The uses of all messages, one message after another, and where those of each end: no ends where none of them
    /// uses a lock.
    uses: Vec<LockUse>,
    ends: Vec<usize>,
    lock_count: u32,
}

impl Model for Assigned {
    ghost use Rattle.std.specs.Prelude.{◌≤◌, List, length};
    ghost use Rattle.waff_assign.specs.Held.{AreLocksBelow, Held};
    ghost use Rattle.waff_assign.specs.Order.{AreEnds, helds_of};
    ghost use Rattle.waff_model.specs.declared.limits.TheConstants.{MAX_MESSAGES};

    ghost Value = { List Held };

    ghost view = { λ a. helds_of a.affinities.items a.uses.items a.ends.items };

    ghost invariant = { λ a. (length a.affinities.items ≤ MAX_MESSAGES)
        × AreEnds (length a.affinities.items) a.uses.items a.ends.items
        × AreLocksBelow a.lock_count (helds_of a.affinities.items a.uses.items a.ends.items) };
}

// Written out: a derived drop is proved again in each crate that lets go of the value.
impl Drop for Assigned {
    fn drop(self) {
        let Assigned {
            affinities,
            uses,
            ends,
            lock_count: _,
        } = self;
        drop(affinities);
        drop(uses);
        drop(ends);
    }
}

impl Assigned {
    ghost use Rattle.waff_model.specs.declared.limits.TheConstants.{MAX_MESSAGES};

    /// What messages of these affinities hold, with these uses of locks, whose numbers are below the count.
    pub(crate) fn new(
        affinities: Vec<Option<AffinityId>>,
        uses: Vec<LockUse>,
        ends: Vec<usize>,
        lock_count: u32,
    ) -> Self
        requires few { length affinities.items ≤ MAX_MESSAGES }
        requires ends { AreEnds (length affinities.items) uses.items ends.items }
        requires below { AreLocksBelow lock_count (helds_of affinities.items uses.items ends.items) }
        ensures { result ≡ helds_of affinities.items uses.items ends.items }
    {
        Assigned {
            affinities,
            uses,
            ends,
            lock_count,
        }
    }

    /// What messages of these affinities hold that use no lock.
    pub(crate) fn without_locks(alloc: Global, affinities: Vec<Option<AffinityId>>) -> Self
        requires few { length affinities.items ≤ MAX_MESSAGES }
        ensures { result ≡ helds_of affinities.items [] [] }
    {
        Assigned::new(affinities, Vec::new(alloc), Vec::new(alloc), 0)
    }

    /// How many messages there are.
    pub fn len(&self) -> u32
        ensures count { result ≡ length self.now }
        ensures few { length self.now ≤ MAX_MESSAGES }
    {
        self.affinities.len() as u32
    }

    /// The affinity of message `n`, from 1, if it has one.
    pub fn affinity(&self, n: u32) -> Option<AffinityId>
        requires number { IsAmongFirst (length self.now) n }
        ensures { option_map (λ a. a.0) result ≡ affinity_of self.now n }
    {
        self.affinities[n as usize - 1]
    }

    /// The uses of locks by message `n`, from 1, by the numbers of the locks.
    pub fn uses(&self, n: u32) -> &[LockUse]
        requires number { IsAmongFirst (length self.now) n }
        ensures { result.now ≡ (held_of self.now n).uses }
    {
        if self.ends.is_empty() {
            return &[];
        }
        uses_at(&self.uses, &self.ends, n as usize - 1)
    }

    /// A number above those of all locks that are used.
    pub fn lock_count(&self) -> u32
        ensures { AreLocksBelow result self.now }
    {
        self.lock_count
    }

    /// Whether no message uses a lock.
    pub fn is_unlocked(&self) -> bool
        ensures { IsTrue result ↔ AreUnlocked self.now }
    {
        self.uses.is_empty()
    }

    /// The number of the affinity of message `n`, from 1, and this one where it has none.
    pub fn number(&self, n: u32, none: u32) -> u32
        requires number { IsAmongFirst (length self.now) n }
        ensures { result ≡ number_or none (held_of self.now n) }
    {
        number_or(self.affinity(n), none)
    }

    /// The numbers of all affinities, in the order of arrival, and this one for a message that has none.
    pub fn numbers(&self, alloc: Global, none: u32) -> Result<Vec<u32>, AllocError>
        ensures { IfOk result (λ numbers. numbers.items ≡ map (number_or none) self.now) }
    {
        numbers_or(alloc, &self.affinities, none)
    }
}

/// The number of the affinity, and this one where there is none.
fn number_or(affinity: Option<AffinityId>, none: u32) -> u32
    ensures { result ≡ unwrap_or (option_map (λ a. a.0) affinity) none }
{
    match affinity {
        Some(affinity) => u32::from(affinity.0),
        None => none,
    }
}

/// The numbers of the affinities, and this one where there is none.
fn numbers_or(
    alloc: Global,
    affinities: &[Option<AffinityId>],
    none: u32,
) -> Result<Vec<u32>, AllocError>
    ensures { IfOk result (λ numbers. numbers.items
        ≡ map (λ affinity. unwrap_or (option_map (λ a. a.0) affinity) none) affinities.now) }
{
    affinities
        .iter()
        .map(|affinity| number_or(*affinity, none))
        .collect(alloc)
}

/// The uses of locks by the message at this place.
pub(crate) fn uses_at<'a>(uses: &'a [LockUse], ends: &[usize], index: usize) -> &'a [LockUse]
    requires listed { index < length ends.now }
    requires rising { start_at ends.now index ≤ slice_index ends.now index }
    requires within { slice_index ends.now index ≤ length uses.now }
    ensures { result.now ≡ uses_at uses.now ends.now index }
{
    let start = if index == 0 { 0 } else { ends[index - 1] };
    &uses[start..ends[index]]
}
