//! A table of the latest of the messages that are noted: by the spans of their affinities in preorder, and by the locks
//! that they use.

ghost use Rattle.std.specs.Prelude.{◌≡◌, ℕ, ◌<◌, ◌≤◌, List, [], ◌∷◌, ◌++◌, length, option_map, IfOk, IfSome};
ghost use Rattle.waff_assign.specs.Held.{AreKnown, Held};
ghost use Rattle.waff_model.specs.Numbers.{IsAmongFirst};
ghost use Rattle.waff_plan.specs.Table.{IsLatestByTree, IsLatestExcluding, IsTable};

use crate::latest::{Found, Latest};
use crate::lock_table::LockTable;
use crate::place_table::PlaceTable;
use std::alloc::{AllocError, Global};
use std::marker::Model;
use waff_assign::{Assigned, is_root};
use waff_model::spans::Later;
use waff_model::{AffinityId, Span, Tree};

/// The messages that are noted, of those that hold this under the tree.
#[derive(Drop)]
pub struct Table<'a> {
    tree: &'a Tree,
    spans: &'a [Span],
    assigned: &'a Assigned,
    places: PlaceTable,
    locks: LockTable,
}

impl<'a> Model for Table<'a> {
    ghost use Rattle.waff_plan.specs.Table.{LatestTable};
    ghost use Rattle.waff_plan.specs.TableFit.{Fits};

    ghost Value = { LatestTable };

    ghost view = { λ t. record {
      tree = t.tree.now;
      spans = t.spans.now;
      assigned = t.assigned.now;
      places = t.places;
      locks = t.locks;
    } };

    ghost invariant = { λ t. Fits (record {
      tree = t.tree.now;
      spans = t.spans.now;
      assigned = t.assigned.now;
      places = t.places;
      locks = t.locks;
    }) };
}

impl<'a> Table<'a> {
    /// The table of no message.
    pub fn new(alloc: Global, tree: &'a Tree, assigned: &'a Assigned) -> Result<Self, AllocError>
        requires known { AreKnown tree.now assigned.now }
        ensures tree { IfOk result (λ table. table.tree ≡ tree.entry.now) }
        ensures assigned { IfOk result (λ table. table.assigned ≡ assigned.entry.now) }
        ensures table { IfOk result (λ table. (finish : ℕ → ℕ) → IsTable finish [] table) }
    {
        // Tells that the messages are few.
        let _ = assigned.len();
        let count = tree.len() as usize;
        let lock_count = assigned.lock_count() as usize;
        Ok(Table {
            tree,
            spans: tree.spans(),
            assigned,
            places: PlaceTable::new(alloc, count)?,
            locks: LockTable::new(alloc, lock_count)?,
        })
    }

    /// The latest message that excludes message `m`, from 1.
    pub fn latest(&self, m: u32) -> Option<Latest>
        requires number { IsAmongFirst (length self.now.assigned) m }
        ensures { (finish : ℕ → ℕ) (noted : List ℕ) → IsTable finish noted self.now
            → IsLatestExcluding self.now.tree self.now.assigned finish noted m result }
    {
        let (affinity, uses) = (self.assigned.affinity(m), self.assigned.uses(m));
        let by_tree = self.latest_by_tree(affinity);
        if is_root(affinity) {
            return by_tree.later(self.locks.some).message();
        }
        if uses.is_empty() {
            return by_tree.message();
        }
        let spans = self.spans;
        let in_root = self.places.latest_over(spans[0].first as usize);
        by_tree
            .later(in_root)
            .later(self.locks.latest(uses))
            .message()
    }

    /// The latest message whose affinity excludes this one, where there is one.
    fn latest_by_tree(&self, affinity: Option<AffinityId>) -> Found
        requires within { IfSome affinity (λ a. a.0 < length self.now.tree) }
        ensures { (finish : ℕ → ℕ) (noted : List ℕ) → IsTable finish noted self.now
            → (held : Held) → held.affinity ≡ option_map (λ a. a.0) affinity
            → IsLatestByTree self.now.tree self.now.assigned finish noted held result }
    {
        let spans = self.spans;
        match affinity {
            Some(affinity) => self.places.latest(spans[affinity.0 as usize]),
            None => Found::none(),
        }
    }

    /// Notes a message.
    pub fn note(&mut self, message: Latest)
        requires number { IsAmongFirst (length self.old.assigned) message.number }
        ensures tree { self.new.tree ≡ self.old.tree }
        ensures assigned { self.new.assigned ≡ self.old.assigned }
        ensures table { (finish : ℕ → ℕ) (noted : List ℕ) → IsTable finish noted self.old
            → finish message.number ≡ message.finish
            → IsTable finish (noted ++ message.number ∷ []) self.new }
    {
        let (affinity, uses) = (
            self.assigned.affinity(message.number),
            self.assigned.uses(message.number),
        );
        let spans = self.spans;
        self.locks.note(uses, message);
        if let Some(affinity) = affinity {
            self.places.note(spans[affinity.0 as usize], message);
        }
    }
}
