//! The needs of messages that join one after another.

ghost use Rattle.std.specs.Prelude.{◌≡◌, ◌<◌, ◌≤◌, [], ◌∷◌, ◌++◌, List, ℕ, length, IfOk, OnErr, OnOk};
ghost use Rattle.waff_model.specs.Numbers.{IsAmongFirst};
ghost use Rattle.waff_model.specs.Preorder.{AreNested};
ghost use Rattle.waff_model.specs.Tree.{Node};
ghost use Rattle.waff_model.specs.declared.preorder.Span.{Span};
ghost use Rattle.waff_model.specs.declared.limits.TheConstants.{MAX_MESSAGES};
ghost use Rattle.waff_assign.specs.Order.{held_of};
ghost use Rattle.waff_order.specs.Joined.{HaveJoined, IsJoined};
ghost use Rattle.waff_order.specs.Needs.{needs_of, AreLists};
ghost use Rattle.waff_assign.specs.Held.{Held, IsHeldWithin};

use crate::frontier::Frontier;
use crate::lists::{Lists, Needs};
use crate::takers::Takers;
use std::alloc::{AllocError, Global};
use std::marker::Model;
use waff_assign::{Assigned, is_root};
use waff_model::{Span, Tree};

/// The messages that have joined, numbered from 1 in the order of joining, with the needs of each
/// among those that joined before it.
#[derive(Drop)]
pub struct Joining {
    frontier: Frontier,
    takers: Takers,
    lists: Lists<u32>,
    /// The needs of the message that joins.
    needs: Vec<u32>,
}

impl Model for Joining {
    ghost use Rattle.waff_order.specs.Joined.{Joined};

    ghost Value = { Joined };

    ghost view = { λ j. record {
      needs = j.lists;
      opened = j.frontier.opened;
      latest = j.frontier.latest;
      locks = j.takers.locks.items;
      chain = j.takers.chain.items;
      touched = j.takers.touched.items;
    } };
}

impl Joining {
    /// No message has joined yet, and there is room for `count` of them.
    pub fn none(alloc: Global, tree: &Tree, count: usize) -> Result<Self, AllocError>
        ensures joined { IfOk result (λ joining. (spans : List Span)
            → AreNested tree.now spans → HaveJoined tree.now spans [] joining) }
    {
        Ok(Joining {
            frontier: Frontier::none(alloc, tree.len() as usize)?,
            takers: Takers::none(alloc),
            lists: Lists::with_capacity(alloc, count)?,
            needs: Vec::new(alloc),
        })
    }

    /// How many messages have joined.
    pub fn len(&self) -> usize
        ensures { result ≡ length self.now.needs }
    {
        self.lists.len()
    }

    /// The needs of the message that joined as the `n`th, from 1, in rising order.
    pub fn of(&self, n: u32) -> &[u32]
        requires number { IsAmongFirst (length self.now.needs) n }
        ensures { result.now ≡ needs_of self.now.needs n }
    {
        self.lists.of(n)
    }

    /// Message `n` of these, from 1, joins, and its needs are listed. Where memory is refused the needs of those
    /// that joined before stay.
    pub fn join(&mut self, spans: &[Span], assigned: &Assigned, n: u32) -> Result<(), AllocError>
        requires number { IsAmongFirst (length assigned.now) n }
        requires known { IsHeldWithin (length spans.now) (held_of assigned.now n) }
        requires joined { IsJoined spans.now self.old }
        requires room { length self.old.needs < MAX_MESSAGES }
        ensures joined { OnOk result ((tree : List Node) (held : List Held)
            → HaveJoined tree spans.now held self.old
            → HaveJoined tree spans.now (held ++ held_of assigned.now n ∷ []) self.new) }
        ensures listed { OnOk result
            ((list : List ℕ) × (self.new.needs ≡ self.old.needs ++ list ∷ [])) }
        ensures unchanged { OnErr result (self.new.needs ≡ self.old.needs) }
    {
        let m = self.lists.len() as u32 + 1;
        let (affinity, uses) = (assigned.affinity(n), assigned.uses(n));
        let (root, is_root) = (spans[0].first as usize, is_root(affinity));
        let latest = &self.frontier.latest;
        self.needs.clear();
        self.takers
            .take(latest, root, uses, m, is_root, &mut self.needs)?;
        self.frontier.add(spans, affinity, m, &mut self.needs)?;
        self.needs.sort_unstable();
        self.needs.dedup();
        if self.needs.len() > u32::MAX as usize - self.lists.total() {
            return Err(AllocError);
        }
        self.lists.push(self.needs.as_slice())?;
        Ok(())
    }

    /// The needs of all messages that have joined.
    pub fn needs(self) -> Needs
        requires { AreLists self.needs }
        ensures { result ≡ self.needs }
    {
        let Joining {
            frontier,
            takers,
            lists,
            needs,
        } = self;
        drop(frontier);
        drop(takers);
        drop(needs);
        Needs::new(lists)
    }
}
