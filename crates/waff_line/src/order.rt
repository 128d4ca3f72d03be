//! The order in which messages that exclude each other are served.

ghost use Rattle.std.specs.Prelude.{◌≡◌, ◌≤◌, ℕ, List, [], ◌∷◌, ◌++◌, length, false, true, IfOk, OnOk};
ghost use Rattle.waff_model.specs.Numbers.{IsAmongFirst};
ghost use Rattle.waff_model.specs.Tree.{Node};
ghost use Rattle.waff_model.specs.Versions.{has_clients};
ghost use Rattle.waff_model.specs.declared.limits.TheConstants.{MAX_MESSAGES};
ghost use Rattle.waff_assign.specs.Held.{Held, IsHeldWithin};
ghost use Rattle.waff_assign.specs.Order.{held_of};
ghost use Rattle.waff_order.specs.Joined.{HaveJoined, IsJoined};
ghost use Rattle.waff_line.specs.Entered.{JoinsLast, needs_at};
ghost use Rattle.waff_line.specs.Lined.{served_at};

use std::alloc::{AllocError, Global};
use waff_assign::{Assigned, Case};
use waff_model::Span;
use waff_model::limits::MAX_MESSAGES;
use waff_order::Joining;

/// The messages that have joined, in the order in which they are served, with the needs of each by their
/// places, from 1.
#[derive(Drop)]
pub(crate) struct Order<'a> {
    pub spans: &'a [Span],
    pub joining: Joining,
    pub messages: Vec<u32>,
}

impl<'a> Order<'a> {
    /// No message of the case has joined, and there is room for all of them.
    pub fn none(alloc: Global, case: &Case<'a>) -> Result<Self, AllocError>
        ensures messages { IfOk result (λ order. order.messages.items ≡ []) }
        ensures joined { IfOk result (λ order.
            HaveJoined case.now.tree.now order.spans.now [] order.joining) }
    {
        let count = case.assigned.len() as usize;
        Ok(Order {
            spans: case.tree.spans(),
            joining: Joining::none(alloc, case.tree, count)?,
            messages: Vec::with_capacity(alloc, count)?,
        })
    }

    /// Message `m` of these joins as the last one. After an error the order is good for nothing.
    pub fn join(&mut self, assigned: &Assigned, m: u32) -> Result<(), AllocError>
        requires number { IsAmongFirst (length assigned.now) m }
        requires known { IsHeldWithin (length self.old.spans.now) (held_of assigned.now m) }
        requires joined { IsJoined self.old.spans.now self.old.joining }
        requires count { length self.old.joining.needs ≡ length self.old.messages.items }
        ensures spans { self.new.spans.now ≡ self.old.spans.now }
        ensures messages { OnOk result (self.new.messages.items ≡ self.old.messages.items ++ m ∷ []) }
        ensures joined { OnOk result ((tree : List Node) (held : List Held)
            → HaveJoined tree self.old.spans.now held self.old.joining
            → HaveJoined tree self.old.spans.now (held ++ held_of assigned.now m ∷ []) self.new.joining) }
        ensures listed { OnOk result ((list : List ℕ)
            × (self.new.joining.needs ≡ self.old.joining.needs ++ list ∷ [])) }
        ensures few { OnOk result (length self.new.messages.items ≤ MAX_MESSAGES) }
    {
        if self.messages.len() >= MAX_MESSAGES {
            return Err(AllocError);
        }
        self.joining.join(self.spans, assigned, m)?;
        self.messages.push(m)?;
        Ok(())
    }

    /// The message at this place, 0 where there is none.
    pub fn message(&self, place: u32) -> u32
        ensures { result ≡ served_at self.now.messages.items place }
    {
        let at = (place as usize).saturating_sub(1);
        if at >= self.messages.len() {
            return 0;
        }
        self.messages[at]
    }

    /// Message `m` of the case, whose issue has come, has its place: by issue it joins as the last one, by number it has
    /// joined before. After an error the order is good for nothing.
    pub fn place(&mut self, case: &Case<'a>, m: u32) -> Result<u32, AllocError>
        requires number { IsAmongFirst (length case.now.assigned.now) m }
        requires known { IsHeldWithin (length self.old.spans.now) (held_of case.now.assigned.now m) }
        requires joined { IsJoined self.old.spans.now self.old.joining }
        requires count { length self.old.joining.needs ≡ length self.old.messages.items }
        ensures spans { self.new.spans.now ≡ self.old.spans.now }
        ensures by_issue { has_clients case.now.trace.now.version ≡ true
            → IfOk result (JoinsLast self.old m (held_of case.now.assigned.now m) self.new) }
        ensures by_number { has_clients case.now.trace.now.version ≡ false
            → IfOk result (λ place. (place ≡ m) × (self.new ≡ self.old)) }
    {
        if !case.trace.version().has_clients() {
            return Ok(m);
        }
        self.join(case.assigned, m)?;
        Ok(self.messages.len() as u32)
    }

    /// Writes the needs of the message at this place to the list, by number.
    pub fn list_needs(&self, place: u32, list: &mut Vec<u32>) -> Result<(), AllocError>
        requires { IsAmongFirst (length self.now.joining.needs) place }
        ensures { OnOk result (list.new.items
            ≡ needs_at self.now.messages.items self.now.joining.needs place) }
    {
        list.clear();
        for need in self.joining.of(place) {
            list.push(self.message(*need))?;
        }
        Ok(())
    }
}
