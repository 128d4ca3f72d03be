//! The messages that have been issued, and the needs of each.

ghost use Rattle.std.specs.Prelude.{◌≡◌, ◌<◌, ℕ, List, [], ◌∷◌, ◌++◌, length, map, IfOk, OnOk};
ghost use Rattle.waff_assign.specs.Order.{held_of};
ghost use Rattle.waff_model.specs.Numbers.{IsAmongFirst};
ghost use Rattle.waff_model.specs.Tree.{Node};
ghost use Rattle.waff_model.specs.declared.limits.TheConstants.{MAX_MESSAGES};
ghost use Rattle.waff_order.specs.Joined.{HaveJoined, IsJoined};
ghost use Rattle.waff_order.specs.Needs.{needs_of};
ghost use Rattle.waff_list.specs.Issuing.{served_at};
ghost use Rattle.waff_assign.specs.Held.{Held};

use std::alloc::{AllocError, Global};
use waff_assign::Case;
use waff_model::Span;
use waff_order::Joining;

/// The messages that have been issued.
#[derive(Drop)]
pub(crate) struct Issued<'a> {
    pub case: Case<'a>,
    pub spans: &'a [Span],
    /// The needs of each, by their places in the order of issue.
    pub joining: Joining,
    /// The messages, in the order of issue.
    pub messages: Vec<u32>,
    /// The needs of the last one, by number.
    needs: Vec<u32>,
    ghost spans_count: { length spans.now ≡ length case.tree.now },
}

impl<'a> Issued<'a> {
    /// No message of the case has been issued yet.
    pub fn none(alloc: Global, case: Case<'a>) -> Result<Self, AllocError>
        ensures case { IfOk result (λ issued. issued.case ≡ case.entry) }
        ensures messages { IfOk result (λ issued. issued.messages.items ≡ []) }
        ensures joined { IfOk result (λ issued.
            HaveJoined case.entry.tree.now issued.spans.now [] issued.joining) }
    {
        let count = case.trace.len() as usize;
        Ok(Issued {
            case,
            spans: case.tree.spans(),
            joining: Joining::none(alloc, case.tree, count)?,
            messages: Vec::with_capacity(alloc, count)?,
            needs: Vec::new(alloc),
        })
    }

    /// Message `m`, the next in the order of issue, joins the others.
    pub fn join(&mut self, m: u32) -> Result<(), AllocError>
        requires number { IsAmongFirst (length self.old.case.assigned.now) m }
        requires joined { IsJoined self.old.spans.now self.old.joining }
        requires count { length self.old.joining.needs ≡ length self.old.messages.items }
        requires room { length self.old.joining.needs < MAX_MESSAGES }
        ensures case { OnOk result (self.new.case ≡ self.old.case) }
        ensures spans { OnOk result (self.new.spans ≡ self.old.spans) }
        ensures messages { OnOk result (self.new.messages.items
            ≡ self.old.messages.items ++ m ∷ []) }
        ensures joined { OnOk result ((tree : List Node) (assigned : List Held)
            → HaveJoined tree self.old.spans.now assigned self.old.joining
            → HaveJoined tree self.old.spans.now
            (assigned ++ held_of self.old.case.assigned.now m ∷ []) self.new.joining) }
        ensures listed { OnOk result ((list : List ℕ)
            × (self.new.joining.needs ≡ self.old.joining.needs ++ list ∷ [])) }
        ensures needs { OnOk result (self.new.needs.items ≡ map (served_at self.new.messages.items)
            (needs_of self.new.joining.needs (length self.new.messages.items))) }
    {
        self.joining.join(self.spans, self.case.assigned, m)?;
        self.messages.push(m)?;
        self.needs.clear();
        for place in self.joining.of(self.messages.len() as u32) {
            self.needs.push(self.messages[*place as usize - 1])?;
        }
        Ok(())
    }

    /// The needs of the message that joined last, by number.
    pub fn needs(&self) -> &[u32]
        ensures { result.now ≡ self.now.needs.items }
    {
        self.needs.as_slice()
    }
}
