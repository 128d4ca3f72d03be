//! The latest of all messages so far that have an affinity, with its span.

ghost use Rattle.std.specs.Prelude.{◌≡◌, ◌↔◌, ◌⊎◌, Some, IsTrue, option_map};
ghost use Rattle.waff_model.specs.Preorder.{Spans};
ghost use Rattle.waff_plan.specs.Latest.{is_later, later_of};

use crate::latest::{Latest, is_later};
use waff_model::Span;

/// A message with its finish and the span of its affinity.
#[derive(Clone, Copy)]
pub(crate) struct Placed {
    pub message: Latest,
    pub span: Span,
}

impl Placed {
    /// Whether the message's affinity excludes the one that has this span.
    pub fn meets(&self, span: Span) -> bool
        ensures { IsTrue result ↔ Spans self.now.span span ⊎ Spans span self.now.span }
    {
        self.span.spans(&span) || span.spans(&self.span)
    }
}

/// The later of the two.
pub(crate) fn later_placed(one: Option<Placed>, other: Placed) -> Placed
    ensures later { Some result.message
        ≡ later_of (option_map (λ last. last.message) one) (Some other.message) }
    ensures one_of_both { (result ≡ other) ⊎ (one ≡ Some result) }
{
    match one {
        Some(last) if !is_later(last.message, other.message) => last,
        _ => other,
    }
}
