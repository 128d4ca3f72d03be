//! A table of the latest of the messages that are noted, by the spans of their affinities in preorder.

ghost use Rattle.std.specs.Prelude.{◌≡◌, ℕ, ◌<◌, ◌≤◌, List, [], ◌∷◌, ◌++◌, length, Contains, IfOk};
ghost use Rattle.waff_model.specs.declared.preorder.Span.{Span};
ghost use Rattle.waff_assign.specs.Held.{Held};
ghost use Rattle.waff_plan.specs.Latest.{IsFound};
ghost use Rattle.waff_plan.specs.Table.{IsLatestMeeting, IsPlaced, IsPlaceTable, StandsOver};

use crate::last::{Placed, later_placed};
use crate::latest::{Found, Latest};
use std::alloc::{AllocError, Global};
use std::marker::Model;
use waff_model::Span;
use waff_model::limits::MAX_MESSAGES;
use waff_model::spans::{Later, Spread, Standing};

/// The messages that are noted. One whose affinity is at or above another's is noted at the first place of
/// that one, and one whose affinity is at or below it stands at a place of its span.
#[derive(Drop)]
pub(crate) struct PlaceTable {
    own: Standing<Found>,
    over: Spread<Found>,
    /// The latest of all, which often excludes the next message.
    last: Option<Placed>,
}

impl Model for PlaceTable {
    ghost use Rattle.std.specs.Prelude.{◌≡◌, ◌≤◌, length, IfSome};
    ghost use Rattle.waff_model.specs.declared.limits.TheConstants.{MAX_MESSAGES};
    ghost use Rattle.waff_plan.specs.Table.{PlaceTable};

    ghost Value = { PlaceTable };

    ghost view = { λ t. record { own = t.own; over = t.over; last = t.last } };

    ghost invariant = { λ t. (length t.over ≡ length t.own)
        × IfSome t.last (λ last. last.message.number ≤ MAX_MESSAGES) };
}

impl PlaceTable {
    /// The table of no message, for these many places.
    pub fn new(alloc: Global, count: usize) -> Result<Self, AllocError>
        ensures count { IfOk result (λ table. length table.own ≡ count) }
        ensures table { IfOk result (λ table.
            (spans : List Span) (assigned : List Held) (finish : ℕ → ℕ)
            → IsPlaceTable spans assigned finish [] table) }
    {
        Ok(PlaceTable {
            own: Standing::none(alloc, count)?,
            over: Spread::none(alloc, count)?,
            last: None,
        })
    }

    /// The latest message whose affinity excludes the one that has this span.
    pub fn latest(&self, span: Span) -> Found
        requires forward { span.first < span.end }
        requires within { span.end ≤ length self.now.own }
        ensures { (spans : List Span) (assigned : List Held) (finish : ℕ → ℕ) (noted : List ℕ)
            → IsPlaceTable spans assigned finish noted self.now
            → IsLatestMeeting spans assigned finish noted span result }
    {
        if let Some(last) = self.last {
            if last.meets(span) {
                return Found::one(last.message);
            }
        }
        self.latest_by_spans(span)
    }

    /// The same, by what is noted at its first place and what stands in its span.
    fn latest_by_spans(&self, span: Span) -> Found
        requires forward { span.first < span.end }
        requires within { span.end ≤ length self.now.own }
        ensures { (spans : List Span) (assigned : List Held) (finish : ℕ → ℕ) (noted : List ℕ)
            → IsPlaceTable spans assigned finish noted self.now
            → IsLatestMeeting spans assigned finish noted span result }
    {
        let (first, end) = (span.first as usize, span.end as usize);
        let above = self.over.at(first);
        let below = self.own.latest(first, end);
        above.later(below)
    }

    /// The latest message whose affinity is at or above the one at this place.
    pub fn latest_over(&self, place: usize) -> Found
        requires within { place < length self.now.own }
        ensures { (spans : List Span) (assigned : List Held) (finish : ℕ → ℕ) (noted : List ℕ)
            → IsPlaceTable spans assigned finish noted self.now
            → IsFound (λ i. Contains noted i × StandsOver spans assigned i place) finish result }
    {
        self.over.at(place)
    }

    /// Notes a message, whose affinity has this span.
    pub fn note(&mut self, span: Span, message: Latest)
        requires forward { span.first < span.end }
        requires within { span.end ≤ length self.old.own }
        requires few { message.number ≤ MAX_MESSAGES }
        ensures count { length self.new.own ≡ length self.old.own }
        ensures table { (spans : List Span) (assigned : List Held) (finish : ℕ → ℕ) (noted : List ℕ)
            → IsPlaceTable spans assigned finish noted self.old
            → IsPlaced spans assigned message.number span
            → finish message.number ≡ message.finish
            → IsPlaceTable spans assigned finish (noted ++ message.number ∷ []) self.new }
    {
        let (first, end) = (span.first as usize, span.end as usize);
        self.own.put(first, Found::one(message));
        self.over.note(first, end, Found::one(message));
        self.last = Some(later_placed(self.last, Placed { message, span }));
    }
}
