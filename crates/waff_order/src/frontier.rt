//! The messages that a later one may need.

ghost use Rattle.std.specs.Prelude.{◌≡◌, ◌<◌, ◌≤◌, ◌++◌, max, length, replicate, option_map, IfOk, IfSome, OnOk};
ghost use Rattle.std.specs.Prelude.{slice_index, slice_set};
ghost use Rattle.waff_model.specs.Spans.{map_in, messages_in};
ghost use Rattle.waff_order.specs.Gathering.{latest_after, needs_in, opened_after, AreWithin};
ghost use Rattle.waff_order.specs.Runs.{chosen};

use std::alloc::{AllocError, Global};
use waff_model::spans::{Opened, Spread};
use waff_model::{AffinityId, Span};

/// The messages that are open, each at the place of its affinity, and the latest message at or above
/// each place.
#[derive(Drop)]
pub(crate) struct Frontier {
    pub opened: Opened,
    pub latest: Spread<u32>,
}

impl Frontier {
    /// No message, over so many places.
    pub fn none(alloc: Global, count: usize) -> Result<Self, AllocError>
        ensures opened { IfOk result (λ frontier. frontier.opened ≡ replicate count 0) }
        ensures latest { IfOk result (λ frontier. frontier.latest ≡ replicate count 0) }
    {
        let opened = Opened::none(alloc, count)?;
        let latest = Spread::none(alloc, count)?;
        Ok(Frontier { opened, latest })
    }

    /// Appends what message `m` needs at its affinity, if it has one, closes those that were open there, and notes
    /// `m` as open.
    pub fn add(
        &mut self,
        spans: &[Span],
        affinity: Option<AffinityId>,
        m: u32,
        needs: &mut Vec<u32>,
    ) -> Result<(), AllocError>
        requires nested { AreWithin spans.now (length self.old.opened) }
        requires affinity { IfSome affinity (λ a. a.0 < length spans.now) }
        requires count { length self.old.latest ≡ length self.old.opened }
        ensures needs { OnOk result (needs.new.items ≡ needs.old.items
            ++ needs_in spans.now self.old.opened self.old.latest (option_map (λ a. a.0) affinity)) }
        ensures opened { OnOk result
            (self.new.opened ≡ opened_after spans.now self.old.opened m (option_map (λ a. a.0) affinity)) }
        ensures latest { OnOk result
            (self.new.latest ≡ latest_after spans.now self.old.latest m (option_map (λ a. a.0) affinity)) }
    {
        match affinity {
            Some(affinity) => self.add_at(spans[affinity.0 as usize], m, needs),
            None => Ok(()),
        }
    }

    /// The same at the span of the affinity.
    fn add_at(&mut self, span: Span, m: u32, needs: &mut Vec<u32>) -> Result<(), AllocError>
        requires forward { span.first < span.end }
        requires within { span.end ≤ length self.old.opened }
        requires noted { span.end ≤ length self.old.latest }
        ensures needs { OnOk result (needs.new.items ≡ needs.old.items
            ++ chosen (messages_in self.old.opened span.first span.end) (slice_index self.old.latest span.first)) }
        ensures opened { OnOk result (self.new.opened
            ≡ slice_set (map_in (λ n. 0) self.old.opened span.first span.end) span.first m) }
        ensures latest { OnOk result
            (self.new.latest ≡ map_in (λ n. max n m) self.old.latest span.first span.end) }
    {
        let (first, end) = (span.first as usize, span.end as usize);
        let before = needs.len();
        self.opened.take(first, end, needs)?;
        let above = self.latest.at(first);
        if needs.len() == before && above > 0 {
            needs.push(above)?;
        }
        self.opened.put(first, m);
        self.latest.note(first, end, m);
        Ok(())
    }
}
