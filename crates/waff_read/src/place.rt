//! The places of the records of a trace.

ghost use Rattle.std.specs.Prelude.{◌≡◌, ◌+◌, ◌-◌, ◌≤◌, length};
ghost use Rattle.waff_model.specs.declared.limits.TheConstants.{MAX_ALL_OPS, MAX_AWAITED};
ghost use Rattle.waff_model.specs.declared.limits.TheConstants.{MAX_MESSAGES};
ghost use Rattle.waff_read.specs.Places as places;

use waff_model::limits::{MAX_ALL_OPS, MAX_AWAITED};
use waff_model::{Message, Version};

/// The number of the record of the first message, behind the header.
pub(crate) const FIRST: u64 = 2;

/// The place of a message's record: its number, the header's being 1, how many operations the
/// messages before it have, and how many messages their lists.
#[derive(Clone, Copy)]
pub(crate) struct Place {
    pub(crate) at: u64,
    pub(crate) ops: usize,
    pub(crate) awaited: usize,
}

impl Place {
    /// The place of the record of this number, before which nothing counts.
    pub(crate) fn at(at: u64) -> Place
        ensures { result ≡ places.place_at at }
    {
        Place {
            at,
            ops: 0,
            awaited: 0,
        }
    }

    /// The place behind the record of a message that is not one too many, and has neither too many
    /// operations nor too long a list.
    pub(crate) fn next(self, message: &Message) -> Place
        requires at { self.at ≤ MAX_MESSAGES + 1 }
        requires ops { self.ops + length message.now.ops ≤ MAX_ALL_OPS }
        requires awaited { self.awaited + length message.now.after ≤ MAX_AWAITED }
        ensures { result ≡ places.next_place self message.now }
    {
        Place {
            at: self.at + 1,
            ops: self.ops + message.ops.len(),
            awaited: self.awaited + message.after.as_slice().len(),
        }
    }

    /// How many operations the message may have.
    pub(crate) fn most_ops(self, version: Version) -> usize
        ensures { result ≡ places.most_ops version self }
    {
        let most = version.max_ops();
        let room = MAX_ALL_OPS.saturating_sub(self.ops);
        if most <= room { most } else { room }
    }

    /// The number of the message: message n is record n + 1.
    pub(crate) fn number(self) -> u32
        requires { self.at ≤ MAX_MESSAGES + 1 }
        ensures { result ≡ self.at - 1 }
    {
        self.at.saturating_sub(1) as u32
    }

    /// How many messages the message may await by its list.
    pub(crate) fn most_awaited(self) -> usize
        ensures { result ≡ places.most_awaited self }
    {
        MAX_AWAITED.saturating_sub(self.awaited)
    }
}
