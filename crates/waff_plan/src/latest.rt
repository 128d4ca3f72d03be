//! The latest of some messages.

ghost use Rattle.std.specs.Prelude.{◌≡◌, ◌≤◌, Some};
ghost use Rattle.waff_plan.specs.Latest.{is_later, latest_order};
ghost use Rattle.waff_plan.specs.LatestLaws.{latest_laws};

use std::marker::Model;
use waff_model::limits::MAX_MESSAGES;
use waff_model::spans::Later;

/// A message with its finish.
#[derive(Clone, Copy)]
pub struct Latest {
    pub finish: u64,
    pub number: u32,
}

/// Whether the other one finishes later, or at the same tick with a lower number.
pub(crate) fn is_later(one: Latest, other: Latest) -> bool
    ensures { result ≡ is_later one other }
{
    one.finish < other.finish || (one.finish == other.finish && other.number < one.number)
}

/// The latest of some messages, where there is one. All messages are later than the one that stands
/// for none, so that two are compared without looking whether they are there.
#[derive(Clone, Copy)]
pub(crate) struct Found {
    message: Latest,
}

impl Model for Found {
    ghost use Rattle.std.specs.Prelude.{Option};
    ghost use Rattle.std.proofs.Common.{ap};
    ghost use Rattle.waff_plan.specs.declared.latest.Latest.{Latest};
    ghost use Rattle.waff_plan.specs.Found.{some_of, kept_for, IsKept};

    ghost Value = { Option Latest };

    ghost view = { λ f. some_of f.message };

    ghost invariant = { λ f. IsKept f.message };

    ghost inverse = { λ found. record { message = kept_for found } };

    ghost inverse_ok = { λ f kept. ap (λ m. record { message = m }) kept };
}

impl Found {
    /// The latest of one message.
    pub fn one(message: Latest) -> Found
        requires { message.number ≤ MAX_MESSAGES }
        ensures { result ≡ Some message }
    {
        Found { message }
    }

    /// The message, where there is one.
    pub fn message(self) -> Option<Latest>
        ensures { result ≡ self }
    {
        if self.message.number == u32::MAX {
            None
        } else {
            Some(self.message)
        }
    }
}

/// The later is the one that finishes later, and of two that finish at the same tick the one with
/// the lower number.
impl Later for Found {
    ghost join = { latest_order };

    fn none() -> Found {
        Found {
            message: Latest {
                finish: 0,
                number: u32::MAX,
            },
        }
    }

    fn later(self, other: Found) -> Found {
        if is_later(self.message, other.message) {
            other
        } else {
            self
        }
    }

    ghost laws = { latest_laws };
}
