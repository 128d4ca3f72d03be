//! The greatest of some numbers, and which is the first to have it.

ghost use Rattle.std.specs.Prelude.{◌≡◌, ◌+◌, ℕ};
ghost use Rattle.waff_plan.specs.Peak.{IsPeak};
ghost use Rattle.waff_plan.specs.declared.peak.Peak.{Peak};

/// The greatest of some numbers of ticks, and of the messages or affinities that have it the one of the lowest number. Both are 0 where
/// there is none, or all have 0 ticks.
#[derive(Clone, Copy)]
pub struct Peak {
    pub at: u32,
    pub ticks: u64,
}

impl Peak {
    /// Nothing so far.
    pub(crate) fn none() -> Self
        ensures { (f : ℕ → ℕ) (from : ℕ) → IsPeak f from 0 result }
    {
        Peak { at: 0, ticks: 0 }
    }

    /// The next number, and how many ticks it has.
    pub(crate) fn or(self, at: u32, ticks: u64) -> Self
        ensures { (f : ℕ → ℕ) (from count : ℕ) → from + count ≡ at → f at ≡ ticks
            → IsPeak f from count self → IsPeak f from (count + 1) result }
    {
        if self.ticks < ticks {
            Peak { at, ticks }
        } else {
            self
        }
    }
}

/// There is one peak.
pub fn peak_is_one()
    ensures equal { (f : ℕ → ℕ) (from count : ℕ) (peak other : Peak) → IsPeak f from count peak
        → IsPeak f from count other → peak ≡ other }
{}
