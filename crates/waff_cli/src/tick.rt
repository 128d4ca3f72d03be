//! The tick of a run.
ghost use Rattle.std.specs.Prelude.{◌≡◌, ◌≤◌, IfSome};
ghost use Rattle.waff_cli.specs.declared.tick.TheConstants.{TICK};

use std::marker::Model;

/// The nanoseconds of a tick where they are not given.
pub const TICK: u32 = 1_000;

/// The most nanoseconds of a tick.
const MAX_TICK: u64 = 1_000_000_000;

/// How many nanoseconds a tick of a run is: one at least, and at most those of a second.
#[derive(Clone, Copy)]
pub struct Tick {
    nanoseconds: u32,
}

impl Model for Tick {
    ghost use Rattle.std.specs.Prelude.{◌≤◌, ℕ};

    ghost Value = { ℕ };

    ghost view = { λ tick. tick.nanoseconds };

    ghost invariant = { λ tick. 1 ≤ tick.nanoseconds };

    ghost inverse = { λ nanoseconds. record { nanoseconds = nanoseconds } };
}

impl Tick {
    /// The tick where none is given.
    pub fn usual() -> Tick
        ensures { result ≡ TICK }
    {
        Tick { nanoseconds: TICK }
    }

    /// A tick of so many nanoseconds, where it can be one.
    pub fn of(nanoseconds: u64) -> Option<Tick>
        ensures { IfSome result (λ tick. tick ≡ nanoseconds) }
    {
        if 1 <= nanoseconds && nanoseconds <= MAX_TICK {
            Some(Tick {
                nanoseconds: nanoseconds as u32,
            })
        } else {
            None
        }
    }

    /// How many nanoseconds it is.
    pub fn nanoseconds(self) -> u32
        ensures number { result ≡ self }
        ensures lasting { 1 ≤ result }
    {
        self.nanoseconds
    }
}
