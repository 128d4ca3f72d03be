//! How a reader stops.

ghost use Rattle.std.specs.Prelude.{◌≡◌};
ghost use Rattle.waff_parse.specs.declared.stop.Stop.TheVariants.{Memory};

use std::alloc::{AllocError, AllocFailed};

/// Why a reader stopped: no memory, or a fault in what it read.
#[derive(Debug, Drop)]
pub enum Stop<F> {
    /// A growth was refused.
    Memory,
    /// What is wrong with what was read.
    Fault(F),
}

impl<F> From<AllocError> for Stop<F> {
    ghost from_gives = { λ _ e. e ≡ Memory };

    fn from(_e: AllocError) -> Stop<F> {
        Stop::Memory
    }
}

impl<F, T: Drop> From<AllocFailed<T>> for Stop<F> {
    ghost from_gives = { λ _ e. e ≡ Memory };

    fn from(_e: AllocFailed<T>) -> Stop<F> {
        Stop::Memory
    }
}
