//! Formats of hierarchies.

ghost use Rattle.std.specs.Prelude.{◌≡◌};
ghost use Rattle.waff_model.specs.Formats.{max_size_of, max_unit_of, may_lock};

use crate::limits::{MAX_LARGE_SIZE, MAX_LARGE_UNIT, MAX_SIZE, MAX_UNIT};

/// The format of a hierarchy, which says how large its spaces may be, and whether they may have
/// locks.
#[derive(Clone, Copy, PartialEq)]
pub enum Format {
    /// Spaces of few cells, so that each can be kept.
    F1,
    /// Large spaces.
    F2,
    /// Large spaces, which may have locks.
    F3,
}

impl Format {
    /// The greatest size of a space, in cells.
    pub fn max_size(self) -> u32
        ensures { result ≡ max_size_of self }
    {
        match self {
            Format::F1 => MAX_SIZE,
            Format::F2 | Format::F3 => MAX_LARGE_SIZE,
        }
    }

    /// The greatest unit of a map, in cells.
    pub fn max_unit(self) -> u32
        ensures { result ≡ max_unit_of self }
    {
        match self {
            Format::F1 => MAX_UNIT,
            Format::F2 | Format::F3 => MAX_LARGE_UNIT,
        }
    }

    /// Whether its files may give spaces locks.
    pub fn may_lock(self) -> bool
        ensures { result ≡ may_lock self }
    {
        matches!(self, Format::F3)
    }
}
