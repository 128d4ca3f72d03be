//! Why a hierarchy is refused.

ghost use Rattle.std.specs.Prelude.{◌≡◌};
ghost use Rattle.waff_read.specs.declared.hier_error.HierError.TheVariants.{Memory};

use std::alloc::AllocError;
use waff_model::{AffinityId, LayoutError, TreeError};

/// A key of a hierarchy file, in the order in which keys are told.
#[derive(Clone, Copy, Debug, PartialEq)]
pub enum Key {
    /// The array `affinity`.
    Affinities,
    /// The array `space`.
    Spaces,
    /// The array `map`.
    Maps,
    /// The name of an affinity or a space.
    Name,
    /// The parent of an affinity.
    Parent,
    /// The size of a space.
    Size,
    /// The space of a map.
    Space,
    /// The unit of a map.
    Unit,
    /// The owners of a map.
    To,
    /// The locks of a space, in a format that has them.
    Locks,
}

/// Why a hierarchy was refused. Where several hold, the first is answered.
#[derive(Clone, Copy, Debug, PartialEq)]
pub enum HierError {
    /// The bytes are not TOML.
    Toml,
    /// The model is missing, or neither `classical` nor `hierarchical`.
    Model,
    /// A key is missing or of another type.
    Shape { key: Key },
    /// An affinity is refused.
    Tree(TreeError),
    /// The model is classical, and this affinity is below a child of the root.
    NotClassical { affinity: AffinityId },
    /// The spaces and maps are refused.
    Layout(LayoutError),
    /// A growth was refused.
    Memory,
}

impl From<AllocError> for HierError {
    ghost from_gives = { λ _ e. e ≡ Memory };

    fn from(_e: AllocError) -> HierError {
        HierError::Memory
    }
}
