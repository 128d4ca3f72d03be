//! What each message of a trace holds: the lowest affinity that covers its footprint, and locks.
//!
//! A footprint is the set of the cells that a message names; an affinity covers it that is at or
//! above the owner of each. Cells of spaces with locks count for no affinity: the message uses their
//! locks. Messages exclude each other whose affinities are at or above one another, or that use one
//! lock, one of them alone, and one in the root excludes all; the earlier runs first: that order of
//! pairs is what all crates above plan, check and replay by.
//! - `held`: the use of a lock; `assigned`: what all messages hold, over `gathered`.
//! - `footprints`: the footprint of a message; `covering`: the lowest affinity that covers cells.
//! - `locks`: the cells with locks, which number these, over `guesses`; `uses`: the uses of a message.
//! - `assignment`: what the messages of a trace hold; `gathering`: the same where some spaces have locks.
//! - `case`: a trace under a tree, with what they hold.
//! - `order`: whether two messages are an ordered pair.
//! - `laws`: what holds of exclusion; `unique`: that one footprint has one lowest affinity, and one
//!   trace one assignment.
//!
//! A case is a trace under a tree with what its messages hold: whoever makes one proves that each holds
//! something, and of the tree.
//!
//! Tests: `test_worked/src/affinities.rt`, `plans.rt`.
#![tactic(auto)]

mod assigned;
mod assignment;
mod case;
mod covering;
mod footprints;
mod gathered;
mod gathering;
mod guesses;
mod held;
pub mod laws;
mod locks;
mod order;
pub mod unique;
mod uses;

pub use assigned::Assigned;
pub use assignment::{assign, assign_by_threads};
pub use case::Case;
pub use covering::lowest;
pub use footprints::footprint;
pub use held::LockUse;
pub use locks::lock_cells;
pub use order::{contended_lock, exclude_by_affinities, exclude_each_other, is_ordered, is_root};
