//! Trees of affinities, layouts of cells, and traces of messages.
//!
//! What all other crates speak of, with its limits; nothing is read, planned or run here.
//! - `tree`, over `nodes` (found by number and by name) and `preorder` (the span of places of
//!   each, with those below it): affinities, each below its parent. `spans`: tables by those places,
//!   for the crates that plan and order.
//! - `layout`, over `layout_rows` (what it is made of, and why that is refused) and `space`: which
//!   affinity owns each cell; `locking`: whether it has a lock; `parcels`: where a cell stands among the cells of its owner.
//! - `trace`, over `parts`, `message`, `awaits`, `op`, `ops` over `packed_op`: messages with their costs, releases
//!   (in ticks), the messages that they await, and operations on cells.
//! - `cell`, `client`, `kind`, `name`, `texts`: the small parts; `distinct_names`: names, each once;
//!   `limits`: the limits of hierarchies, traces and plans; `format`: which of them hold of spaces.
//! - `laws`: what holds of the parcels of all layouts.
//!
//! A tree keeps for each affinity its span in preorder. So *at or above* is two comparisons, and the
//! affinities at or below one stand at a run of places.
//!
//! Affinities and spaces are numbered from 0, messages from 1, in the order in which they are
//! given.
//!
//! A builder stands for its list of names and parents, a tree too, and a trace for the list of its
//! messages. A refused call changes nothing. What is refused is refused for the first check that
//! holds: `refusal_of` and `layout_refusal` have them in their order. No two cells share a place in
//! the parcel of their owner, and every number below its size is the place of one of its cells:
//! three laws say so.
//!
//! Tests: `test_worked/src/trees.rt`, `layouts.rt` and `parts.rt`; the sample hierarchy and its
//! trace made by hand in `test_worked/src/building.rt`.
#![tactic(auto)]

mod awaits;
mod cell;
mod client;
mod distinct_names;
mod format;
mod kind;
pub mod laws;
mod layout;
mod layout_rows;
pub mod limits;
mod locking;
mod message;
mod name;
mod nodes;
mod op;
mod ops;
mod packed_op;
mod parcels;
mod parts;
mod preorder;
mod space;
pub mod spans;
mod texts;
mod trace;
mod tree;

pub use awaits::{Await, Awaits};
pub use cell::Cell;
pub use client::Client;
pub use distinct_names::DistinctNames;
pub use format::Format;
pub use kind::Kind;
pub use layout::Layout;
pub use layout_rows::{LayoutError, MapSpec, SpaceSpec};
pub use locking::Locking;
pub use message::{Message, Version};
pub use name::{Text, is_name};
pub use op::{Op, Verb};
pub use ops::Ops;
pub use parts::Parts;
pub use preorder::Span;
pub use texts::Texts;
pub use trace::Trace;
pub use tree::{AffinityId, Tree, TreeBuilder, TreeError};
