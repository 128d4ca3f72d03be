//! What limits a workload: its workers, its clients, the data that its messages contend for, the tree of
//! affinities, and the order in which messages are served; and why messages run high in the tree.
//!
//! - `data`, over `edges` and `runs` of cells: the cell that messages use longest; `limits`: all limits of a case; `text`: their text.
//! - `laws`: what the data say of every tree of affinities.
//! - `writes`: the cell that they need longest where those that only read it share it, everywhere or by locks, over `readings`; `locks`: the
//!   lock that they need longest.
//! - `laid`: a trace under a hierarchy. `lifted`: messages that run high, in affinities below which others lie (`inner`), and the cells that
//!   lift them, by `jumps` up the tree, told together in `why_rows`; `why_text`: their text. `cell_text`: a cell in a text.
//!
//! No plan that obeys is shorter than the greatest of the limits of workers, clients, lists, writes, data,
//! tree and locks, in whatever order it serves; none that keeps the order of the unlimited plan is shorter
//! than that one; and under no hierarchy is a plan shorter than what messages need of one cell where all that
//! only read it share it. The limit of the lists, of all that messages await, is no less than that of their clients alone.
//!
//! Tests: `test_worked/src/limits.rt`; the command cases `limits-*` and `why-*` (a message that
//! names a cell twice, the inner cell of a range, readers of ranges that overlap, clients that
//! think; several messages in one line), and `tests/random/clients.py`.

#![tactic(auto)]

mod cell_text;
pub mod data;
mod edges;
mod inner;
mod jumps;
mod laid;
pub mod laws;
mod lifted;
pub mod lifted_laws;
mod limits;
pub mod locks;
mod readings;
mod runs;
mod text;
mod why_rows;
mod why_text;
pub mod writes;

pub use laid::Laid;
pub use lifted::Lift;
pub use limits::{Limits, limits_of};
pub use text::limits_text;
pub use why_rows::Row;
pub use why_text::lifting_text;
