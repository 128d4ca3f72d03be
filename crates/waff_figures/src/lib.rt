//! Figures of a trace under a hierarchy: how long it takes by the number of workers, where the time
//! goes, and who waits for whom.
//!
//! - `percentile`: percentiles.
//! - `figures`: what is told of one plan; `fields`: how it is printed; `sweep`: of the list plans
//!   for some numbers of workers, made side by side by `slots`; `rate`: of any plan.
//! - `limit`: a limit on workers as a number.
//! - `tally`, over `grouped`: what is told of the messages of each group; `below`: costs summed up
//!   the tree; `names`: the distinct names or clients.
//! - `parts`, over `members`: figures of the messages of each group.
//! - `by_affinity`, `by_name`: the texts of these; `grouping`: by what messages are told of together.
//! - `waits`: the waits of a plan; `wait_groups`: the messages that are told of together;
//!   `wait_rows`: the waits of one kind, told in one row; `wait_text`: their text.
//! - `wait_locks`: the locks by which messages wait for one another.
//! - `worst`: the messages of greatest latency; `worst_text`: their text; `cell_text`: a cell in a text.
//! - `told`: what can be asked of a trace under a hierarchy.
//! - `laws`, `part_laws`, `wait_laws`: the columns of these texts add up.
//!
//! No plan that obeys for as many workers is shorter than `least`, and a plan is at most `over`
//! times as long as any of them. Columns add up: messages and costs of the affinities to those of
//! the trace, waits of messages to those of the plan, and what is on a chain to its cost. Waiting
//! for what a message awaits, by its client or by its list, is no wait. Sums are made in one pass from
//! the last affinity to the first, and names are found in a table: that is not promised.
//!
//! Tests: the command cases `sweep-*` and `rate-*` (the samples, the trace of no message, plans
//! that do not obey), `waits-*` (a line that messages share, and names that are `-`), `where-*`
//! (figures of a line's own messages) and `worst-*` (a message that finishes late and takes
//! little).
#![tactic(auto)]

mod below;
mod by_affinity;
mod by_name;
mod cell_text;
mod fields;
pub mod figures;
mod grouped;
mod grouping;
pub mod laws;
mod limit;
mod members;
mod names;
pub mod part_laws;
mod parts;
pub mod percentile;
mod rate;
mod slots;
mod sweep;
mod tally;
mod told;
mod wait_groups;
pub mod wait_laws;
mod wait_locks;
mod wait_rows;
mod wait_text;
mod waits;
pub mod worst;
mod worst_text;

pub use by_affinity::affinities_text;
pub use by_name::names_text;
pub use cell_text::push_cell;
pub use fields::{QUALITY, QualityFields};
pub use figures::{Figures, figures_of};
pub use grouping::{Columns, Grouping, Label};
pub use limit::{limit_of, number_of, workers_of};
pub use parts::PartFigures;
pub use rate::push_rate;
pub use slots::{all_made, sides};
pub use sweep::{SWEEP_WORKERS, figures_text, list_figures, list_figures_for, sweep_workers};
pub use tally::Tally;
pub use told::Told;
pub use wait_groups::groups;
pub use wait_locks::LockCells;
pub use wait_rows::{Group, Row};
pub use wait_text::waiting_text;
pub use waits::Wait;
pub use worst_text::worst_messages_text;
