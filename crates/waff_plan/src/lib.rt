//! The unlimited plan of a trace, its printed chain, and the laws of plans.
//!
//! A plan gives each message a start, in ticks; it obeys where a message starts when all messages
//! that exclude it and are served before it have finished, and not before its issue. It is issued when
//! those that it awaits have finished, each with a gap: of a client's messages each awaits the one
//! before. Served first is what comes first in the trace, or where messages are of clients what is
//! issued first. The unlimited plan is the least that obeys, message by message. Its chain shows that
//! no shorter plan obeys: messages that wait for one another, whose first release and costs add up to
//! the length.
//! The planner walks over the messages once, with two tables by place. A message notes its finish for
//! all places of its span, and it stands at its first place; so the latest message whose affinity excludes
//! another's is found in the two tables. Places are cut into blocks of 64: a span that holds a whole
//! block is one entry for it. The latest message of all that have an affinity is looked at first, since on a
//! path it excludes every other. Of each lock the latest message that used it alone and the latest that used it
//! are kept: one that uses it alone excludes the latter, one that shares it the former.
//! - `timing`, `timetable`: costs and releases; plans.
//! - `unlimited`: the unlimited plan, and its links. It takes messages in `turns`: by number, or
//!   where they are of clients by issue, over `due`. Who awaits whom is counted (`awaiting`), so that a
//!   message has its turn when all that it awaits have had theirs.
//! - `table`: the latest message that excludes another, by spans in preorder (`place_table`, over `last`) and by
//!   locks (`lock_table`).
//! - `sequence`: the messages of a plan one after another, by number or by start.
//! - `printed`, over `linked`: the printed chain; `waited`: what messages waited for; both over
//!   `waits`; `totals`: what the summary of a plan tells.
//! - `ordered`: whether of the messages of a sequence the later wait for the earlier, and by number
//!   whether a plan keeps the order; `apart`: by start, whether it has two that run at a common
//!   tick though they exclude each other.
//! - `lower_bound`: a length below which no plan obeys, in whatever order, and what it comes of; over `peak` and `lock_bound`.
//! - `workers`: how many workers there are.
//! - `laws`: what holds of all plans; `unique`: that the definitions leave no choice; `issue_laws`: of
//!   plans in the order in which clients issue messages; `start_laws`: in the order of their starts.
//!
//! The unlimited plan obeys, and in every plan that obeys its order each message starts at the same
//! tick or later. The order is that of the trace, and from version 3 on that in which the plan issues
//! messages. The chain is the printed chain of the plan given, with its cost and release; of a
//! trace with clients the release counts the think times within the chain too. Of the unlimited
//! plan the chain's release plus its cost is the length, and of every chain that is at most the
//! length of every plan that obeys. No plan for as many workers is shorter than `lower_bound`, in
//! whatever order it serves.
//!
//! Tests: `test_worked/src/plans.rt`.
#![tactic(auto)]

pub mod apart;
pub mod awaiting;
mod due;
pub mod issue_laws;
mod last;
mod latest;
pub mod laws;
mod linked;
pub mod lock_bound;
mod lock_table;
pub mod lower_bound;
pub mod ordered;
pub mod peak;
mod place_table;
mod planned;
pub mod printed;
mod sequence;
pub mod start_laws;
mod table;
mod timetable;
mod timing;
mod totals;
mod turns;
pub mod unique;
pub mod unlimited;
pub mod waited;
mod waits;
mod workers;

pub use due::{Due, NEVER};
pub use latest::Latest;
pub use linked::Chain;
pub use peak::Peak;
pub use planned::Planned;
pub use sequence::{Started, by_tick};
pub use table::Table;
pub use timetable::Plan;
pub use timing::{Awaited, Timing, issue, timings};
pub use totals::Totals;
pub use workers::Workers;
