//! The core machine of a replay: jobs, events, and the state that a list of events leaves.
//!
//! A job is a trace with its affinities, its needs and an order in which messages are drawn, under
//! a layout without locks. An actor draws the next message, begins it when all earlier messages
//! that exclude it are done, and ends it. The machine is pure: no thread is in it. What the crates
//! above rest on: whatever list of events it accepts, each cell has the value that the order of
//! arrival gives it after the last message that is done and could touch it.
//! - `job`, `order`, `refusal`: jobs, and why they are refused; `owners`, over
//!   `owner_set`: the owners of footprints.
//! - `laws`: what holds of the machine, whoever runs it. The board is proved over these and over
//!   `Steps`, the relation of states (`specs/Machine.antt`).
//! - `actors`: what actors do and are at, and what becomes of messages.
//! - `steps`, `run`: one event, and lists of them; `core_state`, over `homes`: the state that they
//!   leave. No command runs these: tests do.
//!
//! At most 16 actors (`limits`).
//!
//! What a replay does, as a machine over lists of events, with no thread, lock or atomic: actors
//! draw the messages of a job in its order, begin them and end them. Its states and steps stand in
//! `specs/Machine.antt`, why an event is refused in `specs/Refused.antt`, what the cells are in
//! `specs/Settled.antt`, and a state is *reached* when a list of events leads to it from the
//! opening (`specs/Laws.antt`). The laws hold for every job: messages with their lowest affinities
//! and no locks, with needs of theirs, in an order in which each message stands once and each need
//! before its message (`IsJob`). Where spaces have locks, a job is made of the layout without them
//! (`without_locks` of a layout): the cells that it leaves are the same, those of arrival order. The
//! meaning of messages enters these laws by two facts alone: a cell that a message does not name
//! stays as it was, and what a message leaves in the cells that it names depends on those cells
//! alone. No two meanings need to commute.
//!
//! No command calls `run_events` or asks a `CoreState`; tests do. A begin looks at the needs of its
//! message alone; only where one is not done does it go over the earlier messages, to name the
//! least. That is not promised; what is promised is the answer.
//!
//! Tests: `test_threads/src/machines.rt` has orders that are no orders, a state in which messages
//! run, wait, are held and are done, and a list of events for each cause of a refusal.
//! `test_slow/src/compared_machines.rt` plays random lists of events, partly not allowed, on a
//! plain machine that tests a begin against all earlier messages: the same refusals at the same
//! places, else the same state. `tests/replays` runs random traces, and the events of the seats of
//! a board in `run_events`, which has to leave the state of the serial run.
#![tactic(auto)]

mod actors;
mod core_state;
mod homes;
mod job;
pub mod laws;
pub mod limits;
mod order;
mod owner_set;
mod owners;
mod refusal;
mod run;
mod steps;

pub use actors::{Event, Phase, Status};
pub use core_state::CoreState;
pub use job::Job;
pub use refusal::{CoreError, JobError};
pub use run::run_events;
