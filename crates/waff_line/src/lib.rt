//! The line of a run: which messages have been issued, which may begin, and which run.
//!
//! It is pure: no thread, clock or file is in it. Events change it: it is *told* a time, a message *begins* on
//! a worker, and one *ends*. Before one begins, all *join* whose issue has come. Among messages that exclude
//! each other the one that joined first is served first. They join in the order of their issues, and in the
//! first two versions of traces, which know no clients, in that of their numbers.
//! - `line`: the line and its events.
//! - `notes`: what has happened; `turn`: when each message began and finished, and on which worker.
//! - `queue`: which messages are due, and which may begin; `order`: the order in which they are served.
//! - `waiting`: what the messages that have joined wait for, and which are ready.
//! - `event`: what happens to the machine of a run, by which the line goes; `laws`: what holds of it.
//!
//! All times are nanoseconds from the beginning of the run: releases, think times and gaps, which the trace has in ticks,
//! are times when they are read. The line takes the greatest time that it was told, so that a clock that stands or goes back
//! changes nothing. A finish lies at least one nanosecond behind its start.
//!
//! A line is what the threads of a run share: it notes what was issued, began and ended. Its state
//! is one that the machine of a run reaches by events, and each of its calls is an event of that
//! machine or leaves the state as it was. So what it has noted when all messages have ended is a
//! plan, by the laws below. And no worker stays idle: where none begins on a worker, no message may
//! begin on it (`NobodyMayBegin`). In which order those that are ready begin, no clause says.
//!
//! Tests: `test_threads/src/records.rt`.
#![tactic(auto)]

mod event;
pub mod laws;
mod line;
mod notes;
mod order;
mod queue;
mod turn;
mod waiting;

pub use event::Event;
pub use line::Line;
pub use queue::{Ended, Over};
pub use turn::Turn;
