//! The needs of a trace's messages, and whether one hierarchy refines another on a trace.
//!
//! The needs of a message are earlier messages that exclude it, chosen so that the paths through
//! them lead to all earlier messages that exclude it: whoever waits for the needs waits for all,
//! and there are few of them. At each place that it holds, its affinity or a lock, a message takes the
//! messages that are open at or below that place, or, where there is none, the latest one above it.
//! - `joining`: messages that join one after another, whose needs are found from the `frontier`, which
//!   has tables by the spans of affinities in preorder, and from the `takers` of each lock, in a table
//!   and a chain; `predecessors`: the needs of a trace, whose messages join in the order of their
//!   numbers; `lists`: lists of lists, as needs are.
//! - `refinement`: whether all pairs that one hierarchy orders are ordered by another one, with
//!   `lowests`.
//!
//! Paths through the needs are exactly the paths through ordered pairs: who waits for its needs
//! waits for each earlier message that excludes it. How few the needs are (`few`, `twice`) follows
//! from which they are.
//!
//! Tests: `test_worked/src/worker_plans.rt` (`wait_for_their_needs`, `wait_for_few_of_many`),
//! `refinements.rt` (`go_one_way_alone`). `test_slow/src/compared_plans.rt` compares the needs'
//! paths and number, the least plan, the plans for k workers and their chains with plain slow
//! programs over all pairs, on random traces.
#![tactic(auto)]

mod frontier;
mod joining;
mod lists;
mod lowests;
pub mod predecessors;
mod refinement;
mod takers;

pub use joining::Joining;
pub use lists::{Lists, Needs};
pub use refinement::refines;
