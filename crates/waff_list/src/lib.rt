//! The plan of a trace for k workers by a list rule, and the bound on its length.
//!
//! At each tick each free worker takes a message that is ready: the one that arrived first, or the
//! one of the longest tail. Such a plan is within the bound of Graham (1969), whichever is taken:
//! `k * length <= total + k * release + (k - 1) * cost`, with the release and the cost of its
//! printed chain.
//! - `list`: the plans and their printed chain; `rule`: the two rules; `worker_plan`: plans for k
//!   workers.
//! - `planner`, over `task` (the messages, and when each may start whatever its needs are), `service`
//!   (the order in which messages that exclude each other are served: by number, or as they are
//!   `issued`; and the needs of each), `progress` (the plan while it is made, the workers that are
//!   `idle`, what is due: the messages that run to finish, and others to be issued; and who awaits
//!   whom of those that are not placed) and `waiting` (who waits for whom, and the messages that are
//!   ready, by their priorities and the keys by which they are served).
//! - `tails`: the tail of each message, which is its priority under the rule of the longest tail.
//! - `laws`: the bound, and that needs make the same plans as all pairs; `tail_laws`: what tails
//!   are; `unique`: that there is one list plan; `issue_laws`: of list plans in the order in which
//!   clients issue messages.
//!
//! The plan for k workers follows the list rule over the paths through its needs, which is the same
//! as over the ordered pairs. It is within the bound of its printed chain, so at most twice as long
//! as any plan for k workers that serves messages in the same order, and 2 - 1/k times where no message
//! has a release, a think time or a gap. Other needs with the same paths make the same plans.
//!
//! Tests: `test_worked/src/worker_plans.rt`, by both rules; `test_slow/src/compared_plans.rt`
//! compares the starts, the workers and the order by both rules with a plain slow program, and sees
//! that each such plan obeys and is within its bound.
#![tactic(auto)]

mod idle;
pub mod issue_laws;
mod issued;
pub mod laws;
mod list;
mod planner;
mod progress;
mod rule;
mod service;
pub mod tail_laws;
mod tails;
mod task;
pub mod unique;
mod waiting;
mod worker_plan;

pub use list::{list_chain, list_plan, list_plan_by, list_plan_of};
pub use rule::Rule;
pub use worker_plan::WorkerPlan;
