//! The verdicts on plans that are given.
//!
//! A check sorts, and uses the tables of the planner. It walks over pairs of messages only to name an
//! overlap that is there, in threads.
//! - `verdict`: what a check finds; `claim`: what it looks at.
//! - `overlap`, `crowd`, `worker`, `told`, `totals`, `links`: one kind of fault each; `shifts`:
//!   whether any worker is wrong; `ticks`: whether a tick is crowded.
//! - `checking`: the check, over all kinds.
//! - `own`, `unique`: laws of verdicts.
//!
//! The verdict holds and none of an earlier stage does; it names the least pair, tick, message or
//! place. Obeys, Shortest, Tight and WithinBound imply that the plan obeys, and for k workers that
//! at most k messages run at each tick and no two on one worker. Shortest also implies that no
//! obeying plan is shorter. Tight: none is that serves as it does. WithinBound: the bound with the
//! text's own chain, so a length at most twice that of any plan for k workers, with clients of any
//! that serves as it does.
//!
//! The check walks over pairs of messages only to name a fault. That there is none, it finds with
//! the planner's tables, with the messages sorted by worker and start, and with the starts and
//! finishes in order. That is not promised; `bench/run` measures it.
//!
//! Tests: the command cases `check-*`, with each verdict by one change of the sample plans.
#![tactic(auto)]

mod checking;
mod claim;
mod crowd;
mod links;
mod overlap;
pub mod own;
mod shifts;
mod ticks;
mod told;
mod totals;
pub mod unique;
mod verdict;
mod worker;

pub use checking::check;
pub use verdict::Verdict;
pub use waff_plan_text::{GivenPlan, PlanTextError, read_plan};
