//! Who waits for whom, and which messages wait for nothing more.
//!
//! A message enters with those that it needs, and waits for each of them that has not finished. Where
//! one finishes, those that wait for it are let go, one after another, and each is told whether it
//! waits for nothing now.
//! - `waits`: who waits for whom, as counts of what each message still waits for, and trails of
//!   `link`s that lead from a message to those that wait for it.
//! - `ready`: the messages that wait for nothing, the one that is taken first first.
//!
//! A message that enters waits for those of its needs that have not finished, and for nothing else;
//! who waits for a message that finishes is let go, and told whether it waits for nothing now
//! (`AreWaits` is what that comes to, over the needs of all that have entered). How much each still
//! waits for is counted; that the counts are right is a fact of the type, and no clause speaks of
//! them.
//!
//! Tests: none of its own. The plans in `test_worked` and `test_slow` rest on it.
#![tactic(auto)]

mod link;
mod ready;
mod waits;

pub use ready::Ready;
pub use waits::Waits;
