//! Which spaces are worth locks: what a trace comes to under a hierarchy, with one space locked, with one more locked each time, and
//! with all.
//!
//! - `wanted`: what is asked, and of what; `figures`: what a trace comes to under a hierarchy with given locks.
//! - `candidates`: the spaces that may get locks. `sets`: the figures of several sets of locks, made side by side.
//! - `steps`: spaces that get locks one after another, each time the one with which the plan is shortest.
//! - `text`: their text. `laws`: figures and text are one.
//!
//! Tests: the command cases `locks-*`.

#![tactic(auto)]

mod candidates;
mod figures;
pub mod laws;
mod sets;
mod steps;
mod text;
mod wanted;

pub use figures::{SetFigures, SpaceFigures};
pub use text::locks_text;
pub use wanted::{Asked, Wanted};
