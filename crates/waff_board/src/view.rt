//! What seats know, and what a board is told.

use std::collections::LinkedList;
use waff_core::{Job, Phase};

/// The status word of a message that an actor runs.
pub const RUNNING: u64 = 1;

/// The status word of a message that is done.
pub const DONE: u64 = 2;

/// What a seat knows, which its own steps alone change. No value of it is made: it stands in the
/// proofs.
pub struct View {
    /// The actor that the seat is, from 1.
    pub actor: u32,
    /// What the actor is at.
    pub phase: Phase,
    /// The numbers that it drew.
    pub draws: LinkedList<u64>,
    /// The messages that it looked at, each with whether the look told that it was done. One that a
    /// look tells done is done; one that it does not may be done meanwhile.
    pub looks: LinkedList<(u32, bool)>,
    /// The messages that it finished.
    pub ran: LinkedList<u32>,
    /// How many actors there are, as far as the first one knows, which makes the others.
    pub made: u32,
    /// The job.
    pub job: Job,
}

/// What a board is told when it is made.
#[derive(Drop)]
pub struct Setup {
    /// What is replayed.
    pub job: Job,
    /// How many seats there are.
    pub seats: u32,
}
