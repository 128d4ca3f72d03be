//! What actors do and are at, and what becomes of messages by it. Actors and messages are numbered
//! from 1.

/// What an actor does.
#[derive(Clone, Copy, Debug)]
pub enum Event {
    /// The actor takes the next message of the order, or has ended where none is left.
    Draw(u32),
    /// The actor's message takes the parcels of its footprint's owners.
    Begin(u32),
    /// The actor's message has run, and its parcels come home.
    End(u32),
}

/// What an actor is at.
#[derive(Clone, Copy)]
pub enum Phase {
    /// It has no message, and may draw one.
    Free,
    /// It holds the message, which it has drawn.
    Drawn(u32),
    /// It runs the message.
    Running(u32),
    /// It has drawn past the end of the order.
    Ended,
}

/// What has become of a message, in a state at which tests look.
#[derive(Clone, Copy, Debug, PartialEq)]
pub enum Status {
    /// No actor has drawn it.
    Waiting,
    /// The actor has drawn it, and it has not begun.
    Held { actor: u32 },
    /// The actor runs it.
    Running { actor: u32 },
    /// It has ended.
    Done,
}
