//! The rules by which a free worker takes a message.

/// Which of the messages that are ready a free worker takes.
#[derive(Clone, Copy)]
pub enum Rule {
    /// The one that arrived first.
    Arrival,
    /// The one of the longest tail, and of equal tails the one that arrived first. The tail of a
    /// message is its cost plus the longest tail of a later message that excludes it.
    Longest,
}
