//! Why a job or a list of events is refused.

/// Why no job is made.
#[derive(Clone, Copy, Debug, PartialEq)]
pub enum JobError {
    /// The order is not a list of all messages, each once, in which each need stands before its
    /// message.
    Order,
    /// A growth of memory was refused.
    Memory,
}

/// Why a list of events is refused: its first event that the machine does not allow. Places are
/// counted from 1.
#[derive(Clone, Copy, Debug, PartialEq)]
pub enum CoreError {
    /// A draw by an actor that holds or runs a message.
    Busy { place: u64 },
    /// No such actor, one that has ended, a begin by one that holds no message, or an end by one
    /// that runs none.
    Nothing { place: u64 },
    /// A begin before the earlier messages that exclude the actor's are done; the message is the
    /// least of these.
    NotYet { place: u64, message: u32 },
    /// A growth of memory was refused.
    Memory,
}
