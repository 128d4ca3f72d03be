//! Locks that messages use.

/// That a message uses a lock, from its start to its finish.
#[derive(Clone, Copy, PartialEq)]
pub struct LockUse {
    /// The number of the lock, from 0: locks are numbered in the order of their cells.
    pub lock: u32,
    /// Whether no other message may use the lock meanwhile. Else those that share it may.
    pub alone: bool,
}
