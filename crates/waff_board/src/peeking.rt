//! Glances at what others have done, without a seat. They tell nothing that a contract could rest on:
//! they are for whoever decides how to wait.

use crate::board::Board;
use crate::view::DONE;

impl Board {
    /// Whether message `n` is done, at a glance.
    pub fn is_done(&self, n: u32) -> bool {
        0 < n && n <= self.setup.job.len() && self.table.shared.peek(n as usize) == DONE
    }

    /// Whether the next draw gives no message or one whose needs are all done, at a glance. Another
    /// seat may draw it first.
    pub fn is_next_clear(&self) -> bool {
        match self.message_at(self.table.shared.peek(0)) {
            Some(message) => self
                .setup
                .job
                .needs(message)
                .iter()
                .all(|n| self.is_done(*n)),
            None => true,
        }
    }
}
