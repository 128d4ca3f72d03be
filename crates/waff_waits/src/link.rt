//! The links of which trails are made.

/// A message that waits for another, and the number of the link to the next that does, 0 for none.
#[derive(Clone, Copy)]
pub(crate) struct Link {
    pub message: u32,
    pub next: u32,
}
