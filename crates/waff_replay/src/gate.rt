//! What each worker calls before it runs a message.

use std::marker::Sync;
use waff_board::Grant;

/// A gate that every message passes when its parcels are taken and its operations have not run yet.
pub trait Gate: Sync {
    /// Called once for each message, by the worker that runs it, after the message has begun and
    /// before its operations run.
    fn before(&self, grant: &Grant<'_>);
}

/// The gate that does nothing.
#[derive(Drop)]
pub struct Open;

impl Gate for Open {
    fn before(&self, _grant: &Grant<'_>) {}
}
