//! As many threads as a run has workers, or none.

use std::marker::Sync;
use std::rt::Clock;
use std::sync::{Condvar, Mutex, Wait};
use std::time::Instant;

/// Where the workers of a run wait until all of them are there.
#[derive(Drop)]
pub(crate) struct Gate {
    state: Mutex<State>,
    changed: Condvar,
}

/// Whether the run begins.
#[derive(Clone, Copy)]
enum State {
    Closed,
    /// The run began at this instant.
    Open(Instant),
    /// There is no run.
    Never,
}

impl Gate {
    /// A gate that is closed.
    pub(crate) fn new() -> Gate {
        Gate {
            state: Mutex::new(State::Closed),
            changed: Condvar::new(),
        }
    }

    /// The run begins now, if `all` are there and the clock can be read, and else never.
    pub(crate) fn settle<R: Wait + Clock>(&self, rt: &R, all: bool) {
        let mut state = self.state.lock(rt);
        *state = match Instant::now(rt) {
            Ok(now) if all => State::Open(now),
            _ => State::Never,
        };
        self.changed.notify_all();
    }

    /// Waits until it is settled. When the run began, or none where there is no run.
    pub(crate) fn wait<R: Wait>(&self, rt: &R) -> Option<Instant> {
        let mut state = self.state.lock(rt);
        for _ in rt.forever() {
            match *state {
                State::Closed => state = self.changed.wait(rt, state),
                State::Open(begun) => return Some(begun),
                State::Never => return None,
            }
        }
        unreachable!()
    }
}
