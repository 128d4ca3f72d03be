//! Workers that sleep, and who wakes them.
//!
//! A worker waits for one of two things. It has drawn a message, and waits until the needs of that one
//! are done; or it had to wait for its last message, and waits until the next one can run before it
//! draws. It looks many times in a row, which is enough where messages are short, and then it sleeps.
//! Who ends a message wakes the workers that sleep for that one. Who draws a message wakes one that
//! sleeps for want of any, if the message behind can run too; so each that is woken wakes the next. Who
//! draws past the end of the order wakes all.

use std::alloc::{AllocError, Global};
use std::sync::Wait;
use std::sync::atomic::{AtomicU32, AtomicU64, Ordering};
use std::thread::Parker;
use waff_board::Board;

/// The workers of a replay that sleep, and on what. Whoever goes to sleep says so first and then looks
/// once more, and whoever ends a message looks who sleeps after he has ended it, so that one of the
/// two sees the other. Who ends a message does not ask who sleeps for want of one: he draws the next
/// message himself, or looks at it until it can run. So somebody awake follows on each message, and a
/// worker has to go on until the order is used up.
#[derive(Drop)]
pub(crate) struct Sleepers {
    /// A bit for each worker that sleeps until the next message can run.
    idle: AtomicU64,
    /// A bit for each worker that sleeps until a message is done that its own waits for.
    held: AtomicU64,
    places: Vec<Place>,
}

/// Where a worker sleeps, and the message that it waits for where it has one of its own.
#[derive(Drop)]
struct Place {
    parker: Parker,
    on: AtomicU32,
}

impl Sleepers {
    /// Nobody sleeps; places for this many workers.
    pub(crate) fn new(alloc: Global, workers: u32) -> Result<Self, AllocError> {
        let mut places = Vec::with_capacity(alloc, workers as usize)?;
        for _made in 0..workers {
            places.push_reserved(Place {
                parker: Parker::new(),
                on: AtomicU32::new(0),
            });
        }
        Ok(Sleepers {
            idle: AtomicU64::new(0),
            held: AtomicU64::new(0),
            places,
        })
    }

    /// Sleeps until another worker sees that the next message can run.
    pub(crate) fn sleep_until_next<R: Wait>(&self, rt: &R, board: &Board, me: usize) {
        let Some(place) = self.places.get(me) else {
            return;
        };
        self.idle.fetch_or(bit(me), Ordering::SeqCst);
        if !board.is_next_clear() {
            place.parker.park(rt);
        }
        self.idle.fetch_and(!bit(me), Ordering::SeqCst);
    }

    /// Sleeps until another worker has ended this message.
    pub(crate) fn sleep_until_done<R: Wait>(&self, rt: &R, board: &Board, me: usize, message: u32) {
        let Some(place) = self.places.get(me) else {
            return;
        };
        place.on.store(message, Ordering::SeqCst);
        self.held.fetch_or(bit(me), Ordering::SeqCst);
        if !board.is_done(message) {
            place.parker.park(rt);
        }
        self.held.fetch_and(!bit(me), Ordering::SeqCst);
    }

    /// Wakes a worker if one sleeps for want of a message, and the next one can run.
    pub(crate) fn wake_for_next(&self, board: &Board) {
        let idle = self.idle.load(Ordering::SeqCst);
        if idle != 0 && board.is_next_clear() {
            self.wake(&self.idle, idle.trailing_zeros() as usize);
        }
    }

    /// Wakes the workers that wait for this message.
    pub(crate) fn wake_after(&self, message: u32) {
        let held = self.held.load(Ordering::SeqCst);
        if held == 0 {
            return;
        }
        for (n, place) in self.places.iter().enumerate() {
            if held & bit(n) != 0 && place.on.load(Ordering::SeqCst) == message {
                self.wake(&self.held, n);
            }
        }
    }

    /// Wakes all that sleep for want of a message.
    pub(crate) fn wake_all(&self) {
        for n in 0..self.places.len() {
            self.wake(&self.idle, n);
        }
    }

    /// Wakes worker `n` if its bit is still there. Where it is gone, no other need be woken in its place:
    /// whoever took it looks at the next message now, or draws it.
    fn wake(&self, asleep: &AtomicU64, n: usize) {
        let Some(place) = self.places.get(n) else {
            return;
        };
        if asleep.fetch_and(!bit(n), Ordering::SeqCst) & bit(n) != 0 {
            place.parker.unpark();
        }
    }
}

/// The bit of worker `n`.
fn bit(n: usize) -> u64 {
    if n < 64 { 1 << n } else { 0 }
}
