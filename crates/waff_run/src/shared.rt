//! What the workers of a run share, and how each of them looks for a message, sleeps and wakes others.

use crate::going::{Asking, RunOf};
use crate::locked::{EARLY, Locked};
use crate::pace::Pace;
use crate::store::Store;
use crate::threads::Gate;
use std::hint::spin_loop;
use std::rt::Clock;
use std::sync::atomic::{AtomicBool, Ordering};
use std::sync::{Condvar, CondvarTimeouts, Mutex, MutexGuard, Wait};
use std::time::{Duration, Instant};
use waff_assign::Case;

/// How often a worker looks for a message before it takes the lock again.
const LOOKS: u32 = 1_000;

/// What all workers share.
#[derive(Drop)]
pub(crate) struct Shared<'r, 'a, S: Store, C: RunOf> {
    pub case: Case<'a>,
    pub store: &'r S,
    pub asking: Asking<'r, C>,
    pub locked: &'r Mutex<Locked<'a, C, S>>,
    pub changed: &'r Condvar,
    /// Whether a worker has left something to do that no other has taken up. One of those that look takes it down.
    pub offer: &'r AtomicBool,
    pub gate: &'r Gate,
    pub pace: Pace,
}

/// Takes the lock; looks many times before it sleeps.
pub(crate) fn look<'a, R: Wait, T>(rt: &R, locked: &'a Mutex<T>) -> MutexGuard<'a, T> {
    for _ in 0..LOOKS {
        if let Some(guard) = locked.try_lock() {
            return guard;
        }
        spin_loop();
    }
    locked.lock(rt)
}

/// Nanoseconds from the beginning of the run.
pub(crate) fn nanos<R: Clock>(rt: &R, begun: &Instant) -> u64 {
    match begun.elapsed(rt) {
        Ok(since) => u64::try_from(since.as_nanos()).unwrap_or(0),
        Err(_) => 0,
    }
}

/// Keeps the deadline of the next issue, which is near, without sleeping.
pub(crate) fn await_issue<'b, 'a, C: RunOf, R: Wait + Clock, S: Store>(
    rt: &R,
    shared: &Shared<'_, '_, S, C>,
    begun: &Instant,
    guard: MutexGuard<'b, Locked<'a, C, S>>,
) -> MutexGuard<'b, Locked<'a, C, S>> {
    let mut guard = guard;
    let due = guard.line.next();
    guard.keeper = due;
    let mut guard = await_offer(rt, shared, begun, guard, due);
    guard.leave(due);
    guard
}

/// Looks for a message that another worker leaves, until this time at most. Who looks keeps away from
/// the lock, which those need who have a message.
pub(crate) fn await_offer<'b, 'a, C: RunOf, R: Wait + Clock, S: Store>(
    rt: &R,
    shared: &Shared<'_, '_, S, C>,
    begun: &Instant,
    guard: MutexGuard<'b, Locked<'a, C, S>>,
    until: u64,
) -> MutexGuard<'b, Locked<'a, C, S>> {
    let unlocked = MutexGuard::unlock(guard);
    for _ in 0..LOOKS {
        let is_offered = shared.offer.load(Ordering::SeqCst)
            && shared.offer.swap(false, Ordering::SeqCst);
        if is_offered || nanos(rt, begun) >= until {
            break;
        }
        spin_loop();
    }
    look(rt, unlocked)
}

/// Offers what is left to do to one of those that look, and wakes one that sleeps where there is more to do, or where
/// nobody waits for the next issue. Wakes all where none is needed any more.
pub(crate) fn wake<C: RunOf, S: Store>(shared: &Shared<'_, '_, S, C>, locked: &Locked<'_, C, S>) {
    let is_over = locked.line.waiting() == 0;
    if is_over || locked.line.is_ready() || locked.line.next() < locked.keeper {
        shared.offer.store(true, Ordering::SeqCst);
        if is_over {
            shared.changed.notify_all();
        } else if locked.asleep > 0 {
            shared.changed.notify_one();
        }
    }
}

/// Sleeps until something changes. One worker alone keeps the deadline of the next issue.
pub(crate) fn sleep<'b, 'a, C: RunOf, R: Wait + Clock, S: Store>(
    rt: &R,
    shared: &Shared<'_, '_, S, C>,
    begun: &Instant,
    guard: MutexGuard<'b, Locked<'a, C, S>>,
) -> MutexGuard<'b, Locked<'a, C, S>> {
    let mut guard = guard;
    guard.asleep = guard.asleep.saturating_add(1);
    let due = guard.line.next();
    if due < guard.keeper {
        guard.keeper = due;
        let left = due.saturating_sub(nanos(rt, begun));
        let rest = Duration::from_nanos(left.saturating_sub(EARLY));
        guard = shared.changed.wait_timeout(rt, guard, rest).0;
        guard.leave(due);
    } else {
        guard = shared.changed.wait(rt, guard);
    }
    guard.asleep = guard.asleep.saturating_sub(1);
    guard
}
