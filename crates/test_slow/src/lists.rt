//! The list plan by a priority of the messages, from one tick at which something happens to the
//! next; and the tails of messages.

use crate::pairs::{has, only};
use crate::plans::{Work, greatest};
use crate::traces::MESSAGES;
use std::alloc::{AllocError, Global};

/// A message that has started. Workers are numbered from 1.
#[derive(Clone, Copy)]
pub struct Started {
    pub message: u32,
    pub start: u64,
    pub finish: u64,
    pub worker: u32,
}

/// The messages in the order in which k workers start them. At each tick at which a message has
/// finished or is released, as many of those that are ready start as workers are free: the ones of
/// the highest priorities, of equal ones the one that arrived first. In the order of arrival each
/// takes the least worker that is free.
pub fn list(
    alloc: Global,
    work: &Work,
    priorities: &[u64],
    k: u32,
) -> Result<Vec<Started>, AllocError> {
    let mut started = Vec::new(alloc);
    let mut tick = Some(0);
    for _ in 0..2 * MESSAGES + 1 {
        let Some(now) = tick else {
            break;
        };
        let taken = taken(
            ready(&started, work, now),
            priorities,
            free(&started, now, k),
        );
        start(&mut started, work, taken, k, now)?;
        tick = next(&started, work, now);
    }
    Ok(started)
}

/// By arrival: all messages have the same priority.
pub fn arrivals(alloc: Global, work: &Work) -> Result<Vec<u64>, AllocError> {
    let mut priorities = Vec::new(alloc);
    for _ in &work.pairs {
        priorities.push(0)?;
    }
    Ok(priorities)
}

/// The tail of each message: its cost, and the greatest tail of a later message that waits for it.
pub fn tails(alloc: Global, work: &Work) -> Result<Vec<u64>, AllocError> {
    let mut costs = Vec::new(alloc);
    for (m, times) in (1u32..).zip(&work.times) {
        costs.push((m, times.cost))?;
    }
    let mut tails = Vec::new(alloc);
    for (m, cost) in costs.iter().rev() {
        let behind = longest_behind(work, &tails, *m);
        tails.push(cost.saturating_add(behind))?;
    }
    tails.reverse();
    Ok(tails)
}

/// The greatest of these tails, from that of the last message on, of a message that waits for `m`.
fn longest_behind(work: &Work, tails: &[u64], m: u32) -> u64 {
    let mut longest: u64 = 0;
    for (set, tail) in work.pairs.iter().rev().zip(tails) {
        if has(*set, m) {
            longest = longest.max(*tail);
        }
    }
    longest
}

/// The messages that are ready at this tick. No message that starts now has finished now.
fn ready(started: &[Started], work: &Work, now: u64) -> u64 {
    let done = finished(started, now);
    let begun = finished(started, u64::MAX);
    let mut ready = 0;
    for (message, (set, times)) in (1u32..).zip(work.pairs.iter().zip(&work.times)) {
        if !has(begun, message) && *set & !done == 0 && times.release <= now {
            ready |= only(message);
        }
    }
    ready
}

/// So many messages of the set, those of the highest priorities.
fn taken(set: u64, priorities: &[u64], count: u32) -> u64 {
    let mut taken = 0;
    for _ in 0..count {
        let Some((message, _)) = greatest(priorities, set & !taken) else {
            break;
        };
        taken |= only(message);
    }
    taken
}

/// Starts these messages at this tick.
fn start(
    started: &mut Vec<Started>,
    work: &Work,
    taken: u64,
    k: u32,
    now: u64,
) -> Result<(), AllocError> {
    for (message, times) in (1u32..).zip(&work.times) {
        if has(taken, message) {
            if let Some(worker) = free_worker(started, now, k) {
                started.push(Started {
                    message,
                    start: now,
                    finish: now.saturating_add(times.cost),
                    worker,
                })?;
            }
        }
    }
    Ok(())
}

/// The next tick at which a message finishes or is released.
fn next(started: &[Started], work: &Work, now: u64) -> Option<u64> {
    let finishes = started.iter().map(|it| it.finish);
    let releases = work.times.iter().map(|it| it.release);
    finishes.chain(releases).filter(|tick| now < *tick).min()
}

/// The messages that have finished by this tick.
pub fn finished(started: &[Started], tick: u64) -> u64 {
    let mut set = 0;
    for it in started {
        if it.finish <= tick {
            set |= only(it.message);
        }
    }
    set
}

/// The workers that run something at this tick.
fn busy(started: &[Started], tick: u64) -> u64 {
    let mut busy = 0;
    for it in started {
        if tick < it.finish {
            busy |= only(it.worker);
        }
    }
    busy
}

/// How many workers run nothing at this tick.
pub fn free(started: &[Started], tick: u64, k: u32) -> u32 {
    k.saturating_sub(busy(started, tick).count_ones())
}

/// The least worker that runs nothing at this tick.
pub fn free_worker(started: &[Started], tick: u64, k: u32) -> Option<u32> {
    let busy = busy(started, tick);
    for worker in (1u32..).take(k as usize) {
        if !has(busy, worker) {
            return Some(worker);
        }
    }
    None
}

/// When each of so many messages starts.
pub fn starts(alloc: Global, started: &[Started], count: usize) -> Result<Vec<u64>, AllocError> {
    let mut starts = Vec::new(alloc);
    for m in (1u32..).take(count) {
        if let Some(it) = started.iter().find(|it| it.message == m) {
            starts.push(it.start)?;
        }
    }
    Ok(starts)
}

/// The worker of each of so many messages.
pub fn seats(alloc: Global, started: &[Started], count: usize) -> Result<Vec<u32>, AllocError> {
    let mut seats = Vec::new(alloc);
    for m in (1u32..).take(count) {
        if let Some(it) = started.iter().find(|it| it.message == m) {
            seats.push(it.worker)?;
        }
    }
    Ok(seats)
}

/// The messages in the order in which they start.
pub fn order(alloc: Global, started: &[Started]) -> Result<Vec<u32>, AllocError> {
    let mut order = Vec::new(alloc);
    for it in started {
        order.push(it.message)?;
    }
    Ok(order)
}
