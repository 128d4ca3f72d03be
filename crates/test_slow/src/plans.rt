//! The least plan and printed chains, by all pairs.

use crate::pairs::has;
use std::alloc::{AllocError, Global};
use waff_model::Trace;

/// A message's times, in ticks.
#[derive(Clone, Copy)]
pub struct Times {
    pub cost: u64,
    pub release: u64,
}

/// What is planned.
#[derive(Drop)]
pub struct Work {
    /// The number of the random trace.
    pub number: u32,
    /// For each message the earlier ones for which it waits.
    pub pairs: Vec<u64>,
    pub times: Vec<Times>,
}

/// The times of each message.
pub fn times_of(alloc: Global, trace: &Trace) -> Result<Vec<Times>, AllocError> {
    let mut times = Vec::new(alloc);
    for m in 1..trace.len() + 1 {
        let message = trace.message(m);
        times.push(Times {
            cost: u64::from(message.cost),
            release: u64::from(message.release),
        })?;
    }
    Ok(times)
}

/// When each message starts, if it waits for its release and for the last of all earlier messages
/// that exclude it, and for nothing else.
pub fn least(alloc: Global, work: &Work) -> Result<Vec<u64>, AllocError> {
    let mut starts = Vec::new(alloc);
    let mut finishes = Vec::new(alloc);
    for (set, times) in work.pairs.iter().zip(&work.times) {
        let start = match greatest(&finishes, *set) {
            Some((_, finish)) => finish.max(times.release),
            None => times.release,
        };
        starts.push(start)?;
        finishes.push(start.saturating_add(times.cost))?;
    }
    Ok(starts)
}

/// The message of the set that has the greatest value, of several the first, and that value.
pub fn greatest(values: &[u64], set: u64) -> Option<(u32, u64)> {
    let mut found: Option<(u32, u64)> = None;
    for (m, value) in (1u32..).zip(values) {
        if has(set, m) && found.is_none_or(|(_, greatest)| greatest < *value) {
            found = Some((m, *value));
        }
    }
    found
}

/// When each message finishes.
pub fn finishes(alloc: Global, times: &[Times], starts: &[u64]) -> Result<Vec<u64>, AllocError> {
    let mut finishes = Vec::new(alloc);
    for (times, start) in times.iter().zip(starts) {
        finishes.push(start.saturating_add(times.cost))?;
    }
    Ok(finishes)
}

/// The chain that is printed of a plan.
pub fn chain(alloc: Global, work: &Work, starts: &[u64]) -> Result<Vec<u32>, AllocError> {
    let finishes = finishes(alloc, &work.times, starts)?;
    let mut chain = Vec::new(alloc);
    let mut next = greatest(&finishes, u64::MAX);
    for _ in &work.times {
        let Some((m, _)) = next else {
            break;
        };
        chain.push(m)?;
        next = before(work, &finishes, m);
    }
    chain.reverse();
    Ok(chain)
}

/// What stands before message `m` in the chain, and when it finishes.
fn before(work: &Work, finishes: &[u64], m: u32) -> Option<(u32, u64)> {
    let at = m.wrapping_sub(1) as usize;
    let (i, finish) = greatest(finishes, *work.pairs.get(at)?)?;
    if work.times.get(at)?.release < finish {
        Some((i, finish))
    } else {
        None
    }
}

/// The sum of the costs of the chain, and the release of its first message.
pub fn cost_and_release(work: &Work, chain: &[u32]) -> (u64, u64) {
    let (mut cost, mut release): (u64, Option<u64>) = (0, None);
    for m in chain {
        if let Some(times) = work.times.get(m.wrapping_sub(1) as usize) {
            cost = cost.saturating_add(times.cost);
            release = release.or(Some(times.release));
        }
    }
    (cost, release.unwrap_or(0))
}
