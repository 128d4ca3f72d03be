//! Plans of clients' messages by the definition: from one tick at which something happens to the
//! next, at each of which it is found anew what is issued and what is ready; their chains and tails.

ghost use Rattle.std.specs.Prelude.{◌≡◌, length};
ghost use Rattle.waff_assign.specs.Held.{AreKnown};

use crate::lists::{Started, finished, free, free_worker};
use crate::pairs::{has, only};
use crate::traces::MESSAGES;
use std::alloc::{AllocError, Global};
use waff_assign::{Assigned, exclude_each_other};
use waff_model::{Trace, Tree};

/// A message: its ticks, the one before it of its client (0 where there is none), and the set of all
/// others that exclude it, earlier and later ones.
#[derive(Clone, Copy)]
pub struct Request {
    pub cost: u64,
    pub release: u64,
    pub think: u64,
    pub before: u32,
    pub others: u64,
}

/// The messages of a trace.
pub fn requests(
    alloc: Global,
    tree: &Tree,
    assigned: &Assigned,
    trace: &Trace,
) -> Result<Vec<Request>, AllocError>
    requires lengths { length assigned.now ≡ length trace.now.messages }
    requires known { AreKnown tree.now assigned.now }
{
    let mut all = Vec::new(alloc);
    for m in 1..trace.len() + 1 {
        let message = trace.message(m);
        let mut others = 0;
        for i in 1..assigned.len() + 1 {
            if i != m && exclude_each_other(tree, assigned, i, m) {
                others |= only(i);
            }
        }
        let mut before = 0;
        for i in 1..m {
            let client = trace.message(i).client.as_str();
            if client != "-" && client == message.client.as_str() {
                before = i;
            }
        }
        all.push(Request {
            cost: u64::from(message.cost),
            release: u64::from(message.release),
            think: u64::from(message.think),
            before,
            others,
        })?;
    }
    Ok(all)
}

/// Message `m`, from 1.
fn message(requests: &[Request], m: u32) -> Option<Request> {
    requests.get(m.wrapping_sub(1) as usize).copied()
}

/// When message `m` is issued; None as long as the one before it has not started.
fn issue(requests: &[Request], started: &[Started], m: u32) -> Option<u64> {
    let it = message(requests, m)?;
    let answered = if it.before == 0 {
        0
    } else {
        let before = it.before;
        started.iter().find(|other| other.message == before)?.finish
    };
    Some(it.release.max(answered.saturating_add(it.think)))
}

/// Whether message `i` is issued before message `m`.
fn is_issued_before(requests: &[Request], started: &[Started], i: u32, m: u32) -> bool {
    match (issue(requests, started, i), issue(requests, started, m)) {
        (Some(first), Some(second)) => first < second || first == second && i < m,
        (Some(_), None) => true,
        (None, _) => false,
    }
}

/// Whether message `m` has not started, is issued by this tick, and all that exclude it and are issued
/// before it have finished.
fn is_ready(requests: &[Request], started: &[Started], now: u64, m: u32) -> bool {
    let Some(it) = message(requests, m) else {
        return false;
    };
    let Some(issue) = issue(requests, started, m) else {
        return false;
    };
    if now < issue || has(finished(started, u64::MAX), m) {
        return false;
    }
    let open = it.others & !finished(started, now);
    for (i, _) in (1u32..).zip(requests) {
        if has(open, i) && is_issued_before(requests, started, i, m) {
            return false;
        }
    }
    true
}

/// The priority of message `m`.
fn priority(priorities: &[u64], m: u32) -> u64 {
    priorities
        .get(m.wrapping_sub(1) as usize)
        .copied()
        .unwrap_or(0)
}

/// The ready message that is taken first, but for those that are taken: the one of the highest
/// priority, of several the one that is issued first.
fn first(
    requests: &[Request],
    started: &[Started],
    priorities: &[u64],
    now: u64,
    taken: u64,
) -> Option<u32> {
    let mut found: Option<u32> = None;
    for (m, _) in (1u32..).zip(requests) {
        if !has(taken, m) && is_ready(requests, started, now, m) {
            let is_first = match found {
                None => true,
                Some(other) => {
                    let (one, two) = (priority(priorities, m), priority(priorities, other));
                    two < one || one == two && is_issued_before(requests, started, m, other)
                }
            };
            if is_first {
                found = Some(m);
            }
        }
    }
    found
}

/// The messages in the order in which k workers start them. Where something happens as many of those
/// that are ready start as workers are free; in the order of numbers each takes the least worker that
/// is free.
pub fn list(
    alloc: Global,
    requests: &[Request],
    priorities: &[u64],
    k: u32,
) -> Result<Vec<Started>, AllocError> {
    let mut started = Vec::new(alloc);
    let mut tick = Some(0);
    for _ in 0..2 * MESSAGES + 1 {
        let Some(now) = tick else {
            break;
        };
        let mut taken = 0;
        for _ in 0..free(&started, now, k) {
            let Some(m) = first(requests, &started, priorities, now, taken) else {
                break;
            };
            taken |= only(m);
        }
        start(&mut started, requests, taken, k, now)?;
        tick = next(requests, &started, now);
    }
    Ok(started)
}

/// Starts these messages at this tick.
fn start(
    started: &mut Vec<Started>,
    requests: &[Request],
    taken: u64,
    k: u32,
    now: u64,
) -> Result<(), AllocError> {
    for (message, it) in (1u32..).zip(requests) {
        if has(taken, message) {
            if let Some(worker) = free_worker(started, now, k) {
                started.push(Started {
                    message,
                    start: now,
                    finish: now.saturating_add(it.cost),
                    worker,
                })?;
            }
        }
    }
    Ok(())
}

/// The next tick at which a message finishes or is issued.
fn next(requests: &[Request], started: &[Started], now: u64) -> Option<u64> {
    let mut next: Option<u64> = None;
    for (m, _) in (1u32..).zip(requests) {
        if let Some(issue) = issue(requests, started, m) {
            next = earlier(next, issue, now);
        }
    }
    for it in started {
        next = earlier(next, it.finish, now);
    }
    next
}

/// The earlier of a tick that was found and another one, where that is later than now.
fn earlier(found: Option<u64>, tick: u64, now: u64) -> Option<u64> {
    if now < tick && found.is_none_or(|other| tick < other) {
        Some(tick)
    } else {
        found
    }
}

/// The tail of each message: its cost, and the think time and the tail of the next one of its client.
pub fn tails(alloc: Global, requests: &[Request]) -> Result<Vec<u64>, AllocError> {
    let mut tails = Vec::new(alloc);
    let count = u32::try_from(requests.len()).unwrap_or(u32::MAX);
    for (back, _) in (0u32..).zip(requests) {
        let m = count.wrapping_sub(back);
        let mut behind: u64 = 0;
        for (it, tail) in requests.iter().rev().zip(&tails) {
            if it.before == m {
                behind = it.think.saturating_add(*tail);
            }
        }
        let cost = message(requests, m).map_or(0, |it| it.cost);
        tails.push(behind.saturating_add(cost))?;
    }
    tails.reverse();
    Ok(tails)
}

/// What holds back message `m` longest, and until when: a message that excludes it and starts earlier,
/// until it has finished, or the one before it of its client, until the client has thought.
fn held(requests: &[Request], starts: &[u64], m: u32) -> Option<(u32, u64)> {
    let it = message(requests, m)?;
    let start = *starts.get(m.wrapping_sub(1) as usize)?;
    let mut found: Option<(u32, u64)> = None;
    for (i, (other, begun)) in (1u32..).zip(requests.iter().zip(starts)) {
        if it.before == i || has(it.others, i) && *begun < start {
            let until = begun.saturating_add(other.cost).saturating_add(gap(it, i));
            if found.is_none_or(|(_, most)| most < until) {
                found = Some((i, until));
            }
        }
    }
    found
}

/// How long a message waits behind message `i` when that has finished.
fn gap(it: Request, i: u32) -> u64 {
    if it.before == i { it.think } else { 0 }
}

/// The tick before which a message may not start, whatever the plan.
fn floor(it: Request) -> u64 {
    if it.before == 0 {
        it.release.max(it.think)
    } else {
        it.release
    }
}

/// The chain that is printed of a plan, which ends with this message.
pub fn chain(
    alloc: Global,
    requests: &[Request],
    starts: &[u64],
    last: Option<u32>,
) -> Result<Vec<u32>, AllocError> {
    let mut chain = Vec::new(alloc);
    let mut next = last;
    for _ in requests {
        let Some(m) = next else {
            break;
        };
        chain.push(m)?;
        next = match (held(requests, starts, m), message(requests, m)) {
            (Some((i, until)), Some(it)) => { if floor(it) < until { Some(i) } else { None } }
            _ => None,
        };
    }
    chain.reverse();
    Ok(chain)
}

/// The sum of the costs of the chain, and its release: the floor of the first message and the ticks in
/// which clients think between two of it.
pub fn cost_and_release(requests: &[Request], chain: &[u32]) -> (u64, u64) {
    let (mut cost, mut release): (u64, u64) = (0, 0);
    let mut earlier: Option<u32> = None;
    for m in chain {
        if let Some(it) = message(requests, *m) {
            let idle = match earlier {
                Some(i) => gap(it, i),
                None => floor(it),
            };
            cost = cost.saturating_add(it.cost);
            release = release.saturating_add(idle);
        }
        earlier = Some(*m);
    }
    (cost, release)
}
