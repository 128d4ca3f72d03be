//! The timings of messages.

ghost use Rattle.std.specs.Prelude.{◌≡◌, ℕ, ◌+◌, ◌-◌, ◌^◌, ◌<◌, ◌≤◌, ◌↔◌, List, [], length, All, IfOk, IsTrue, OnOk};
ghost use Rattle.waff_plan.specs.Clients.{client_of, one_before};
ghost use Rattle.waff_plan.specs.LastMessages.{AreLast};
ghost use Rattle.waff_plan.specs.Timetable.{AreTimings, timing_after, timings_of};
ghost use Rattle.waff_plan.specs.Timing.{HasIssue, IsTiming, awaits_by, start_of, work_of};
ghost use Rattle.waff_plan.specs.declared.timing.Awaited.TheVariants.{Every};
ghost use Rattle.waff_plan.specs.Work.{IsAmongFirst, finish_of, issue_of};

use std::alloc::{AllocError, Global};
use std::collections::HashMap;
use waff_model::limits::MAX_MESSAGES;
use waff_model::{Await, Awaits, Message, Trace};

/// How long a message runs, and when it may start.
pub struct Timing {
    /// The running time, in ticks.
    pub cost: u32,
    /// The tick before which the message may not start, whatever the others do: its release, or where it is the
    /// first of its client its think time, if that is later.
    pub floor: u32,
    /// The number of the message before it of its client, 0 where it follows none.
    pub follows: u32,
    /// How many ticks after the finish of that one it is issued.
    pub think: u32,
    /// The earlier messages that it awaits besides.
    pub after: Awaits,
}

// Written out: a derived drop is proved again in each crate that lets go of the value.
impl Drop for Timing {
    fn drop(self) {
        let Timing {
            cost: _,
            floor: _,
            follows: _,
            think: _,
            after,
        } = self;
        drop(after);
    }
}

impl Timing {
    /// Whether the message awaits none.
    pub fn is_alone(&self) -> bool
        ensures { IsTrue result ↔ (awaits_by Every self.now ≡ []) }
    {
        self.follows == 0 && self.after.as_slice().is_empty()
    }
}

/// What of that which a message awaits is meant.
#[derive(Clone, Copy)]
pub enum Awaited {
    /// The one before it of its client.
    Client,
    /// Every one: that of its client, and those of its list.
    Every,
}

/// The timings of the messages of a trace, in the order of arrival.
pub fn timings(alloc: Global, trace: &Trace) -> Result<Vec<Timing>, AllocError>
    ensures each { IfOk result (λ timings. timings.items ≡ timings_of trace.now.messages) }
    ensures are { AreTimings trace.now.version (timings_of trace.now.messages) }
    ensures few { length trace.now.messages ≤ MAX_MESSAGES }
{
    let _messages = trace.len();
    let mut last = HashMap::new(alloc);
    let mut timings = Vec::with_capacity(alloc, trace.len() as usize)?;
    for n in 1..trace.len() + 1 {
        let message = trace.message(n);
        let follows = note_last(&mut last, message.client.as_str(), n)?;
        let timing = timing_after(message, follows)?;
        timings.push_reserved(timing);
    }
    Ok(timings)
}

/// Notes message `n` as the last of its client so far. The one that was the last before, 0 for none.
fn note_last<'a>(
    last: &mut HashMap<&'a str, u32>,
    client: &'a str,
    n: u32,
) -> Result<u32, AllocError>
    requires some { 1 ≤ n }
    ensures last { OnOk result ((clients : List (List ℕ)) → AreLast clients (n - 1) last.old
        → client_of clients n ≡ client.now → AreLast clients n last.new) }
    ensures before { IfOk result (λ before. (clients : List (List ℕ))
        → AreLast clients (n - 1) last.old → client_of clients n ≡ client.now
        → before ≡ one_before clients n) }
{
    if client == "-" {
        return Ok(0);
    }
    match last.insert(client, n)? {
        Some(before) => Ok(before),
        None => Ok(0),
    }
}

/// The timing of a message that follows the one with this number, 0 for none.
fn timing_after(message: &Message, follows: u32) -> Result<Timing, AllocError>
    ensures { IfOk result (λ timing. timing ≡ timing_after message.now follows) }
{
    let floor = if follows == 0 {
        message.release.max(message.think)
    } else {
        message.release
    };
    Ok(Timing {
        cost: message.cost,
        floor,
        follows,
        think: message.think,
        after: message.after.share()?,
    })
}

/// The tick at which message `m` is issued, where those that it awaits start at these ticks.
pub fn issue(timings: &[Timing], starts: &[u64], m: u32) -> u64
    requires { HasIssue timings.now starts.now m }
    ensures { result ≡ issue_of (work_of timings.now) (start_of starts.now) m }
{
    let timing = &timings[m as usize - 1];
    let after = timing.after.as_slice();
    let mut issue = u64::from(timing.floor);
    for k in (0..after.len()).rev() {
        let Await { message, gap } = after[k];
        issue = issue.max(finish(timings, starts, message) + u64::from(gap));
    }
    let before = timing.follows;
    if before == 0 {
        return issue;
    }
    issue.max(finish(timings, starts, before) + u64::from(timing.think))
}

/// The tick at which message `i` finishes, where messages start at these ticks.
fn finish(timings: &[Timing], starts: &[u64], i: u32) -> u64
    requires number { IsAmongFirst (length timings.now) i }
    requires small { All IsTiming timings.now }
    requires count { length starts.now ≡ length timings.now }
    requires early { start_of starts.now i + 2 ^ 33 < 2 ^ 64 }
    ensures finish { result ≡ finish_of (work_of timings.now) (start_of starts.now) i }
    ensures early { result + 2 ^ 32 < 2 ^ 64 }
{
    starts[i as usize - 1] + u64::from(timings[i as usize - 1].cost)
}
