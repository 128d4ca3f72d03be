//! Which messages are due, which have joined the order of service, and what is issued when one ends.

ghost use Rattle.std.specs.Prelude.{◌≡◌, ◌-◌, ◌*◌, ◌<◌, ◌≤◌, ℕ, length, map, false, All, IfOk, OnErr, OnOk, MatchOption};
ghost use Rattle.std.specs.Prelude.{[], true, Contains, slice_set};
ghost use Rattle.waff_assign.specs.Order.{held_of};
ghost use Rattle.waff_order.specs.Joined.{HaveJoined};
ghost use Rattle.waff_model.specs.Numbers.{IsAmongFirst};
ghost use Rattle.waff_model.specs.Versions.{has_clients};
ghost use Rattle.waff_plan.specs.Timetable.{timings_of};
ghost use Rattle.waff_plan.specs.Timing.{IsTiming, work_of};
ghost use Rattle.waff_line.specs.Machine.{HasCome, IsRunning, Reaches, ended_at, opening};
ghost use Rattle.waff_line.specs.Entered.{HaveNoneCome};
ghost use Rattle.waff_line.specs.Lined.{AreFirstDue, AreOpened, first_joined, issue_noted};
ghost use Rattle.waff_line.specs.Queued.{IsQueue, course_of};
ghost use Rattle.waff_line.specs.Scaled.{scaled};
ghost use Rattle.waff_line.specs.declared.queue.TheConstants.{MAX_TIME};
ghost use Rattle.waff_plan.specs.Due.{LeavesDue};
ghost use Rattle.waff_plan.specs.declared.due.TheConstants.{NEVER};
ghost use Rattle.waff_model.specs.declared.limits.TheConstants.{MAX_MESSAGES};
ghost use Rattle.waff_waits.specs.Waits.{IsFree, waiting_for};

use crate::notes::Notes;
use crate::order::Order;
use crate::waiting::Waiting;
use std::alloc::{AllocError, Global};
use std::cmp::Reverse;
use waff_assign::Case;
use waff_model::limits::{MAX_COST, MAX_TICK, MAX_WORKERS};
use waff_model::{Await, Version};
use waff_plan::awaiting::awaiting;
use waff_plan::{Due, NEVER, Timing, timings};
use waff_waits::Waits;

/// The most ticks of a run: its sums then fit into the text of a plan for as many workers as there can be.
const MAX_RUN: u64 = MAX_TICK / MAX_WORKERS as u64;

/// The most nanoseconds of a run, some 300 years. With a think time or a gap more they fit into 64 bits, however long ticks are.
const MAX_TIME: u64 = 10_000_000_000_000_000_000;

/// How the end of a message went.
#[derive(Clone, Copy, Debug, PartialEq)]
pub enum Ended {
    Well,
    /// It ran for more ticks than a trace can tell, or the run has more of them than a plan can.
    TooLong,
    /// It did not run, so nothing has changed.
    NotRunning,
}

/// Nothing joins or begins any more: memory was refused, a message ran for too long, or the clock is at its end.
#[derive(Clone, Copy, Debug, PartialEq)]
pub struct Over;

/// A message that has joined: its issue in nanoseconds, and its place in the order of service, from 1.
#[derive(Clone, Copy)]
pub(crate) struct Joined {
    pub issue: u64,
    pub message: u32,
    pub place: u32,
}

/// The messages of a case that are due, and those that have joined the order of service. By issue they join it
/// one after another; in the first two versions of traces, which are served by number, all have joined it from
/// the beginning, and wait for their releases alone.
#[derive(Drop)]
pub(crate) struct Queue<'a> {
    pub case: Case<'a>,
    /// In ticks, as the trace has them.
    pub timings: Vec<Timing>,
    /// Nanoseconds of a tick.
    pub tick: u32,
    /// Each message waits for those that it awaits and that have not ended.
    pub awaits: Waits,
    pub order: Order<'a>,
    /// The messages whose issue is known and that have not joined.
    pub due: Due,
    /// What the messages that have joined wait for.
    pub waiting: Waiting,
    /// Nothing joins or begins any more: memory was refused, a message ran for too long, or the clock is at its end.
    pub is_over: bool,
}

impl<'a> Queue<'a> {
    /// The queue of a case before anything has happened. A tick is so many nanoseconds.
    pub fn of(alloc: Global, case: Case<'a>, workers: u32, tick: u32) -> Result<Self, AllocError>
        ensures case { IfOk result (λ queue. queue.case ≡ case.entry) }
        ensures timings { IfOk result (λ queue.
            queue.timings.items ≡ timings_of case.entry.trace.now.messages) }
        ensures tick { IfOk result (λ queue. queue.tick ≡ tick) }
        ensures queue { IfOk result (λ queue.
            (workers : ℕ) → IsQueue queue workers (opening (course_of queue workers))) }
        ensures going { IfOk result (λ queue. queue.is_over ≡ false) }
    {
        let timings = timings(alloc, case.trace)?;
        let awaits = awaiting(alloc, timings.as_slice())?;
        let due = first_due(alloc, timings.as_slice(), tick)?;
        let order = first_order(alloc, &case)?;
        let waiting = Waiting::none(alloc, timings.len(), workers)?;
        Ok(Queue {
            case,
            timings,
            tick,
            awaits,
            order,
            due,
            waiting,
            is_over: false,
        })
    }

    /// The messages whose issue has come join, one after another.
    pub fn join_all(&mut self, notes: &Notes) -> Result<(), Over>
        requires { IsQueue self.old notes.now.1 notes.now.0 }
        ensures case { self.new.case ≡ self.old.case }
        ensures timings { self.new.timings.items ≡ self.old.timings.items }
        ensures tick { self.new.tick ≡ self.old.tick }
        ensures queue { IsQueue self.new notes.now.1 notes.now.0 }
        ensures going { OnOk result (self.old.is_over ≡ false) }
        ensures goes_on { OnOk result (self.new.is_over ≡ false) }
        ensures early { OnOk result (notes.now.0.clock < NEVER) }
        ensures over { OnErr result (self.new.is_over ≡ true) }
        ensures none { OnOk result (HaveNoneCome self.new.case.trace.now.version notes.now.0.clock self.new.due) }
    {
        loop {
            if !self.join(notes)? {
                return Ok(());
            }
        }
    }

    /// The next message joins, where its issue has come. Whether one did.
    fn join(&mut self, notes: &Notes) -> Result<bool, Over>
        requires { IsQueue self.old notes.now.1 notes.now.0 }
        ensures case { self.new.case ≡ self.old.case }
        ensures timings { self.new.timings.items ≡ self.old.timings.items }
        ensures tick { self.new.tick ≡ self.old.tick }
        ensures queue { IsQueue self.new notes.now.1 notes.now.0 }
        ensures going { OnOk result (self.old.is_over ≡ false) }
        ensures goes_on { OnOk result (self.new.is_over ≡ false) }
        ensures early { OnOk result (notes.now.0.clock < NEVER) }
        ensures over { OnErr result (self.new.is_over ≡ true) }
        ensures fewer { IfOk result (λ joined. joined ≡ true
            → length self.new.due < length self.old.due) }
        ensures none { IfOk result (λ joined. joined ≡ false
            → HaveNoneCome self.new.case.trace.now.version notes.now.0.clock self.new.due) }
    {
        if self.is_over || notes.clock() == NEVER {
            self.is_over = true;
            return Err(Over);
        }
        let version = self.case.trace.version();
        let Some((issue, message)) = take_come(&mut self.due, version, notes.clock()) else {
            return Ok(false);
        };
        self.is_over = true;
        let Ok(place) = self.order.place(&self.case, message) else {
            return Err(Over);
        };
        let joined = Joined {
            issue,
            message,
            place,
        };
        let Ok(()) = self.waiting.enter(&self.order, notes, joined) else {
            return Err(Over);
        };
        self.is_over = false;
        Ok(true)
    }

    /// Message `m`, which runs, ends at this time. Those that await nothing more have their issues then.
    pub fn end(&mut self, notes: &mut Notes, m: u32, now: u64) -> Result<Ended, AllocError>
        requires running { IsRunning notes.old.0 m }
        requires queue { IsQueue self.old notes.old.1 notes.old.0 }
        requires reached { Reaches (course_of self.old notes.old.1) notes.old.0 }
        ensures case { self.new.case ≡ self.old.case }
        ensures timings { self.new.timings.items ≡ self.old.timings.items }
        ensures tick { self.new.tick ≡ self.old.tick }
        ensures ended { notes.new ≡ (ended_at notes.old.0 m now, notes.old.1) }
        ensures queue { IsQueue self.new notes.new.1 notes.new.0 }
    {
        let was_over = self.is_over;
        self.is_over = true;
        let turn = notes.turn(m);
        let finish = notes.end(m, now);
        if finish - turn.start > nanos(MAX_COST, self.tick) || finish > latest(self.tick) {
            return Ok(Ended::TooLong);
        }
        if was_over {
            return Ok(Ended::Well);
        }
        let_go(
            self.timings.as_slice(),
            self.tick,
            notes,
            &mut self.awaits,
            &mut self.due,
            m,
        )?;
        self.waiting.finish(turn.worker, m, finish)?;
        self.is_over = false;
        Ok(Ended::Well)
    }
}

/// Takes out the message that is due first, with its issue, if that has come. Among those of clients that is a nanosecond
/// after the issue: all that are issued with it are known then.
fn take_come(due: &mut Due, version: Version, clock: u64) -> Option<(u64, u32)>
    requires { clock < NEVER }
    ensures { MatchOption result ((due.new ≡ due.old) × HaveNoneCome version clock due.old)
        (λ r. HasCome version r.0 clock × LeavesDue due.old r due.new) }
{
    if !version.has_clients() {
        return due.pop_by(clock);
    }
    if clock == 0 {
        return None;
    }
    due.pop_by(clock - 1)
}

/// Message `m` has ended: those that await nothing more are due at their issues.
fn let_go(
    timings: &[Timing],
    tick: u32,
    notes: &Notes,
    awaits: &mut Waits,
    due: &mut Due,
    m: u32,
) -> Result<(), AllocError>
    requires number { IsAmongFirst (length awaits.old.awaited) m }
    requires numbers { (d : ℕ) → Contains (waiting_for awaits.old m) d
        → IsAmongFirst (length timings.now) d }
    requires timings { All IsTiming timings.now }
    requires early { notes.now.0.clock ≤ MAX_TIME }
    ensures waits { OnOk result (awaits.new ≡ record {
      awaited = slice_set awaits.old.awaited (m - 1) [];
      finished = slice_set awaits.old.finished (m - 1) true;
    }) }
    ensures opened { OnOk result (AreOpened
        (issue_noted (scaled tick (work_of timings.now)) notes.now.0)
        (IsFree (waiting_for awaits.old m) awaits.new) due.old due.new) }
{
    while let Some((next, is_open)) = awaits.let_go(m) {
        if is_open {
            due.push(issue(timings, tick, notes, next), next)?;
        }
    }
    awaits.finish(m);
    Ok(())
}

/// The time at which message `m` is issued, where those that it awaits have ended.
fn issue(timings: &[Timing], tick: u32, notes: &Notes, m: u32) -> u64
    requires number { IsAmongFirst (length timings.now) m }
    requires timings { All IsTiming timings.now }
    requires early { notes.now.0.clock ≤ MAX_TIME }
    ensures { result ≡ issue_noted (scaled tick (work_of timings.now)) notes.now.0 m }
{
    let timing = &timings[m as usize - 1];
    let after = timing.after.as_slice();
    let mut issue = nanos(timing.floor, tick);
    for k in (0..after.len()).rev() {
        let Await { message, gap } = after[k];
        issue = issue.max(notes.turn(message).finish + nanos(gap, tick));
    }
    if timing.follows == 0 {
        return issue;
    }
    let finish = notes.turn(timing.follows).finish;
    issue.max(finish + nanos(timing.think, tick))
}

/// The messages that await none are due at their releases.
fn first_due(alloc: Global, timings: &[Timing], tick: u32) -> Result<Due, AllocError>
    requires few { length timings.now ≤ MAX_MESSAGES }
    ensures { IfOk result (AreFirstDue (scaled tick (work_of timings.now)) (length timings.now)) }
{
    let mut issues = Vec::with_capacity(alloc, timings.len())?;
    for m in 1..timings.len() as u32 + 1 {
        let timing = &timings[m as usize - 1];
        if timing.is_alone() {
            issues.push_reserved(Reverse((nanos(timing.floor, tick), m)));
        }
    }
    Ok(Due::of(alloc, issues))
}

/// So many ticks in nanoseconds. As both numbers have 32 bits, the time has 64.
fn nanos(ticks: u32, tick: u32) -> u64
    ensures { result ≡ ticks * tick }
{
    u64::from(ticks) * u64::from(tick)
}

/// The time by which a run has to end.
fn latest(tick: u32) -> u64
    ensures { result ≤ MAX_TIME }
{
    MAX_RUN.saturating_mul(u64::from(tick)).min(MAX_TIME)
}

/// The order of service of a case when its run begins.
fn first_order<'a>(alloc: Global, case: &Case<'a>) -> Result<Order<'a>, AllocError>
    ensures joined { IfOk result (λ order. HaveJoined case.now.tree.now order.spans.now
        (map (held_of case.now.assigned.now) order.messages.items) order.joining) }
    ensures messages { IfOk result (λ order. order.messages.items
        ≡ first_joined case.now.trace.now.version (length case.now.assigned.now)) }
{
    let mut order = Order::none(alloc, case)?;
    if case.trace.version().has_clients() {
        return Ok(order);
    }
    for m in 1..case.assigned.len() + 1 {
        order.join(case.assigned, m)?;
    }
    Ok(order)
}
