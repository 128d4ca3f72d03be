//! A trace cut down to the messages that are left of a run.

ghost use Rattle.std.specs.Bool.{OnTrue};
ghost use Rattle.std.specs.Prelude.{◌≡◌, IfOk, length, map};
ghost use Rattle.waff_model.specs.Numbers.{IsAmongFirst};
ghost use Rattle.waff_plan.specs.Timetable.{message_of, timings_of, work_in};
ghost use Rattle.waff_plan.specs.Timing.{await_of};
ghost use Rattle.waff_record.specs.Left.{IsCutTo, IsIssuedAmong, IsToldAmong, await_kept, number_at};

use crate::anew::{
    Spelled, fields_anew, finished, next_row, no_rows, no_words, spell, titles, write_row,
};
use crate::left::StoppedRun;
use csv::StringRecord;
use std::alloc::{AllocError, Global};
use waff_model::{Await, Message, Ops, Trace};
use waff_parse::text_rows;
use waff_plan::Plan;
use waff_read::laws;

/// The trace of a run that was stopped, cut down to the messages with these numbers, which the lists of messages that are
/// awaited then go by.
pub(crate) fn cut_text(
    alloc: Global,
    run: &StoppedRun<'_>,
    kept: &[u32],
) -> Result<Vec<u8>, AllocError> {
    laws::rows_are_text();
    let trace = &run.whole.trace;
    let version = trace.version();
    let mut text = no_rows(alloc, run.bytes.len())?;
    let mut rows = text_rows(alloc, run.bytes);
    let mut row = StringRecord::new(alloc);
    let mut spelled = no_words(alloc);
    next_row(&mut rows, &mut row)?;
    write_row(&mut text, version, &titles())?;
    for n in 1..trace.len() + 1 {
        next_row(&mut rows, &mut row)?;
        if is_kept(kept, n) {
            spell_kept(alloc, &mut spelled, kept, trace.message(n))?;
            write_row(&mut text, version, &fields_anew(&row, &spelled))?;
        }
    }
    finished(text)
}

/// Whether this message is one of those that are kept.
fn is_kept(kept: &[u32], message: u32) -> bool {
    kept.binary_search(&message).is_ok()
}

/// Spells the cost of a message, and its list by the numbers of those that are kept.
fn spell_kept(
    alloc: Global,
    spelled: &mut Spelled,
    kept: &[u32],
    message: &Message,
) -> Result<(), AllocError> {
    let list = list_among(alloc, kept, message.after.as_slice())?;
    let spelt = spell(spelled, u64::from(message.cost), list.as_slice());
    drop(list);
    spelt
}

/// Messages that are awaited, by their numbers among those that are kept; by 0 where they are not among them.
fn list_among(alloc: Global, kept: &[u32], list: &[Await]) -> Result<Vec<Await>, AllocError> {
    list.iter()
        .map(|one| Await {
            message: place_among(kept, one.message),
            gap: one.gap,
        })
        .collect(alloc)
}

/// The number of this message among those that are kept, 0 where it is not.
fn place_among(kept: &[u32], message: u32) -> u32 {
    match kept.binary_search(&message) {
        Ok(at) => u32::try_from(at.saturating_add(1)).unwrap_or(0),
        Err(_) => 0,
    }
}

/// Whether the second trace is the first one, cut down to the messages with these numbers. The plans are any of theirs.
pub(crate) fn is_cut(
    alloc: Global,
    kept: &[u32],
    trace: &Trace,
    plan: &Plan,
    cut: &Trace,
    cut_plan: &Plan,
) -> Result<bool, AllocError>
    requires timings { plan.now.timings ≡ timings_of trace.now.messages }
    requires cut_timings { cut_plan.now.timings ≡ timings_of cut.now.messages }
    ensures { IfOk result (λ is. OnTrue is (IsCutTo trace.now kept.now cut.now)) }
{
    if cut.version() != trace.version() || cut.len() as usize != kept.len() {
        return Ok(false);
    }
    for k in 1..cut.len() + 1 {
        if !is_cut_at(alloc, kept, trace, plan, cut, cut_plan, k)? {
            return Ok(false);
        }
    }
    Ok(true)
}

/// Whether message `k` of the second trace is the message of the first one that has its number among those that are kept.
fn is_cut_at(
    alloc: Global,
    kept: &[u32],
    trace: &Trace,
    plan: &Plan,
    cut: &Trace,
    cut_plan: &Plan,
    k: u32,
) -> Result<bool, AllocError>
    requires number { IsAmongFirst (length cut.now.messages) k }
    ensures told { IfOk result (λ is. OnTrue is (IsToldAmong kept.now
        (message_of trace.now.messages (number_at kept.now k)) (message_of cut.now.messages k))) }
    ensures issued { IfOk result (λ is. OnTrue is
        (IsIssuedAmong kept.now (work_in plan.now) (work_in cut_plan.now) k)) }
{
    let n = number_at(kept, k);
    if n == 0 || n > trace.len() {
        return Ok(false);
    }
    if !is_told_among(alloc, kept, trace.message(n), cut.message(k))? {
        return Ok(false);
    }
    is_issued_among(alloc, kept, plan, n, cut_plan, k)
}

/// Whether the second message is the first one as it is told among those that are kept.
fn is_told_among(
    alloc: Global,
    kept: &[u32],
    message: &Message,
    cut: &Message,
) -> Result<bool, AllocError>
    ensures { IfOk result (λ is. OnTrue is (IsToldAmong kept.now message.now cut.now)) }
{
    if !are_awaited_among(alloc, kept, message.after.as_slice(), cut.after.as_slice())? {
        return Ok(false);
    }
    Ok(has_fields_of(message, cut) && are_same(&message.ops, &cut.ops))
}

/// Whether the second message has the fields of the first but for what it awaits and its operations.
fn has_fields_of(message: &Message, cut: &Message) -> bool
    ensures name { OnTrue result (cut.now.name ≡ message.now.name) }
    ensures cost { OnTrue result (cut.now.cost ≡ message.now.cost) }
    ensures release { OnTrue result (cut.now.release ≡ message.now.release) }
    ensures client { OnTrue result (cut.now.client ≡ message.now.client) }
    ensures think { OnTrue result (cut.now.think ≡ message.now.think) }
{
    cut.name.as_str() == message.name.as_str()
        && cut.cost == message.cost
        && cut.release == message.release
        && cut.client.as_str() == message.client.as_str()
        && cut.think == message.think
}

/// Whether message `k` of those that are kept, by the one plan, is issued as message `n` of all, by the other.
fn is_issued_among(
    alloc: Global,
    kept: &[u32],
    plan: &Plan,
    n: u32,
    cut_plan: &Plan,
    k: u32,
) -> Result<bool, AllocError>
    requires at { n ≡ number_at kept.now k }
    ensures { IfOk result (λ is. OnTrue is
        (IsIssuedAmong kept.now (work_in plan.now) (work_in cut_plan.now) k)) }
{
    if n == 0 || n > plan.len() || k == 0 || k > cut_plan.len() {
        return Ok(false);
    }
    if !are_awaited_among(alloc, kept, plan.after(n), cut_plan.after(k))? {
        return Ok(false);
    }
    let follows = plan.follows(n);
    let cut_follows = cut_plan.follows(k);
    Ok(
        cut_plan.release(k) == plan.release(n)
            && cut_plan.think(k) == plan.think(n)
            && follows_among(kept, follows, cut_follows),
    )
}

/// Whether a message that is followed, 0 for none, is this one among those that are kept.
fn follows_among(kept: &[u32], follows: u32, cut: u32) -> bool
    ensures { OnTrue result (map (await_kept kept.now) (await_of cut 0) ≡ await_of follows 0) }
{
    if cut == 0 {
        follows == 0
    } else {
        follows != 0 && number_at(kept, cut) == follows
    }
}

/// Whether the second list is the first, of messages that are awaited, by their numbers among those that are kept.
fn are_awaited_among(
    alloc: Global,
    kept: &[u32],
    awaits: &[Await],
    cut: &[Await],
) -> Result<bool, AllocError>
    ensures { IfOk result (λ are. OnTrue are (map (await_kept kept.now) cut.now ≡ awaits.now)) }
{
    let found = awaits_kept(alloc, kept, cut)?;
    let are = are_same_awaited(found.as_slice(), awaits);
    drop(found);
    Ok(are)
}

/// What is awaited, by numbers among all messages.
fn awaits_kept(alloc: Global, kept: &[u32], cut: &[Await]) -> Result<Vec<Await>, AllocError>
    ensures { IfOk result (λ awaits. awaits.items ≡ map (await_kept kept.now) cut.now) }
{
    cut.iter().map(|one| await_kept(kept, *one)).collect(alloc)
}

/// The same of one.
fn await_kept(kept: &[u32], one: Await) -> Await
    ensures { result ≡ await_kept kept.now one }
{
    Await {
        message: number_at(kept, one.message),
        gap: one.gap,
    }
}

/// The number, among all messages, of message `k` of those that are kept; 0 where there is none.
fn number_at(kept: &[u32], k: u32) -> u32
    ensures { result ≡ number_at kept.now k }
{
    match kept.get((k as usize).saturating_sub(1)) {
        Some(n) => *n,
        None => 0,
    }
}

/// Whether two lists of messages that are awaited are the same.
fn are_same_awaited(after: &[Await], other: &[Await]) -> bool
    ensures { OnTrue result (after.now ≡ other.now) }
{
    after == other
}

/// Whether two lists of operations are the same.
fn are_same(ops: &Ops, other: &Ops) -> bool
    ensures { OnTrue result (ops.now ≡ other.now) }
{
    if ops.len() != other.len() {
        return false;
    }
    for at in 0..ops.len() {
        if ops.get(at) != other.get(at) {
            return false;
        }
    }
    true
}
