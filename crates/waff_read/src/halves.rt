//! Long traces: the text is cut in parts, which a thread each reads. Where a part has a fault the
//! whole is read again by one thread, which tells the first fault.

ghost use Rattle.std.specs.Prelude.{◌≡◌, ◌+◌, ◌≤◌, ◌++◌, true, false, Ok, length};
ghost use Rattle.std.specs.Prelude.{IsTrue, IfOk, IfSome};
ghost use Rattle.std.specs.Thread.{IsSync};
ghost use Rattle.waff_model.specs.Awaits.{awaited_in};
ghost use Rattle.waff_model.specs.Messages.{ops_in, sizes_of};
ghost use Rattle.waff_model.specs.Versions.{has_after, max_messages};
ghost use Rattle.waff_model.specs.declared.limits.TheConstants.{MAX_ALL_OPS, MAX_AWAITED};
ghost use Rattle.waff_read.specs.Traces as traces;

use crate::lines::cut_lines;
use crate::place::FIRST;
use crate::plain::read_plain;
use crate::space_table::SpaceTable;
use crate::trace::{Messages, read_bytes, read_messages, read_trace_up_to};
use crate::trace_fault::TraceError;
use csv::StringRecord;
use memchr::memchr_iter;
use std::alloc::Global;
use std::thread;
use std::thread::Threads;
use waff_model::limits::{MAX_ALL_OPS, MAX_AWAITED};
use waff_model::{Layout, Parts, Trace, Version};
use waff_parse::text_rows;

/// A text of fewer bytes is read by one thread.
const LONG: usize = 256 * 1024;

/// How often a long text is halved.
const HALVINGS: u32 = 2;

// The messages of all records of a text, the first of which has this number; none where one has a
// fault.
fn read_part(
    alloc: Global,
    spaces: &SpaceTable<'_>,
    version: Version,
    at: u64,
    text: &[u8],
) -> Option<Messages>
    ensures messages { IfSome result (λ read.
        traces.Spells version spaces.now at text.now read.list) }
    ensures ops { IfSome result (λ read. read.ops ≡ ops_in read.list) }
    ensures awaited { IfSome result (λ read. read.awaited ≡ awaited_in read.list) }
{
    if let Some(messages) = read_plain(alloc, spaces, version, at, text) {
        return Some(messages);
    }
    let mut rdr = text_rows(alloc, text);
    let mut row = StringRecord::new(alloc);
    read_messages(alloc, spaces, version, at, &mut rdr, &mut row).ok()
}

// The sum of two numbers, where it is no more than the most.
fn sum_within(most: usize, first: usize, second: usize) -> Option<usize>
    ensures sum { IfSome result (λ sum. sum ≡ first + second) }
    ensures within { IfSome result (λ sum. sum ≤ most) }
{
    let sum = first.checked_add(second)?;
    if most < sum { None } else { Some(sum) }
}

// The messages of two parts, one behind the other; none where they, their operations or their lists
// are too many.
fn joined(version: Version, first: Messages, second: Messages) -> Option<Messages>
    requires first_ops { first.ops ≡ ops_in first.list }
    requires second_ops { second.ops ≡ ops_in second.list }
    requires first_awaited { first.awaited ≡ awaited_in first.list }
    requires second_awaited { second.awaited ≡ awaited_in second.list }
    ensures both { IfSome result (λ all. all.list ≡ first.list ++ second.list) }
    ensures few_ops { IfSome result (λ all. ops_in all.list ≤ MAX_ALL_OPS) }
    ensures few_awaited { IfSome result (λ all. awaited_in all.list ≤ MAX_AWAITED) }
    ensures ops { IfSome result (λ all. all.ops ≡ ops_in all.list) }
    ensures awaited { IfSome result (λ all. all.awaited ≡ awaited_in all.list) }
{
    sum_within(version.max_messages(), first.list.len(), second.list.len())?;
    let ops = sum_within(MAX_ALL_OPS, first.ops, second.ops)?;
    let awaited = sum_within(MAX_AWAITED, first.awaited, second.awaited)?;
    let list = Parts::joined(first.list, second.list).ok()?;
    Some(Messages { list, ops, awaited })
}

// The number that the first record behind a text probably has, whose own first has this one: a line
// is a record, unless lines are blank or quoted. Without lists numbers of records count for nothing.
fn number_behind(version: Version, at: u64, text: &[u8]) -> u64
    ensures { has_after version ≡ false → result ≡ at }
{
    if version.has_after() {
        at.saturating_add(memchr_iter(b'\n', text).count() as u64)
    } else {
        at
    }
}

// Whether the messages of two parts, the first records of which were taken to have these numbers,
// may be those of both: the numbers are right, so far as they count, and none is one too many.
fn is_behind(version: Version, at: u64, first: &Messages, behind: u64, second: &Messages) -> bool
    ensures number { IsTrue result → has_after version ≡ true
        → behind ≡ at + length first.now.list }
    ensures few { IsTrue result
        → at + length first.now.list + length second.now.list ≤ max_messages version + 2 }
{
    let next = at.saturating_add(first.list.len() as u64);
    let last = next.saturating_add(second.list.len() as u64);
    (!version.has_after() || behind == next) && last <= version.max_messages() as u64 + FIRST
}

// The same as by one thread, read by a thread for each part of a text that is halved so often. A
// list names messages by numbers in the whole, so a part with lists is read for the number that its
// first record probably has, and none is read where it has another one.
#[cycle(halves)]
fn read_halves<R: Threads + Sync>(
    rt: &R,
    alloc: Global,
    spaces: &SpaceTable<'_>,
    version: Version,
    at: u64,
    text: &[u8],
    halvings: u32,
) -> Option<Messages>
    ensures messages { IfSome result (λ read.
        traces.Spells version spaces.now at text.now read.list) }
    ensures ops { IfSome result (λ read. read.ops ≡ ops_in read.list) }
    ensures awaited { IfSome result (λ read. read.awaited ≡ awaited_in read.list) }
{
    if halvings == 0 {
        return read_part(alloc, spaces, version, at, text);
    }
    let (first, second) = cut_lines(text, text.len() / 2)?;
    let behind = number_behind(version, at, first);
    let front = move || -> Option<Messages>
        requires { IsSync R.row × (1 ≤ halvings) }
        ensures messages { IfSome result (λ read.
            traces.Spells version spaces.entry.now at first.entry.now read.list) }
        ensures ops { IfSome result (λ read. read.ops ≡ ops_in read.list) }
        ensures awaited { IfSome result (λ read. read.awaited ≡ awaited_in read.list) }
    { read_halves(rt, alloc, spaces, version, at, first, halvings - 1) };
    let back = move || -> Option<Messages>
        requires { IsSync R.row × (1 ≤ halvings) }
        ensures messages { IfSome result (λ read.
            traces.Spells version spaces.entry.now behind second.entry.now read.list) }
        ensures ops { IfSome result (λ read. read.ops ≡ ops_in read.list) }
        ensures awaited { IfSome result (λ read. read.awaited ≡ awaited_in read.list) }
    { read_halves(rt, alloc, spaces, version, behind, second, halvings - 1) };
    let (first, second) = thread::join(rt, front, back);
    let first = first?;
    let second = second?;
    if !is_behind(version, at, &first, behind, &second) {
        return None;
    }
    joined(version, first, second)
}

// The trace that a text spells; none where it has a fault, or can't be cut.
fn read_long<R: Threads + Sync>(
    rt: &R,
    alloc: Global,
    layout: &Layout,
    newest: Version,
    text: &[u8],
) -> Option<Trace>
    ensures { IfSome result (λ trace.
        traces.trace_of newest layout.now.spaces text.now ≡ Ok trace) }
{
    let spaces = SpaceTable::new(alloc, layout).ok()?;
    let (first, rows) = cut_lines(text, 0)?;
    let header = read_bytes(alloc, &spaces, newest, first).ok()?;
    if header.len() > 0 {
        return None;
    }
    let version = header.version();
    let messages = read_halves(rt, alloc, &spaces, version, FIRST, rows, HALVINGS)?;
    Trace::of_messages(alloc, layout, version, messages.list).ok()
}

/// The trace that the bytes spell, as `read_trace` reads it, but read by several threads where the
/// text is long and has no fault.
pub fn read_trace_by_threads<R: Threads + Sync>(
    rt: &R,
    alloc: Global,
    layout: &Layout,
    newest: Version,
    bytes: &[u8],
) -> Result<Trace, TraceError>
    ensures exact { traces.GivesTrace result (traces.trace_of newest layout.now.spaces bytes.now) }
    ensures fits { IfOk result (λ trace. trace.sizes ≡ sizes_of layout.now.spaces) }
{
    if LONG <= bytes.len() {
        if let Some(trace) = read_long(rt, alloc, layout, newest, bytes) {
            return Ok(trace);
        }
    }
    read_trace_up_to(alloc, layout, newest, bytes)
}
