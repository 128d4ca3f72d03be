//! A trace that is refused.

ghost use Rattle.std.specs.Prelude.{IfOk, string_bytes};
ghost use Rattle.waff_explain.specs.Lines.{AreHeadedLines};

use crate::fields::{
    push_no_commas, push_no_name, push_no_number, push_no_plain, push_no_text, push_too_many,
};
use crate::lists::{push_many_pieces, push_no_list};
use crate::operations::{count_ops, flaw_of};
use crate::say;
use crate::walk::Walk;
use crate::words::Words;
use std::alloc::{AllocError, Global};
use waff_model::limits::{MAX_ALL_OPS, MAX_COST, MAX_RELEASE, MAX_THINK};
use waff_model::{Layout, Version};
use waff_read::TraceError;

/// The line that begins a table of an affinity.
const AFFINITY: &str = "[[affinity]]";

/// Where the fault is for which the trace is refused under the layout, what was found and what is
/// wanted, of the versions of traces up to the newest.
pub fn trace_words(
    alloc: Global,
    layout: &Layout,
    newest: Version,
    trace: &[u8],
    fault: TraceError,
) -> Result<String, AllocError>
    ensures { IfOk result (λ text. AreHeadedLines (string_bytes text)) }
{
    let mut words = Words::new(alloc);
    push_refusal(&mut words, layout, newest, trace, fault);
    words.finish()
}

/// Appends the record that has the fault, what was found and what is wanted.
fn push_refusal(
    words: &mut Words,
    layout: &Layout,
    newest: Version,
    trace: &[u8],
    fault: TraceError,
) {
    let mut walk = Walk::new(words.alloc(), trace);
    walk.next();
    let version = version_of(walk.len());
    walk.push_record(words, "trace", record_of(fault));
    match fault {
        TraceError::Header { .. } => {
            push_no_header(words, newest);
            push_no_trace(words, &mut walk);
        }
        _ => push_fault(words, layout, version, &walk, fault),
    }
    if record_of(fault) == 1 {
        push_no_plain(words, trace);
    }
    walk.end(words);
}

/// The version of a trace whose header has so many fields.
fn version_of(fields: usize) -> Version {
    match fields {
        3 => Version::V1,
        4 => Version::V2,
        7 => Version::V4,
        _ => Version::V3,
    }
}

/// How many fields a record of the version has.
fn fields_of(version: Version) -> usize {
    match version {
        Version::V1 => 3,
        Version::V2 => 4,
        Version::V3 => 6,
        Version::V4 => 7,
    }
}

/// Appends that there is no header, and which there may be, up to that of the newest version.
fn push_no_header(words: &mut Words, newest: Version) {
    say!(words; Found: "no header");
    match newest {
        Version::V1 | Version::V2 =>
            say!(words; Wanted: "the header message,cost,ops or message,cost,release,ops"),
        Version::V3 =>
            say!(words; Wanted: "the header message,cost,ops, message,cost,release,ops or message,cost,release,client,think,ops"),
        Version::V4 =>
            say!(words; Wanted: "the header message,cost,ops, message,cost,release,ops, message,cost,release,client,think,ops or message,cost,release,client,think,after,ops"),
    }
}

/// Appends a guess at why the record is no header: other bytes in place of commas, or a hierarchy
/// in the place of the trace, where this record or one behind it begins a table of an affinity.
fn push_no_trace(words: &mut Words, walk: &mut Walk<'_>) {
    push_no_commas(words, walk);
    if walk.field(0) == AFFINITY || walk.find(AFFINITY) {
        say!(words; Found: "perhaps a hierarchy: the trace comes behind it");
    }
}

/// The number of the record that a fault tells.
fn record_of(fault: TraceError) -> u64 {
    match fault {
        TraceError::Csv { at }
        | TraceError::Header { at }
        | TraceError::Fields { at }
        | TraceError::Name { at }
        | TraceError::Cost { at }
        | TraceError::NoOps { at }
        | TraceError::Op { at }
        | TraceError::SpaceUnknown { at }
        | TraceError::IndexTooLarge { at }
        | TraceError::TooManyOps { at }
        | TraceError::TooManyMessages { at }
        | TraceError::Release { at }
        | TraceError::Client { at }
        | TraceError::Think { at }
        | TraceError::After { at }
        | TraceError::TooManyAfter { at } => at,
        TraceError::Memory => 0,
    }
}

/// Appends what was found and what is wanted of the record at which the walk stands, in a trace of
/// this version.
fn push_fault(
    words: &mut Words,
    layout: &Layout,
    version: Version,
    walk: &Walk<'_>,
    fault: TraceError,
) {
    let fields = fields_of(version);
    match fault {
        TraceError::Csv { .. } => push_no_text(words, walk),
        TraceError::Fields { .. } => {
            say!(words; Found: "fields: {}", walk.len());
            say!(words; Wanted: "fields: {}, as the header has", fields);
        }
        TraceError::Name { .. } => push_no_name(words, "name", walk.field(0)),
        TraceError::Cost { .. } => {
            push_no_number(words, "cost", walk.field(1), 1, u64::from(MAX_COST))
        }
        TraceError::Release { .. } => {
            push_no_number(words, "release", walk.field(2), 0, u64::from(MAX_RELEASE))
        }
        TraceError::Client { .. } => push_no_name(words, "client", walk.field(3)),
        TraceError::Think { .. } => {
            push_no_number(words, "think time", walk.field(4), 0, u64::from(MAX_THINK))
        }
        TraceError::After { at } => push_no_list(words, at.saturating_sub(1), walk.field(5)),
        TraceError::TooManyAfter { .. } => push_many_pieces(words, walk.field(5)),
        TraceError::TooManyMessages { at } => {
            say!(words; Found: "message {}", at.saturating_sub(1));
            say!(words; Wanted: "{} messages or fewer", version.max_messages());
        }
        _ => push_no_ops(
            words,
            layout,
            version,
            walk.field(fields.saturating_sub(1)),
            fault,
        ),
    }
}

/// Appends what is wrong with the operations of a message.
fn push_no_ops(words: &mut Words, layout: &Layout, version: Version, ops: &str, fault: TraceError) {
    match fault {
        TraceError::NoOps { .. } => {
            say!(words; Found: "no operation");
            say!(words; Wanted: "1 to {} operations joined by `;`", version.max_ops());
        }
        TraceError::TooManyOps { .. } => push_many_ops(words, version, ops),
        _ => push_flaw(words, layout, version, ops, fault),
    }
}

/// Appends that there are too many operations: of the message, or else of all messages so far.
fn push_many_ops(words: &mut Words, version: Version, ops: &str) {
    let found = count_ops(version, ops);
    let most = version.max_ops();
    if (most as u64) < found {
        return push_too_many(words, "operations", found, most);
    }
    say!(words; Found: "{} operations, with which all messages have more than {}", found, MAX_ALL_OPS);
    say!(words; Wanted: "{} operations or fewer of all messages", MAX_ALL_OPS);
}

/// Appends which operation has the fault, and which.
fn push_flaw(words: &mut Words, layout: &Layout, version: Version, ops: &str, fault: TraceError) {
    let mut number: u64 = 0;
    for piece in ops.split(';') {
        number = number.saturating_add(1);
        if let Some(flaw) = flaw_of(layout, version, piece, fault) {
            return flaw.push_words(words, number, piece);
        }
    }
}
