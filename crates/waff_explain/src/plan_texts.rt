//! The text of a plan that is refused.

ghost use Rattle.std.specs.Prelude.{IfOk, string_bytes};
ghost use Rattle.waff_explain.specs.Lines.{AreHeadedLines};

use crate::fields::{push_no_commas, push_no_name, push_no_number, push_no_plain, push_no_text};
use crate::say;
use crate::walk::{Walk, find_behind_header};
use crate::words::Words;
use std::alloc::{AllocError, Global};
use waff_model::limits::{MAX_TICK, MAX_WORKERS};
use waff_model::{Trace, Version, is_name};
use waff_parse::{number, number_within};
use waff_plan_text::{COLUMNS, PlanTextError};

/// Where the fault is for which the text of a plan of the trace is refused, what was found and what
/// is wanted.
pub fn plan_text_words(
    alloc: Global,
    trace: &Trace,
    plan: &[u8],
    fault: PlanTextError,
) -> Result<String, AllocError>
    ensures { IfOk result (λ text. AreHeadedLines (string_bytes text)) }
{
    let mut words = Words::new(alloc);
    push_refusal(&mut words, trace.version(), trace.len(), plan, fault);
    words.finish()
}

/// Appends the record that has the fault, what was found and what is wanted.
fn push_refusal(
    words: &mut Words,
    version: Version,
    messages: u32,
    bytes: &[u8],
    fault: PlanTextError,
) {
    let summary = summary_of(words, bytes);
    let at = record_of(fault, summary);
    let mut walk = Walk::new(words.alloc(), bytes);
    walk.push_record(words, "plan", at);
    match fault {
        PlanTextError::Twice { .. } => push_twice(words, bytes, walk.field(0)),
        PlanTextError::Summary { .. } => {
            push_no_line(words, version, messages, at.saturating_sub(summary))
        }
        _ => push_fault(words, messages, &walk, fault),
    }
    push_guess(words, messages, summary.saturating_sub(2), &walk, fault);
    if at == 1 {
        push_no_plain(words, bytes);
    }
    walk.end(words);
}

/// Appends a guess at why a text is refused that has so many rows: other bytes in place of commas, or
/// the plan of another trace.
fn push_guess(words: &mut Words, messages: u32, rows: u64, walk: &Walk<'_>, fault: PlanTextError) {
    match fault {
        PlanTextError::Header { .. } => push_no_commas(words, walk),
        PlanTextError::Row { .. } if is_longer(messages, rows, walk.field(0)) => push_other_trace(
            words, messages, rows,
        ),
        PlanTextError::Missing { message } if u64::from(message) == rows.saturating_add(1) =>
            push_other_trace(words, messages, rows),
        _ => {}
    }
}

/// Whether there are more rows than messages, and the number of a row is that of no message.
fn is_longer(messages: u32, rows: u64, field: &str) -> bool {
    u64::from(messages) < rows
        && number(field).is_some()
        && number_within(field, 0, u64::from(messages)).is_none()
}

/// Appends the guess that the plan is one of another trace.
fn push_other_trace(words: &mut Words, messages: u32, rows: u64) {
    say!(words; Found: "perhaps the plan of another trace: it has {} rows, and the trace {} messages",
        rows, messages);
}

/// Appends what was found and what is wanted of the record at which the walk stands.
fn push_fault(words: &mut Words, messages: u32, walk: &Walk<'_>, fault: PlanTextError) {
    match fault {
        PlanTextError::Csv { .. } => push_no_text(words, walk),
        PlanTextError::Header { .. } => {
            say!(words; Found: "no header");
            let [message, affinity, start, finish, worker] = COLUMNS;
            say!(words; Wanted: "the header {},{},{},{},{}",
                message, affinity, start, finish, worker);
        }
        PlanTextError::Row { .. } => push_no_row(words, messages, walk),
        PlanTextError::Missing { message } => {
            say!(words; Found: "no row of message {}", message);
            say!(words; Wanted: "a row of each message from 1 to {}", messages);
        }
        PlanTextError::TooLarge { .. } => push_too_large(words, walk),
        _ => {}
    }
}

/// The number of the record that a fault tells; of a message without a row, that of the record at
/// which the summary begins.
fn record_of(fault: PlanTextError, summary: u64) -> u64 {
    match fault {
        PlanTextError::Csv { at }
        | PlanTextError::Header { at }
        | PlanTextError::Row { at }
        | PlanTextError::Twice { at }
        | PlanTextError::Summary { at }
        | PlanTextError::TooLarge { at } => at,
        PlanTextError::Missing { .. } | PlanTextError::Memory => summary,
    }
}

/// The number of the record at which the summary begins, or would begin at the end.
fn summary_of(words: &mut Words, bytes: &[u8]) -> u64 {
    let (at, is_found) = find_behind_header(words, bytes, "workers");
    if is_found { at } else { at.saturating_add(1) }
}

/// Appends what the record has that no row has.
fn push_no_row(words: &mut Words, messages: u32, walk: &Walk<'_>) {
    let fields = walk.len();
    if fields != 5 {
        say!(words; Found: "fields: {}", fields);
        return say!(words; Wanted:
            "five fields: a message, an affinity, a start, a finish and a worker");
    }
    if number_within(walk.field(0), 1, u64::from(messages)).is_none() {
        return push_no_number(words, "message", walk.field(0), 1, u64::from(messages));
    }
    if !is_name(walk.field(1)) {
        return push_no_name(words, "affinity", walk.field(1));
    }
    push_no_times(words, walk);
}

/// Appends which of the last three fields of a row is wrong.
fn push_no_times(words: &mut Words, walk: &Walk<'_>) {
    if number(walk.field(2)).is_none() {
        return push_no_number(words, "start", walk.field(2), 0, MAX_TICK);
    }
    if number(walk.field(3)).is_none() {
        return push_no_number(words, "finish", walk.field(3), 0, MAX_TICK);
    }
    say!(words; Found: "the worker `{}`", walk.bytes(4));
    say!(words; Wanted: "a number without a leading zero, or `-` in a plan without workers");
}

/// Appends which record is the first row of the message.
fn push_twice(words: &mut Words, bytes: &[u8], message: &str) {
    let (first, _) = find_behind_header(words, bytes, message);
    say!(words; Found: "a row of message {}, which has one in record {}", message, first);
    say!(words; Wanted: "one row of each message");
}

/// Appends which field is above the limit.
fn push_too_large(words: &mut Words, walk: &Walk<'_>) {
    if let Some(place) = too_large(walk) {
        let found = walk.bytes(place);
        let number = place.saturating_add(1);
        say!(words; Found: "the number {} in field {}", found, number);
        say!(words; Wanted: "a number from 0 to {}", MAX_TICK);
    }
}

/// The first field behind the first that is a number above the limit.
fn too_large(walk: &Walk<'_>) -> Option<usize> {
    (1..walk.len()).find(|place| {
        let field = walk.field(*place);
        number(field).is_some() && number_within(field, 0, MAX_TICK).is_none()
    })
}

/// Appends which line of the summary was wanted, by how many come before it.
fn push_no_line(words: &mut Words, version: Version, messages: u32, before: u64) {
    say!(words; Found: "another record than the next of the summary, or none");
    let place = match version {
        Version::V1 if before > 3 => before.saturating_add(1),
        _ => before,
    };
    match place {
        0 => say!(words; Wanted: "`workers,-`, or `workers,K` with K from 1 to {}", MAX_WORKERS),
        1 => say!(words; Wanted: "`total,N`"),
        2 => say!(words; Wanted: "`length,N`"),
        3 => say!(words; Wanted:
            "`chain,` and numbers from 1 to {} joined by one space, {} of them or fewer",
            messages, messages),
        4 => say!(words; Wanted: "`release,N`"),
        5 => say!(words; Wanted: "`cost,N`"),
        6 => say!(words; Wanted: "`bound,N,N`"),
        _ => say!(words; Wanted: "the end of the text"),
    }
}
