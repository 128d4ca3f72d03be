//! A verdict, with the messages that it names.

ghost use Rattle.std.specs.Prelude.{◌≡◌, ◌≤◌, IfOk, length, string_bytes};
ghost use Rattle.waff_model.specs.Numbers.{IsAmongFirst};
ghost use Rattle.waff_assign.specs.Case.{instance_of};
ghost use Rattle.waff_plan.specs.Timing.{timing_of};
ghost use Rattle.waff_check.specs.Verdicts.{IsFound, IsVerdict, claim_of};
ghost use Rattle.waff_explain.specs.Lines.{AreHeadedLines};

use crate::hearing::Hearing;
use crate::say;
use crate::sizes::push_sizes;
use crate::walk::push_line;
use crate::words::Words;
use std::alloc::{AllocError, Global};
use waff_assign::Case;
use waff_check::Verdict;
use waff_model::{Await, Layout};
use waff_plan::Totals;
use waff_plan_text::GivenPlan;

/// What the verdict tells of the plan that was given for the case, whose text these bytes are: where
/// a fault is, the messages that it names, what was found and what is wanted, or else how good the
/// plan is and how much there is under the layout.
pub fn verdict_words(
    alloc: Global,
    layout: &Layout,
    case: &Case<'_>,
    given: &GivenPlan,
    plan: &[u8],
    verdict: Verdict,
) -> Result<String, AllocError>
    requires rows { length given.now.rows ≡ length case.now.trace.now.messages }
    requires verdict { IsVerdict (claim_of (instance_of case.now) given.now) verdict }
    ensures { IfOk result (λ text. AreHeadedLines (string_bytes text)) }
{
    let made = given.plan(alloc, case.trace)?;
    let mut words = Words::new(alloc);
    let hearing = Hearing {
        case: *case,
        given,
        plan: &made,
        bytes: plan,
    };
    push_finding(&mut words, layout, &hearing, verdict);
    drop(made);
    words.finish()
}

fn push_finding(words: &mut Words, layout: &Layout, hearing: &Hearing<'_>, verdict: Verdict)
    requires { IsFound (claim_of (instance_of hearing.now.case) hearing.now.given.now) verdict }
{
    let _messages = hearing.case.trace.len();
    match verdict {
        Verdict::Overlap { first, second } => push_overlap(words, layout, hearing, first, second),
        Verdict::TooManyAt { tick } => push_crowd(words, hearing, tick),
        Verdict::Worker { message } => push_worker(words, hearing, message),
        Verdict::Affinity { message } => push_affinity(words, hearing, message),
        Verdict::Finish { message } => push_finish(words, hearing, message),
        Verdict::Totals => push_totals(words, hearing),
        Verdict::NotAChain { place } => push_no_link(words, hearing, place),
        Verdict::Early { message } => push_early(words, hearing, message),
        Verdict::Client { message } => push_client(words, hearing, message),
        Verdict::After { message, awaited } => push_after(words, hearing, message, awaited),
        Verdict::Obeys | Verdict::Shortest | Verdict::Tight | Verdict::WithinBound => {
            push_no_fault(words, hearing, verdict);
            push_sizes(words, layout, Some(hearing.case.trace));
        }
    }
}

/// Appends two messages that overlap, and why they must not: the second starts before the first, which
/// comes earlier in the trace, has finished, or where messages have clients both run at a common tick,
/// whichever starts first.
fn push_overlap(words: &mut Words, layout: &Layout, hearing: &Hearing<'_>, first: u32, second: u32)
    requires first { IsAmongFirst (length hearing.now.case.trace.now.messages) first }
    requires second { IsAmongFirst (length hearing.now.case.trace.now.messages) second }
{
    let (one, other) = (hearing.message(first), hearing.message(second));
    let has_clients = hearing.version().has_clients();
    hearing.push_message(words, &one);
    hearing.push_message(words, &other);
    if has_clients {
        let (from, to) = one.together(&other);
        say!(words; Found: "messages {} and {} both run from {} to {}", first, second, from, to);
    } else {
        say!(words; Found: "message {} starts at {}, before message {} has finished at {}",
            second, other.row.start, first, one.end());
    }
    hearing.push_exclusion(words, layout, first, second);
    if has_clients {
        say!(words; Wanted: "one of messages {} and {} starts when the other has finished",
            first, second);
    } else {
        say!(words; Wanted: "message {} starts at {} or later", second, one.end());
    }
}

/// Appends the messages that run at a tick, one more than there are workers.
fn push_crowd(words: &mut Words, hearing: &Hearing<'_>, tick: u64) {
    let workers = hearing.workers();
    say!(words; Where: "plan, tick {}", tick);
    let running = push_running(words, hearing, tick, workers);
    say!(words; Found: "running at tick {}: {}", tick, running);
    say!(words; Wanted: "{} or fewer, the number of workers", workers);
}

/// Appends the first messages that run at a tick, one more than this many; how many run.
fn push_running(words: &mut Words, hearing: &Hearing<'_>, tick: u64, many: u32) -> u32 {
    let mut running: u32 = 0;
    for number in 1..hearing.case.trace.len() + 1 {
        let heard = hearing.message(number);
        if heard.runs_at(tick) {
            if running <= many {
                heard.push_facts(words, hearing.version());
            }
            running = running.saturating_add(1);
        }
    }
    running
}

/// Appends why the worker of a message is wrong.
fn push_worker(words: &mut Words, hearing: &Hearing<'_>, message: u32)
    requires { IsAmongFirst (length hearing.now.case.trace.now.messages) message }
{
    let workers = u64::from(hearing.workers());
    let heard = hearing.message(message);
    hearing.push_message(words, &heard);
    let Some(worker) = heard.row.worker else {
        say!(words; Found: "no worker");
        return say!(words; Wanted: "a worker from 1 to {}, as the plan has workers", workers);
    };
    if 1 <= worker && worker <= workers {
        return push_taken(words, hearing, message, worker);
    }
    say!(words; Found: "worker {}", worker);
    if workers == 0 {
        say!(words; Wanted: "`-`, as the plan has no workers");
    } else {
        say!(words; Wanted: "a worker from 1 to {}", workers);
    }
}

/// Appends which message of lower number the worker runs at a tick of the message.
fn push_taken(words: &mut Words, hearing: &Hearing<'_>, message: u32, worker: u64)
    requires { IsAmongFirst (length hearing.now.case.trace.now.messages) message }
{
    let heard = hearing.message(message);
    for number in 1..message {
        let other = hearing.message(number);
        let (from, to) = heard.together(&other);
        if other.row.worker == Some(worker) && from < to {
            hearing.push_message(words, &other);
            say!(words; Found: "worker {} runs message {} at a tick of message {}",
                worker, number, message);
            return say!(words; Wanted: "a worker that runs no message of lower number at that time");
        }
    }
}

fn push_affinity(words: &mut Words, hearing: &Hearing<'_>, message: u32)
    requires { IsAmongFirst (length hearing.now.case.trace.now.messages) message }
{
    let heard = hearing.message(message);
    hearing.push_message(words, &heard);
    say!(words; Found: "the affinity {}", heard.row.affinity.as_str());
    let assigned = hearing.case.assigned;
    if assigned.affinity(message).is_none() {
        say!(words; Wanted: "`-`, as all cells of message {} have locks", message);
    } else if assigned.is_unlocked() {
        say!(words; Wanted: "the affinity {}, the lowest one that covers the cells of message {}",
            heard.affinity, message);
    } else {
        say!(words; Wanted: "the affinity {}, the lowest one that covers those cells of message {} \
            that have no locks", heard.affinity, message);
    }
}

fn push_finish(words: &mut Words, hearing: &Hearing<'_>, message: u32)
    requires { IsAmongFirst (length hearing.now.case.trace.now.messages) message }
{
    let heard = hearing.message(message);
    hearing.push_message(words, &heard);
    say!(words; Found: "the finish {}", heard.row.finish);
    say!(words; Wanted: "the finish {}, which is start and cost", heard.end());
}

fn push_early(words: &mut Words, hearing: &Hearing<'_>, message: u32)
    requires { IsAmongFirst (length hearing.now.case.trace.now.messages) message }
{
    let heard = hearing.message(message);
    hearing.push_message(words, &heard);
    let found = if hearing.version().has_clients() {
        "any plan issues it"
    } else {
        "its release"
    };
    say!(words; Found: "message {} starts at {}, before {}", message, heard.row.start, found);
    say!(words; Wanted: "message {} starts at {} or later", message, hearing.plan.release(message));
}

/// Appends the message before another of its client, and when that one has finished.
fn push_client(words: &mut Words, hearing: &Hearing<'_>, message: u32)
    requires number { IsAmongFirst (length hearing.now.case.trace.now.messages) message }
    requires follows { 1 ≤ (timing_of hearing.now.plan.now.timings message).follows }
{
    let (before, think) = (hearing.plan.follows(message), hearing.plan.think(message));
    let (heard, first) = (hearing.message(message), hearing.message(before));
    hearing.push_message(words, &first);
    hearing.push_message(words, &heard);
    say!(words; Found:
        "message {} starts at {}, and message {}, the one before it of client {}, has finished at {}",
        message, heard.row.start, before, heard.message.client.as_str(), first.end());
    say!(words; Wanted: "message {} starts at {} or later, its think time of {} after that",
        message, first.end().saturating_add(think), think);
}

/// Appends a message of another one's list, and when it has finished.
fn push_after(words: &mut Words, hearing: &Hearing<'_>, message: u32, awaited: u32)
    requires number { IsAmongFirst (length hearing.now.case.trace.now.messages) message }
    requires awaited { IsAmongFirst (length hearing.now.case.trace.now.messages) awaited }
{
    let (heard, first) = (hearing.message(message), hearing.message(awaited));
    let gap = gap_behind(heard.message.after.as_slice(), awaited);
    hearing.push_message(words, &first);
    hearing.push_message(words, &heard);
    say!(words; Found:
        "message {} starts at {}, and message {}, which stands in its `after`, has finished at {}",
        message, heard.row.start, awaited, first.end());
    say!(words; Wanted: "message {} starts at {} or later, the gap of {} after that",
        message, first.end().saturating_add(gap), gap);
}

/// The gap behind this message of a list, 0 where it does not stand there.
fn gap_behind(after: &[Await], message: u32) -> u64 {
    for awaited in after {
        if awaited.message == message {
            return u64::from(awaited.gap);
        }
    }
    0
}

/// Appends the lines of the summary that are wrong.
fn push_totals(words: &mut Words, hearing: &Hearing<'_>) {
    push_line(words, hearing.bytes, "workers");
    push_differences(words, hearing.given.summary().totals, hearing.totals());
}

fn push_differences(words: &mut Words, told: Totals, made: Totals) {
    push_difference(words, "total", told.total, made.total);
    push_difference(words, "length", told.length, made.length);
    push_difference(words, "release", told.release, made.release);
    push_difference(words, "cost", told.cost, made.cost);
    push_difference(words, "first side of the bound", told.left, made.left);
    push_difference(words, "second side of the bound", told.right, made.right);
}

fn push_difference(words: &mut Words, what: &str, told: u64, made: u64) {
    if told != made {
        say!(words; Found: "the {} {}", what, told);
        say!(words; Wanted: "the {} {}", what, made);
    }
}

/// Appends two neighbours of the chain, the second at this place from 1, to which no link goes from the
/// first.
fn push_no_link(words: &mut Words, hearing: &Hearing<'_>, place: u64)
    requires from { 2 ≤ place }
    requires to { place ≤ length hearing.now.given.now.summary.chain }
{
    let chain = hearing.given.chain();
    let (before, message) = (chain[place as usize - 2], chain[place as usize - 1]);
    push_line(words, hearing.bytes, "chain");
    let version = hearing.version();
    hearing.message(before).push_facts(words, version);
    hearing.message(message).push_facts(words, version);
    let late = if version.has_clients() {
        hearing.exclude(before, message).then_some("start")
    } else {
        (message <= before).then_some("come")
    };
    match late {
        Some(verb) => say!(words; Found:
            "message {} at place {} of the chain, which does not {} after message {}",
            message, place, verb, before),
        None if hearing.case.assigned.is_unlocked() => say!(words; Found:
            "message {} at place {} of the chain, whose affinity and that of message {} do not \
             exclude each other",
            message, place, before),
        None => say!(words; Found:
            "message {} at place {} of the chain, which and message {} do not exclude each other",
            message, place, before),
    }
    push_wanted_link(words, hearing, before);
}

/// Appends what should stand behind this message of a chain.
fn push_wanted_link(words: &mut Words, hearing: &Hearing<'_>, before: u32) {
    let version = hearing.version();
    let exclusion = if hearing.case.assigned.is_unlocked() {
        "their affinities exclude each other"
    } else {
        "they exclude each other"
    };
    if version.has_after() {
        say!(words; Wanted: "a message that starts after message {}, {}, or one that awaits it",
            before, exclusion);
    } else if version.has_clients() {
        say!(words; Wanted:
            "a message that starts after message {}, {}, or the next one of its client",
            before, exclusion);
    } else {
        say!(words; Wanted: "a message behind message {}, {}", before, exclusion);
    }
}

/// Appends how good a plan is that has no fault.
fn push_no_fault(words: &mut Words, hearing: &Hearing<'_>, verdict: Verdict) {
    let Totals {
        release,
        cost,
        length,
        left,
        right,
        ..
    } = hearing.given.summary().totals;
    match (verdict, hearing.version().has_clients()) {
        (Verdict::Shortest, true) => say!(words; Found:
            "no fault, and no plan that obeys, for as many workers, is shorter than the length {}",
            length),
        (Verdict::Shortest, _) => say!(words; Found:
            "no fault, and no plan that obeys is shorter: the chain's release {} and cost {} make \
             the length {}",
            release, cost, length),
        (Verdict::Tight, _) => say!(words; Found:
            "no fault, and no plan that serves in the same order is shorter: the chain's release {} \
             and cost {} make the length {}",
            release, cost, length),
        (Verdict::WithinBound, _) => say!(words; Found:
            "no fault, and the plan is within the bound for its workers: {} is at most {}",
            left, right),
        _ => say!(words; Found: "no fault, and no more is known of how short the plan is"),
    }
}
