//! A plan text that is read beside the files that it is for.

ghost use Rattle.std.specs.Prelude.{◌≡◌, ◌≢◌, ◌≤◌, IfErr, IfOk, length};
ghost use Rattle.std.specs.Thread.{IsSync};
ghost use Rattle.waff_model.specs.declared.limits.TheConstants.{MAX_MESSAGES};
ghost use Rattle.waff_inputs.specs.Inputs.{Accepts, Refuses, instance_under};
ghost use Rattle.waff_plan_text.specs.PlanTexts as texts;
ghost use Rattle.waff_tool.specs.Accepted.{IsAccepted};
ghost use Rattle.waff_tool.specs.Ahead.{IsReadOf};

use std::alloc::Global;
use std::thread;
use std::thread::Threads;
use waff_check::{GivenPlan, PlanTextError, read_plan};
use waff_inputs::{Accepted, ToolError, accept_by_threads};
use waff_model::Version;
use waff_model::limits::MAX_MESSAGES;

/// A plan text as it is read for a trace of this version with as many messages.
#[derive(Drop)]
pub struct ReadAhead {
    version: Version,
    messages: u32,
    given: Result<GivenPlan, PlanTextError>,
}

/// Reads the files as `accept_by_threads` does, and beside them the plan text, for a trace that is guessed: its
/// version by its header, and how many messages it has by the lines of the plan.
pub fn accept_beside<R: Threads + Sync>(
    rt: &R,
    alloc: Global,
    hierarchy: &[u8],
    trace: &[u8],
    plan: &[u8],
) -> Result<(Accepted, ReadAhead), ToolError>
    ensures accepted { IfOk result (λ made.
        Accepts hierarchy.now trace.now
        (instance_under made.0.layout made.0.assigned made.0.trace)) }
    ensures ahead { IfOk result (λ made. IsReadOf plan.now made.1) }
    ensures refused { IfErr result (Refuses hierarchy.now trace.now) }
    ensures nothing { IfErr result (λ e. e ≢ ToolError.Write) }
{
    let text = move || -> ReadAhead
        ensures { IsReadOf plan.entry.now result }
    { read_ahead(alloc, trace, plan) };
    let files = move || -> Result<Accepted, ToolError>
        requires { IsSync R.row }
        ensures { IsAccepted hierarchy.entry.now trace.entry.now result }
    { accept_by_threads(rt, alloc, hierarchy, trace) };
    let (ahead, accepted) = thread::join(rt, text, files);
    match accepted {
        Ok(accepted) => Ok((accepted, ahead)),
        Err(error) => {
            drop(ahead);
            Err(error)
        }
    }
}

/// The plan text as it is read for the trace that is guessed.
fn read_ahead(alloc: Global, trace: &[u8], plan: &[u8]) -> ReadAhead
    ensures { IsReadOf plan.now result }
{
    let version = likely_version(trace);
    let messages = likely_messages(version, plan);
    ReadAhead {
        version,
        messages,
        given: read_plan(alloc, version, messages, plan),
    }
}

/// The version of a trace, by the header as it is mostly written.
fn likely_version(trace: &[u8]) -> Version {
    if trace.starts_with(b"message,cost,ops") {
        Version::V1
    } else if trace.starts_with(b"message,cost,release,client,think,ops") {
        Version::V3
    } else if trace.starts_with(b"message,cost,release,client,think,after,ops") {
        Version::V4
    } else {
        Version::V2
    }
}

/// How many messages a plan has whose text has no fault: the lines but the header and the summary.
/// They are no more than a trace may have, so that no text makes the guess take more memory.
fn likely_messages(version: Version, plan: &[u8]) -> u32
    ensures { result ≤ MAX_MESSAGES }
{
    let lines = plan.iter().filter(|byte| **byte == b'\n').count();
    let others = if version.has_releases() { 8 } else { 7 };
    lines.saturating_sub(others).min(MAX_MESSAGES as usize) as u32
}

/// The plan that the bytes spell, in the text of a plan of this version and for as many messages: it
/// is read again only where it was read ahead for another trace.
pub fn plan_read(
    alloc: Global,
    version: Version,
    messages: u32,
    bytes: &[u8],
    ahead: ReadAhead,
) -> Result<GivenPlan, PlanTextError>
    requires ahead { IsReadOf bytes.now ahead }
    ensures exact { texts.GivesPlan result (texts.plan_of version messages bytes.now) }
    ensures version { IfOk result (λ plan. plan.version ≡ version) }
    ensures messages { IfOk result (λ plan. length plan.rows ≡ messages) }
{
    let ReadAhead {
        version: likely_version,
        messages: likely_messages,
        given,
    } = ahead;
    if likely_version == version && likely_messages == messages {
        return given;
    }
    drop(given);
    read_plan(alloc, version, messages, bytes)
}
