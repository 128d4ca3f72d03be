//! The picture in the Trace Event Format, which Perfetto and the tracing page of Chromium open.

ghost use Rattle.std.specs.Prelude.{◌≡◌, ◌≤◌, [], ◌∷◌, IfOk, OnOk, decimal, length, string_bytes};
ghost use Rattle.std.specs.List.{flat_map, join_by, range_with_len};
ghost use Rattle.waff_assign.specs.Case.{instance_of};
ghost use Rattle.waff_assign.specs.Order.{affinity_name};
ghost use Rattle.waff_plan.specs.Work.{IsNumber};
ghost use Rattle.waff_plan_text.specs.Lines.{Adds};
ghost use Rattle.waff_draw.specs.Events.{affinity_thread, after_text, category, document_start, event_at};
ghost use Rattle.waff_draw.specs.Events.{client_entry, client_text, event_entry, event_text};
ghost use Rattle.waff_draw.specs.Events.{events_of, events_text, quoted};
ghost use Rattle.waff_draw.specs.Events.{thread_name, thread_place, thread_text, threads_text};
ghost use Rattle.waff_draw.specs.Events.{worker_thread, worker_threads};
ghost use Rattle.waff_draw.specs.Kinds.{process_of};
ghost use Rattle.waff_draw.specs.Scene.{after_in, client_in, lanes_in, name_in, scene_of, work_of_scene};

use crate::chart::Chart;
use crate::lanes::LaneKind;
use crate::parts::Part;
use crate::pieces::LaneName;
use serde_json::Value;
use std::alloc::{AllocError, Global};
use waff_assign::Case;
use waff_model::{Await, Version};
use waff_plan_text::GivenPlan;

/// The start of the document, with the process whose threads are the lanes of affinities.
const DOCUMENT_START: &str = r#"{"traceEvents":[
{"name":"process_name","ph":"M","pid":1,"args":{"name":"affinities"}},
{"name":"process_sort_index","ph":"M","pid":1,"args":{"sort_index":1}}"#;

/// The process whose threads are the lanes of workers.
const WORKERS_START: &str = r#",
{"name":"process_name","ph":"M","pid":2,"args":{"name":"workers"}},
{"name":"process_sort_index","ph":"M","pid":2,"args":{"sort_index":2}}"#;

/// A message as it runs in a thread of a process, as far as it is shown.
#[derive(Clone, Copy)]
pub struct Event {
    pub message: u32,
    pub process: u32,
    pub thread: u128,
    pub start: u64,
    pub ticks: u64,
    pub release: u32,
    pub is_link: bool,
}

/// The events of this part of a plan that is given for the messages of a trace with their
/// affinities.
pub fn events_text(
    alloc: Global,
    case: &Case<'_>,
    given: &GivenPlan,
    part: Part,
) -> Result<String, AllocError>
    requires rows { length given.now.rows ≡ length case.now.trace.now.messages }
    ensures { IfOk result (λ text.
        string_bytes text ≡ events_text (scene_of (instance_of case.now) given.now part)) }
{
    let chart = Chart::new(alloc, case, given, part, false)?;
    document(alloc, &chart)
}

/// The events of a chart.
fn document(alloc: Global, chart: &Chart<'_>) -> Result<String, AllocError>
    ensures { IfOk result (λ text. string_bytes text ≡ events_text chart.now) }
{
    let mut text = String::new(alloc);
    push_threads(alloc, &mut text, chart)?;
    push_events(alloc, &mut text, chart, LaneKind::Affinity)?;
    push_events(alloc, &mut text, chart, LaneKind::Worker)?;
    text.push_str("\n]}\n")?;
    Ok(text)
}

/// Appends all that stands before the events of messages.
fn push_threads(alloc: Global, text: &mut String, chart: &Chart<'_>) -> Result<(), AllocError>
    ensures { OnOk result (Adds text.old text.new (threads_text chart.now)) }
{
    push_document_start(text)?;
    push_affinity_threads(alloc, text, chart)?;
    push_worker_threads(alloc, text, chart)
}

/// Appends the start of the document.
#[tactic(auto, unfolding(crate::specs::Events::document_start))]
fn push_document_start(text: &mut String) -> Result<(), AllocError>
    ensures { OnOk result (Adds text.old text.new document_start) }
{
    text.push_str(DOCUMENT_START)
}

/// Appends the threads of the lanes of affinities.
fn push_affinity_threads(
    alloc: Global,
    text: &mut String,
    chart: &Chart<'_>,
) -> Result<(), AllocError>
    ensures { OnOk result (Adds text.old text.new
        (flat_map (affinity_thread chart.now.instance.tree (lanes_in chart.now))
        (range_with_len 0 (length (lanes_in chart.now))))) }
{
    for row in 0..chart.lane_count() {
        push_thread(alloc, text, 1, u128::from(row) + 1, chart.lane_name(row))?;
    }
    Ok(())
}

/// Appends the process of the workers with the threads of their lanes, for a plan that has workers.
fn push_worker_threads(
    alloc: Global,
    text: &mut String,
    chart: &Chart<'_>,
) -> Result<(), AllocError>
    ensures { OnOk result (Adds text.old text.new
        (worker_threads (length (lanes_in chart.now)) chart.now.plan.summary.workers)) }
{
    if let Some(k) = chart.workers() {
        text.push_str(WORKERS_START)?;
        push_threads_of(alloc, text, chart.lane_count(), k)?;
    }
    Ok(())
}

/// Appends the threads of the lanes of so many workers, below this many others.
fn push_threads_of(
    alloc: Global,
    text: &mut String,
    first: u64,
    workers: u32,
) -> Result<(), AllocError>
    requires { workers ≤ 65536 }
    ensures { OnOk result (Adds text.old text.new
        (flat_map (worker_thread first) (range_with_len 1 workers))) }
{
    for worker in 1..workers + 1 {
        push_worker_thread(alloc, text, first, worker)?;
    }
    Ok(())
}

/// Appends the thread of a worker's lane, below this many others.
fn push_worker_thread(
    alloc: Global,
    text: &mut String,
    first: u64,
    worker: u32,
) -> Result<(), AllocError>
    ensures { OnOk result (Adds text.old text.new (worker_thread first worker)) }
{
    let mut name = String::new(alloc);
    write!(name, "{}", LaneName::Worker(worker))?;
    push_thread(
        alloc,
        text,
        2,
        u128::from(first) + u128::from(worker),
        name.as_str(),
    )
}

/// Appends a thread of a process.
fn push_thread(
    alloc: Global,
    text: &mut String,
    process: u32,
    thread: u128,
    name: &str,
) -> Result<(), AllocError>
    ensures { OnOk result (Adds text.old text.new (thread_text process thread name.now)) }
{
    let name = json(alloc, name)?;
    push_thread_name(text, process, thread, name.as_str())?;
    push_thread_place(text, process, thread)
}

/// Appends the name of a thread, which is given as JSON.
#[tactic(auto, unfolding(crate::specs::Events::thread_name))]
fn push_thread_name(
    text: &mut String,
    process: u32,
    thread: u128,
    name: &str,
) -> Result<(), AllocError>
    ensures { OnOk result (Adds text.old text.new (thread_name process thread name.now)) }
{
    write!(
        text,
        ",\n{{\"name\":\"thread_name\",\"ph\":\"M\",\"pid\":{process},\"tid\":{thread},\"args\":{{\"name\":{name}}}}}"
    )
}

/// Appends the place of a thread.
#[tactic(auto, unfolding(crate::specs::Events::thread_place))]
fn push_thread_place(text: &mut String, process: u32, thread: u128) -> Result<(), AllocError>
    ensures { OnOk result (Adds text.old text.new (thread_place process thread)) }
{
    write!(
        text,
        ",\n{{\"name\":\"thread_sort_index\",\"ph\":\"M\",\"pid\":{process},\"tid\":{thread},\"args\":{{\"sort_index\":{thread}}}}}"
    )
}

/// Appends the events of the messages that are shown and have a row among the lanes of this kind.
fn push_events(
    alloc: Global,
    text: &mut String,
    chart: &Chart<'_>,
    kind: LaneKind,
) -> Result<(), AllocError>
    ensures { OnOk result (Adds text.old text.new (events_of chart.now kind)) }
{
    for n in 1..chart.len() + 1 {
        if let Some(row) = chart.shown_row(kind, n) {
            let event = event_of(chart, process_of(kind), row, n);
            push_event(alloc, text, chart, &event, n)?;
        }
    }
    Ok(())
}

/// The process whose threads are the lanes of this kind.
fn process_of(kind: LaneKind) -> u32
    ensures { result ≡ process_of kind }
{
    match kind {
        LaneKind::Affinity => 1,
        LaneKind::Worker => 2,
    }
}

/// The event of message `n` in this row of a process.
fn event_of(chart: &Chart<'_>, process: u32, row: u64, n: u32) -> Event
    requires { IsNumber (work_of_scene chart.now) n }
    ensures { result ≡ event_at chart.now process row n }
{
    Event {
        message: n,
        process,
        thread: u128::from(row) + 1,
        start: chart.shown_start(n),
        ticks: chart.shown_ticks(n),
        release: chart.release(n),
        is_link: chart.is_link(n),
    }
}

/// Appends the event of message `n`.
fn push_event(
    alloc: Global,
    text: &mut String,
    chart: &Chart<'_>,
    event: &Event,
    n: u32,
) -> Result<(), AllocError>
    requires { IsNumber (work_of_scene chart.now) n }
    ensures { OnOk result (Adds text.old text.new
        (event_text chart.now.instance.trace.version event.now (name_in chart.now n)
        (affinity_name chart.now.instance.tree chart.now.instance.assigned n)
        (client_in chart.now n) (after_in chart.now n))) }
{
    let name = json(alloc, chart.name(n))?;
    let affinity = json(alloc, chart.affinity_name(n))?;
    push_event_entry(text, event, name.as_str(), affinity.as_str())?;
    push_number(text, event.release)?;
    push_client(alloc, text, chart.version(), chart.client(n))?;
    push_after(text, chart.after(n))?;
    text.push_str("}}")
}

/// Appends a number.
fn push_number(text: &mut String, number: u32) -> Result<(), AllocError>
    ensures { OnOk result (Adds text.old text.new (decimal number)) }
{
    write!(text, "{number}")
}

/// Appends the client of a message, where the version of the trace has clients.
fn push_client(
    alloc: Global,
    text: &mut String,
    version: Version,
    client: &str,
) -> Result<(), AllocError>
    ensures { OnOk result (Adds text.old text.new (client_text version client.now)) }
{
    if version.has_clients() {
        let client = json(alloc, client)?;
        push_client_entry(text, client.as_str())?;
    }
    Ok(())
}

/// Appends the client of a message, which is given as JSON.
fn push_client_entry(text: &mut String, client: &str) -> Result<(), AllocError>
    ensures { OnOk result (Adds text.old text.new (client_entry client.now)) }
{
    write!(text, ",\"client\":{client}")
}

/// Appends the numbers of the messages that a message awaits by its list, where it has one.
fn push_after(text: &mut String, after: &[Await]) -> Result<(), AllocError>
    ensures { OnOk result (Adds text.old text.new (after_text after.now)) }
{
    if after.is_empty() {
        return Ok(());
    }
    text.push_str(",\"after\":[")?;
    push_awaited(text, after)?;
    text.push_str("]")
}

/// Appends the numbers of these messages, joined by commas.
fn push_awaited(text: &mut String, awaited: &[Await]) -> Result<(), AllocError>
    ensures { OnOk result (Adds text.old text.new
        (join_by (λ a. decimal a.message) (44 ∷ []) awaited.now)) }
{
    let Some((first, others)) = awaited.split_first() else {
        return Ok(());
    };
    push_number(text, first.message)?;
    for other in others {
        text.push(',')?;
        push_number(text, other.message)?;
    }
    Ok(())
}

/// Appends an event as far as the release, with its name and that of its affinity as JSON.
#[tactic(auto, unfolding(crate::specs::Events::event_entry))]
fn push_event_entry(
    text: &mut String,
    event: &Event,
    name: &str,
    affinity: &str,
) -> Result<(), AllocError>
    ensures { OnOk result (Adds text.old text.new (event_entry event.now name.now affinity.now)) }
{
    let Event {
        message,
        process,
        thread,
        start,
        ticks,
        is_link,
        ..
    } = *event;
    let category = category(is_link);
    write!(
        text,
        ",\n{{\"name\":{name},\"cat\":\"{category}\",\"ph\":\"X\",\"ts\":{start},\"dur\":{ticks},\"pid\":{process},\"tid\":{thread},\"args\":{{\"number\":{message},\"name\":{name},\"affinity\":{affinity},\"release\":"
    )
}

/// The category of a message.
fn category(is_link: bool) -> &'static str
    ensures { result.now ≡ category is_link }
{
    if is_link { "chain" } else { "message" }
}

/// A text as JSON.
fn json(alloc: Global, text: &str) -> Result<String, AllocError>
    ensures { IfOk result (λ json. string_bytes json ≡ quoted text.now) }
{
    Value::try_from_str(alloc, text)?.to_string(alloc)
}
