//! The reader of traces.

ghost use Rattle.std.specs.Prelude.{◌≡◌, Ok, Err, drop, IfOk, OnOk};
ghost use Rattle.waff_model.specs.Awaits.{awaited_in};
ghost use Rattle.waff_model.specs.Messages.{ops_in, sizes_of};
ghost use Rattle.waff_model.specs.declared.message.Version.TheVariants.{V4};
ghost use Rattle.waff_parse.specs.Rows.{Reads, records_left};
ghost use Rattle.waff_parse.specs.Stopping.{Gives};
ghost use Rattle.waff_read.specs.Places.{place_at};
ghost use Rattle.waff_read.specs.Traces as traces;

use crate::columns::read_version;
use crate::message::read_message;
use crate::place::{FIRST, Place};
use crate::space_table::SpaceTable;
use crate::trace_fault::{TraceError, TraceFault};
use csv::{Reader, StringRecord};
use std::alloc::Global;
use waff_model::{Layout, Message, Parts, Trace, Version};
use waff_parse::{Stop, next_text, text_rows};

// Reads the header, which is the first record.
fn read_header(
    newest: Version,
    rdr: &mut Reader<&[u8]>,
    row: &mut StringRecord,
) -> Result<Version, Stop<TraceError>>
    requires { Reads rdr.old }
    ensures header { Gives (λ version.
        version) result (traces.header_of newest (records_left rdr.old)) }
    ensures left { OnOk result (records_left rdr.new ≡ drop 1 (records_left rdr.old)) }
    ensures reads { OnOk result (Reads rdr.new) }
{
    match next_text(rdr, row) {
        Ok(true) => match read_version(newest, row) {
            Ok(version) => Ok(version),
            Err(fault) => Err(Stop::Fault(fault.at_record(1))),
        },
        Ok(false) => Err(Stop::Fault(TraceFault::Header.at_record(1))),
        Err(Stop::Memory) => Err(Stop::Memory),
        Err(Stop::Fault(_)) => Err(Stop::Fault(TraceFault::Csv.at_record(1))),
    }
}

// The message of the next record, which is at this place, if there is one.
fn next_message(
    alloc: Global,
    spaces: &SpaceTable<'_>,
    version: Version,
    place: Place,
    rdr: &mut Reader<&[u8]>,
    row: &mut StringRecord,
) -> Result<Option<Message>, Stop<TraceError>>
    requires { Reads rdr.old }
    ensures message { traces.GivesMessage version spaces.now place result
        (records_left rdr.old) (records_left rdr.new) }
    ensures reads { OnOk result (Reads rdr.new) }
{
    match next_text(rdr, row) {
        Ok(true) => match read_message(alloc, spaces, version, place, row) {
            Ok(message) => Ok(Some(message)),
            Err(Stop::Memory) => Err(Stop::Memory),
            Err(Stop::Fault(fault)) => Err(Stop::Fault(fault.at_record(place.at))),
        },
        Ok(false) => Ok(None),
        Err(Stop::Memory) => Err(Stop::Memory),
        Err(Stop::Fault(_)) => Err(Stop::Fault(TraceFault::Csv.at_record(place.at))),
    }
}

/// Messages that were read, how many operations they have, and how many messages their lists.
#[derive(Drop)]
pub(crate) struct Messages {
    pub(crate) list: Parts,
    pub(crate) ops: usize,
    pub(crate) awaited: usize,
}

/// The messages of the records that are left, the first of which has this number.
pub(crate) fn read_messages(
    alloc: Global,
    spaces: &SpaceTable<'_>,
    version: Version,
    at: u64,
    rdr: &mut Reader<&[u8]>,
    row: &mut StringRecord,
) -> Result<Messages, Stop<TraceError>>
    requires { Reads rdr.old }
    ensures messages { Gives (λ read. read.list) result
        (traces.messages_at version spaces.now (place_at at) (records_left rdr.old)) }
    ensures ops { IfOk result (λ read. read.ops ≡ ops_in read.list) }
    ensures awaited { IfOk result (λ read. read.awaited ≡ awaited_in read.list) }
{
    let mut list = Vec::new(alloc);
    let mut place = Place::at(at);
    while let Some(message) = next_message(alloc, spaces, version, place, rdr, row)? {
        place = place.next(&message);
        list.push(message)?;
    }
    Ok(Messages {
        list: Parts::of(alloc, list),
        ops: place.ops,
        awaited: place.awaited,
    })
}

// The trace of the records that are left: a header, and then a message each.
#[tactic(auto, unfolding(crate::specs::Traces::trace_of_records))]
fn read_records(
    alloc: Global,
    spaces: &SpaceTable<'_>,
    newest: Version,
    rdr: &mut Reader<&[u8]>,
    row: &mut StringRecord,
) -> Result<Trace, Stop<TraceError>>
    requires { Reads rdr.old }
    ensures { Gives (λ trace.
        trace) result (traces.trace_of_records newest spaces.now (records_left rdr.old)) }
{
    let version = read_header(newest, rdr, row)?;
    let messages = read_messages(alloc, spaces, version, FIRST, rdr, row)?;
    let trace = Trace::of_messages(alloc, spaces.layout(), version, messages.list)?;
    Ok(trace)
}

/// The trace that bytes spell, of a version up to the newest.
pub(crate) fn read_bytes(
    alloc: Global,
    spaces: &SpaceTable<'_>,
    newest: Version,
    bytes: &[u8],
) -> Result<Trace, Stop<TraceError>>
    ensures { Gives (λ trace. trace) result (traces.trace_of newest spaces.now bytes.now) }
{
    let mut rdr = text_rows(alloc, bytes);
    let mut row = StringRecord::new(alloc);
    read_records(alloc, spaces, newest, &mut rdr, &mut row)
}

// The trace that bytes spell, for cells of the layout.
fn trace_of(
    alloc: Global,
    layout: &Layout,
    newest: Version,
    bytes: &[u8],
) -> Result<Trace, Stop<TraceError>>
    ensures { Gives (λ trace. trace) result (traces.trace_of newest layout.now.spaces bytes.now) }
{
    let spaces = SpaceTable::new(alloc, layout)?;
    read_bytes(alloc, &spaces, newest, bytes)
}

/// The trace that the bytes spell, for cells of the layout: CSV with a header, and then a record
/// for each message. Records are numbered from 1, the header's. The first record with a fault
/// decides.
pub fn read_trace(alloc: Global, layout: &Layout, bytes: &[u8]) -> Result<Trace, TraceError>
    ensures exact { traces.GivesTrace result (traces.trace_of V4 layout.now.spaces bytes.now) }
    ensures fits { IfOk result (λ trace. trace.sizes ≡ sizes_of layout.now.spaces) }
{
    read_trace_up_to(alloc, layout, Version::V4, bytes)
}

/// The trace that the bytes spell, as `read_trace` reads it, of a version up to the newest that the
/// caller knows: the header of a later one is none.
pub fn read_trace_up_to(
    alloc: Global,
    layout: &Layout,
    newest: Version,
    bytes: &[u8],
) -> Result<Trace, TraceError>
    ensures exact { traces.GivesTrace result (traces.trace_of newest layout.now.spaces bytes.now) }
    ensures fits { IfOk result (λ trace. trace.sizes ≡ sizes_of layout.now.spaces) }
{
    match trace_of(alloc, layout, newest, bytes) {
        Ok(trace) => Ok(trace),
        Err(Stop::Memory) => Err(TraceError::Memory),
        Err(Stop::Fault(e)) => Err(e),
    }
}
