//! One record of a trace as a message.

ghost use Rattle.std.specs.Prelude.{◌≡◌, option_map};
ghost use Rattle.csv.specs.Records.{fields_of};
ghost use Rattle.waff_parse.specs.Stopping.{Gives};
ghost use Rattle.waff_read.specs.Messages as messages;

use crate::awaits::read_after;
use crate::columns::{Columns, read_columns};
use crate::ops::read_ops;
use crate::place::Place;
use crate::space_table::SpaceTable;
use crate::trace_fault::TraceFault;
use csv::StringRecord;
use std::alloc::Global;
use waff_model::limits::{MAX_COST, MAX_RELEASE, MAX_THINK};
use waff_model::{Client, Message, Text, Version, is_name};
use waff_parse::{Stop, number_within};

// A cost in ticks.
fn read_cost(text: &str) -> Result<u32, TraceFault>
    ensures { result ≡ messages.cost_of text.now }
{
    match number_within(text, 1, u64::from(MAX_COST)) {
        Some(cost) => Ok(cost as u32),
        None => Err(TraceFault::Cost),
    }
}

// A release in ticks, 0 where there is no field for it.
#[inline]
fn read_release(text: Option<&str>) -> Result<u32, TraceFault>
    ensures { result ≡ messages.release_of (option_map (λ s. s.now) text.entry) }
{
    match text {
        None => Ok(0),
        Some(text) => match number_within(text, 0, u64::from(MAX_RELEASE)) {
            Some(release) => Ok(release as u32),
            None => Err(TraceFault::Release),
        },
    }
}

// The client that a field names, none where there is no field for it.
#[inline]
fn read_client(alloc: Global, text: Option<&str>) -> Result<Client, Stop<TraceFault>>
    ensures { Gives (λ client.
        client) result (messages.client_of (option_map (λ s. s.now) text.entry)) }
{
    match text {
        None => Ok(Client::none()),
        Some(text) => {
            if is_name(text) {
                Ok(Client::of(alloc, text)?)
            } else {
                Err(Stop::Fault(TraceFault::Client))
            }
        }
    }
}

// A think time in ticks, 0 where there is no field for it.
#[inline]
fn read_think(text: Option<&str>) -> Result<u32, TraceFault>
    ensures { result ≡ messages.think_of (option_map (λ s. s.now) text.entry) }
{
    match text {
        None => Ok(0),
        Some(text) => match number_within(text, 0, u64::from(MAX_THINK)) {
            Some(think) => Ok(think as u32),
            None => Err(TraceFault::Think),
        },
    }
}

// The number of a record whose message is not one too many.
fn read_number(version: Version, at: u64) -> Result<u64, TraceFault>
    ensures { result ≡ messages.counted version at }
{
    if version.max_messages() as u64 + 1 < at {
        Err(TraceFault::TooManyMessages)
    } else {
        Ok(at)
    }
}

/// The message that fields spell in the record at this place.
#[tactic(auto, unfolding(crate::specs::Messages::message_of_columns))]
pub(crate) fn message_of_columns(
    alloc: Global,
    spaces: &SpaceTable<'_>,
    version: Version,
    place: Place,
    columns: &Columns<'_>,
) -> Result<Message, Stop<TraceFault>>
    ensures { Gives (λ m.
        m) result (messages.message_of_columns version spaces.now place columns.now) }
{
    if !is_name(columns.name) {
        return Err(Stop::Fault(TraceFault::Name));
    }
    let cost = read_cost(columns.cost)?;
    let ops = read_ops(alloc, spaces, version, place.most_ops(version), columns.ops)?;
    read_number(version, place.at)?;
    let release = read_release(columns.release)?;
    let client = read_client(alloc, columns.client)?;
    let think = read_think(columns.think)?;
    let after = read_after(alloc, place, columns.after)?;
    Ok(Message {
        name: Text::of(alloc, columns.name)?,
        cost,
        release,
        client,
        think,
        after,
        ops,
    })
}

/// The message of the record at this place.
pub(crate) fn read_message(
    alloc: Global,
    spaces: &SpaceTable<'_>,
    version: Version,
    place: Place,
    row: &StringRecord,
) -> Result<Message, Stop<TraceFault>>
    ensures { Gives (λ m.
        m) result (messages.message_of version spaces.now place (fields_of row.now)) }
{
    match read_columns(version, row) {
        Some(columns) => message_of_columns(alloc, spaces, version, place, &columns),
        None => Err(Stop::Fault(TraceFault::Fields)),
    }
}
