//! The reader of plan texts.

ghost use Rattle.std.specs.Prelude.{◌≡◌, ◌+◌, ◌∷◌, true, ◌^◌, ◌<◌, length, drop, IfOk, OnOk};
ghost use Rattle.csv.specs.Records.{fields_of};
ghost use Rattle.waff_parse.specs.Fields.{five_of};
ghost use Rattle.waff_parse.specs.Rows.{Reads, is_text, records_left};
ghost use Rattle.waff_parse.specs.Stopping.{Gives};
ghost use Rattle.waff_plan_text.specs.PlanTexts as texts;

use crate::given::GivenPlan;
use crate::lines::begins_summary;
use crate::records::next_record;
use crate::refusal::PlanTextError;
use crate::row::COLUMNS;
use crate::slots::Slots;
use crate::summary::read_summary;
use csv::{Reader, StringRecord};
use std::alloc::Global;
use waff_model::Version;
use waff_parse::{Stop, five_fields, text_rows};

// Whether a record is the header.
fn is_header(row: &StringRecord) -> bool
    ensures { result ≡ texts.is_header (five_of (fields_of row.now)) }
{
    match five_fields(row) {
        Some((message, affinity, start, finish, worker)) => {
            [message, affinity, start, finish, worker] == COLUMNS
        }
        None => false,
    }
}

// Reads the header, which is the first record.
fn read_header(rdr: &mut Reader<&[u8]>, row: &mut StringRecord) -> Result<(), Stop<PlanTextError>>
    requires { Reads rdr.old }
    ensures header { Gives (λ done. done) result (texts.header_of (records_left rdr.old)) }
    ensures left { OnOk result (records_left rdr.new ≡ drop 1 (records_left rdr.old)) }
    ensures reads { OnOk result (Reads rdr.new) }
{
    if next_record(1, rdr, row)? && is_header(row) {
        Ok(())
    } else {
        Err(Stop::Fault(PlanTextError::Header { at: 1 }))
    }
}

// The plan of the rows so far, and of the summary that begins with this row, the record of this
// number.
#[tactic(auto, unfolding(crate::specs::PlanTexts::plan_of_summary))]
fn read_end(
    alloc: Global,
    version: Version,
    slots: Slots,
    at: u64,
    rdr: &mut Reader<&[u8]>,
    row: &mut StringRecord,
) -> Result<GivenPlan, Stop<PlanTextError>>
    requires reads { Reads rdr.old }
    requires text { is_text (fields_of row.old) ≡ true }
    requires room { at + 8 < 2 ^ 64 }
    ensures value { Gives (λ plan. plan) result (texts.plan_of_summary version
        (length slots) at slots (fields_of row.old ∷ records_left rdr.old)) }
    ensures version { IfOk result (λ plan. plan.version ≡ version) }
    ensures messages { IfOk result (λ plan. length plan.rows ≡ length slots) }
{
    let messages = slots.len();
    let rows = slots.into_rows(alloc)?;
    let summary = read_summary(alloc, version, messages, at, rdr, row)?;
    Ok(GivenPlan::new(version, rows, summary))
}

// The plan of the records after the header.
fn read_rows(
    alloc: Global,
    version: Version,
    messages: u32,
    rdr: &mut Reader<&[u8]>,
    row: &mut StringRecord,
) -> Result<GivenPlan, Stop<PlanTextError>>
    requires reads { Reads rdr.old }
    requires room { length (records_left rdr.old) + 16 < 2 ^ 64 }
    ensures value { Gives (λ plan. plan) result
        (texts.plan_of_rows version messages (records_left rdr.old)) }
    ensures version { IfOk result (λ plan. plan.version ≡ version) }
    ensures messages { IfOk result (λ plan. length plan.rows ≡ messages) }
{
    let mut slots = Slots::new(alloc, messages)?;
    let mut at = 2;
    while next_record(at, rdr, row)? {
        if begins_summary(row) {
            return read_end(alloc, version, slots, at, rdr, row);
        }
        match slots.read_row(alloc, row) {
            Ok(given) => slots.put(given),
            Err(Stop::Memory) => return Err(Stop::Memory),
            Err(Stop::Fault(refusal)) => return Err(Stop::Fault(refusal.at_record(at))),
        }
        at += 1;
    }
    let _rows = slots.into_rows(alloc)?;
    Err(Stop::Fault(PlanTextError::Summary { at }))
}

// The plan that bytes spell.
#[tactic(auto, unfolding(crate::specs::PlanTexts::plan_of_records))]
fn plan_of(
    alloc: Global,
    version: Version,
    messages: u32,
    bytes: &[u8],
) -> Result<GivenPlan, Stop<PlanTextError>>
    ensures value { Gives (λ plan. plan) result (texts.plan_of version messages bytes.now) }
    ensures version { IfOk result (λ plan. plan.version ≡ version) }
    ensures messages { IfOk result (λ plan. length plan.rows ≡ messages) }
{
    let mut rdr = text_rows(alloc, bytes);
    let mut row = StringRecord::new(alloc);
    read_header(&mut rdr, &mut row)?;
    read_rows(alloc, version, messages, &mut rdr, &mut row)
}

/// The plan that the bytes spell, in the text of a plan of this version and for as many messages:
/// CSV with a header, then a row for each message in any order, and then the summary. Records are
/// numbered from 1, the header's. The first record with a fault decides; the end of the text counts
/// as a record.
pub fn read_plan(
    alloc: Global,
    version: Version,
    messages: u32,
    bytes: &[u8],
) -> Result<GivenPlan, PlanTextError>
    ensures exact { texts.GivesPlan result (texts.plan_of version messages bytes.now) }
    ensures version { IfOk result (λ plan. plan.version ≡ version) }
    ensures messages { IfOk result (λ plan. length plan.rows ≡ messages) }
{
    match plan_of(alloc, version, messages, bytes) {
        Ok(plan) => Ok(plan),
        Err(Stop::Memory) => Err(PlanTextError::Memory),
        Err(Stop::Fault(e)) => Err(e),
    }
}
