//! The trace of a run, told anew: its records with the costs that are told. Lists of messages that are awaited are spelled
//! again, without gaps of 0; all other fields are as they stand, so that ranges stay ranges.

ghost use Rattle.std.specs.Prelude.{◌≡◌, [], ◌∷◌, List, ℕ, IfOk, IsSome, OnOk, decimal, drop};
ghost use Rattle.std.specs.Prelude.{string_bytes};
ghost use Rattle.std.specs.List.{flat_map};
ghost use Rattle.csv.specs.Records.{fields_of};
ghost use Rattle.csv.specs.Writing.{default_writer, row_text};
ghost use Rattle.waff_model.specs.declared.message.Message.{Message as Told};
ghost use Rattle.waff_model.specs.declared.message.Version.{Version as Written};
ghost use Rattle.waff_parse.specs.Rows.{Reads, Record, records_left, records_of};
ghost use Rattle.waff_plan_text.specs.Lines.{Adds};
ghost use Rattle.waff_read.specs.Anew.{row_anew, text_anew};
ghost use Rattle.waff_read.specs.Messages.{columns_of, header_row};
ghost use Rattle.waff_read.specs.Spellings.{after_spelled, await_spelled};
ghost use Rattle.waff_record.specs.Ran.{IsToldRun};
ghost use Rattle.waff_record.specs.Runs.{messages_told};
ghost use Rattle.waff_record.specs.Writing.{BeginsWithText, Completes, row_with};

use crate::told_run::ToldRun;
use csv::{Reader, StringRecord, Writer};
use std::alloc::{AllocError, Global};
use waff_model::{Await, Version};
use waff_parse::{Stop, field, next_text, text_rows};
use waff_plan_text::push_number;
use waff_read::laws;

/// The fields of a record, one for each column that a trace may have.
#[derive(Clone, Copy)]
pub(crate) struct Fields<'a> {
    pub name: &'a [u8],
    pub cost: &'a [u8],
    pub release: &'a [u8],
    pub client: &'a [u8],
    pub think: &'a [u8],
    pub after: &'a [u8],
    pub ops: &'a [u8],
}

/// What is told of a message in place of what stands in its record.
#[derive(Drop)]
pub(crate) struct Spelled {
    pub cost: String,
    pub after: String,
}

/// The trace of a run with the costs that are told.
pub(crate) fn measured_text(alloc: Global, told: &ToldRun<'_>) -> Result<Vec<u8>, AllocError>
    requires told { IsToldRun told.now }
    ensures { IfOk result (λ text. text.items ≡ text_anew told.now.run.case.trace.now.version
        (drop 1 (records_of told.now.run.bytes.now))
        (messages_told told.now.run.case.trace.now.messages told.now.plan.now.timings)) }
{
    laws::rows_are_text();
    let trace = told.run.case.trace;
    let version = trace.version();
    let mut text = no_rows(alloc, told.run.bytes.len())?;
    let mut rows = text_rows(alloc, told.run.bytes);
    let mut row = StringRecord::new(alloc);
    let mut spelled = no_words(alloc);
    next_row(&mut rows, &mut row)?;
    write_row(&mut text, version, &titles())?;
    for n in 1..trace.len() + 1 {
        next_row(&mut rows, &mut row)?;
        let message = trace.message(n);
        let cost = told.plan.cost(n);
        spell(&mut spelled, cost, message.after.as_slice())?;
        write_row(&mut text, version, &fields_anew(&row, &spelled))?;
    }
    finished(text)
}

/// A writer of records that has written none, with room for a text that is so long.
pub(crate) fn no_rows(alloc: Global, long: usize) -> Result<Writer<Vec<u8>>, AllocError>
    ensures { IfOk result (λ text. (rows : List Record)
        → Completes text rows (flat_map (row_text default_writer) rows)) }
{
    let room = Vec::with_capacity(alloc, long)?;
    Ok(Writer::from_writer(room))
}

/// Reads the next record, which is there and is text.
pub(crate) fn next_row(rows: &mut Reader<&[u8]>, row: &mut StringRecord) -> Result<(), AllocError>
    requires reads { Reads rows.old }
    requires there { BeginsWithText (records_left rows.old) }
    ensures next { OnOk result
        (records_left rows.old ≡ fields_of row.new ∷ records_left rows.new) }
    ensures reads { OnOk result (Reads rows.new) }
{
    match next_text(rows, row) {
        Ok(true) => Ok(()),
        Ok(false) => unreachable!(),
        Err(Stop::Memory) => Err(AllocError),
        Err(Stop::Fault(_)) => unreachable!(),
    }
}

/// Appends a record of these fields.
pub(crate) fn write_row(
    text: &mut Writer<Vec<u8>>,
    version: Version,
    fields: &Fields<'_>,
) -> Result<(), AllocError>
    ensures { OnOk result ((rows : List Record) (whole : List ℕ)
        → Completes text.old (row_with version fields.now ∷ rows) whole
        → Completes text.new rows whole) }
{
    let Fields {
        name,
        cost,
        release,
        client,
        think,
        after,
        ops,
    } = *fields;
    let written = match version {
        Version::V1 => text.write_fields(&[name, cost, ops]),
        Version::V2 => text.write_fields(&[name, cost, release, ops]),
        Version::V3 => text.write_fields(&[name, cost, release, client, think, ops]),
        Version::V4 => text.write_fields(&[name, cost, release, client, think, after, ops]),
    };
    match written {
        Ok(()) => Ok(()),
        Err(error) => {
            drop(error);
            Err(AllocError)
        }
    }
}

/// The text of the records that were written.
pub(crate) fn finished(text: Writer<Vec<u8>>) -> Result<Vec<u8>, AllocError>
    ensures { IfOk result (λ bytes. (whole : List ℕ)
        → Completes text [] whole → bytes.items ≡ whole) }
{
    match text.into_inner() {
        Ok(bytes) => Ok(bytes),
        Err(error) => {
            drop(error);
            Err(AllocError)
        }
    }
}

/// The titles of the columns.
pub(crate) fn titles() -> Fields<'static>
    ensures { (version : Written) → row_with version result ≡ header_row version }
{
    Fields {
        name: "message".as_bytes(),
        cost: "cost".as_bytes(),
        release: "release".as_bytes(),
        client: "client".as_bytes(),
        think: "think".as_bytes(),
        after: "after".as_bytes(),
        ops: "ops".as_bytes(),
    }
}

/// The fields of a record, with what is told in place of what stood there.
pub(crate) fn fields_anew<'a>(row: &'a StringRecord, spelled: &'a Spelled) -> Fields<'a>
    ensures { (version : Written) (message : Told)
        → IsSome (columns_of version (fields_of row.now))
        → string_bytes spelled.now.cost ≡ decimal message.cost
        → string_bytes spelled.now.after ≡ after_spelled message.after
        → row_with version result ≡ row_anew version (fields_of row.now) message }
{
    let last = row.len().saturating_sub(1);
    Fields {
        name: field(row, 0).as_bytes(),
        cost: spelled.cost.as_bytes(),
        release: field(row, 2).as_bytes(),
        client: field(row, 3).as_bytes(),
        think: field(row, 4).as_bytes(),
        after: spelled.after.as_bytes(),
        ops: field(row, last).as_bytes(),
    }
}

/// Nothing is told.
pub(crate) fn no_words(alloc: Global) -> Spelled {
    Spelled {
        cost: String::new(alloc),
        after: String::new(alloc),
    }
}

/// Spells the cost and the list of a message.
pub(crate) fn spell(spelled: &mut Spelled, cost: u64, list: &[Await]) -> Result<(), AllocError>
    ensures cost { OnOk result (string_bytes spelled.new.cost ≡ decimal cost) }
    ensures after { OnOk result (string_bytes spelled.new.after ≡ after_spelled list.now) }
{
    spelled.cost.clear();
    push_number(&mut spelled.cost, cost)?;
    spelled.after.clear();
    push_list(&mut spelled.after, list)
}

/// Appends a list of messages that are awaited.
fn push_list(text: &mut String, list: &[Await]) -> Result<(), AllocError>
    ensures { OnOk result (Adds text.old text.new (after_spelled list.now)) }
{
    let Some((first, others)) = list.split_first() else {
        return Ok(());
    };
    push_await(text, *first)?;
    for one in others {
        text.push(' ')?;
        push_await(text, *one)?;
    }
    Ok(())
}

/// Appends a message that is awaited, with its gap where that is not 0.
fn push_await(text: &mut String, one: Await) -> Result<(), AllocError>
    ensures { OnOk result (Adds text.old text.new (await_spelled one)) }
{
    push_number(text, u64::from(one.message))?;
    if one.gap == 0 {
        return Ok(());
    }
    text.push('+')?;
    push_number(text, u64::from(one.gap))
}
