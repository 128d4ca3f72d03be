//! Records of CSV, read one after the other as text.

ghost use Rattle.std.specs.Prelude.{◌≡◌, OnOk, true, false};
ghost use Rattle.csv.specs.Records.{fields_of};
ghost use Rattle.waff_parse.specs.Rows as rows;

use crate::stop::Stop;
use csv::{ErrorKind, Reader, ReaderBuilder, StringRecord};
use std::alloc::Global;

/// What is wrong with a record that has a field that is no text.
#[derive(Clone, Copy, Debug)]
pub struct NotText;

/// A reader of all records of these bytes, none of them a header row of its own, of any number of
/// fields.
pub fn text_rows(alloc: Global, bytes: &[u8]) -> Reader<&[u8]>
    ensures reads { rows.Reads result }
    ensures left { rows.records_left result ≡ rows.records_of bytes.now }
{
    ReaderBuilder::new()
        .has_headers(false)
        .flexible(true)
        .from_reader(alloc, bytes)
}

// Whether a record was refused for a field that is no text.
fn is_not_text(kind: &ErrorKind) -> bool
    requires { rows.RefusesRecord kind.now }
    ensures { result ≡ rows.is_not_text kind.now }
{
    match kind {
        ErrorKind::Utf8 { .. } => true,
        ErrorKind::Io(_) | ErrorKind::OutOfMemory => false,
        ErrorKind::UnequalLengths { .. }
        | ErrorKind::Serialize(_)
        | ErrorKind::Deserialize { .. } => unreachable!(),
    }
}

/// Reads the next record, if there is one. After an error the reader is of no further use.
pub fn next_text(rdr: &mut Reader<&[u8]>, row: &mut StringRecord) -> Result<bool, Stop<NotText>>
    requires { rows.Reads rdr.old }
    ensures next { rows.GivesNext result (rows.records_left rdr.old)
        (fields_of row.new) (rows.records_left rdr.new) }
    ensures reads { OnOk result (rows.Reads rdr.new) }
{
    match rdr.read_record(row) {
        Ok(found) => Ok(found),
        Err(e) => {
            if is_not_text(e.kind()) {
                Err(Stop::Fault(NotText))
            } else {
                Err(Stop::Memory)
            }
        }
    }
}
