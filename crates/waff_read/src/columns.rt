//! The columns of a trace: which a version has, and in which order.

ghost use Rattle.std.specs.Prelude.{◌≡◌, length, option_map};
ghost use Rattle.csv.specs.Records.{fields_of};
ghost use Rattle.waff_parse.specs.Fields.{field_of};
ghost use Rattle.waff_read.specs.Messages as messages;

use crate::trace_fault::TraceFault;
use csv::StringRecord;
use std::marker::Model;
use waff_model::Version;
use waff_parse::field;

/// The fields of a message: none is the field of a column that the version has not.
#[derive(Drop)]
pub(crate) struct Columns<'a> {
    pub(crate) name: &'a str,
    pub(crate) cost: &'a str,
    pub(crate) release: Option<&'a str>,
    pub(crate) client: Option<&'a str>,
    pub(crate) think: Option<&'a str>,
    pub(crate) after: Option<&'a str>,
    pub(crate) ops: &'a str,
}

impl<'a> Model for Columns<'a> {
    ghost use Rattle.std.specs.Prelude.{option_map};
    ghost use Rattle.waff_read.specs.Messages.{Columns as Fields};

    ghost Value = { Fields };

    ghost view = { λ c. record {
      name = c.name.now;
      cost = c.cost.now;
      release = option_map (λ s. s.now) c.release;
      client = option_map (λ s. s.now) c.client;
      think = option_map (λ s. s.now) c.think;
      after = option_map (λ s. s.now) c.after;
      ops = c.ops.now;
    } };
}

// How many columns a version has.
fn column_count(version: Version) -> usize
    ensures { result ≡ length (messages.header_row version) }
{
    match version {
        Version::V1 => 3,
        Version::V2 => 4,
        Version::V3 => 6,
        Version::V4 => 7,
    }
}

// The field at a place of a record, of a column that is there.
fn field_if(has: bool, row: &StringRecord, place: usize) -> Option<&str>
    ensures { option_map (λ s. s.now) result ≡ messages.only has
        (field_of (fields_of row.now) place) }
{
    if has { Some(field(row, place)) } else { None }
}

/// The fields of a record, if there are as many as its version wants.
pub(crate) fn read_columns(version: Version, row: &StringRecord) -> Option<Columns<'_>>
    ensures { result ≡ messages.columns_of version (fields_of row.now) }
{
    let count = column_count(version);
    if row.len() != count {
        return None;
    }
    Some(Columns {
        name: field(row, 0),
        cost: field(row, 1),
        release: field_if(version.has_releases(), row, 2),
        client: field_if(version.has_clients(), row, 3),
        think: field_if(version.has_clients(), row, 4),
        after: field_if(version.has_after(), row, 5),
        ops: field(row, count - 1),
    })
}

// Whether the field of a column that is there is its title.
fn is_title(title: &str, field: Option<&str>) -> bool
    ensures { result ≡ messages.is_title title.now (option_map (λ s. s.now) field.entry) }
{
    match field {
        Some(field) => field == title,
        None => true,
    }
}

// Whether each field is the title of its column.
fn are_titles(columns: &Columns<'_>) -> bool
    ensures { result ≡ messages.are_titles columns.now }
{
    columns.name == "message"
        && columns.cost == "cost"
        && is_title("release", columns.release)
        && is_title("client", columns.client)
        && is_title("think", columns.think)
        && is_title("after", columns.after)
        && columns.ops == "ops"
}

// Whether a record is the header of a version.
fn is_header(version: Version, row: &StringRecord) -> bool
    ensures { result ≡ messages.is_header (messages.columns_of version (fields_of row.now)) }
{
    match read_columns(version, row) {
        Some(columns) => are_titles(&columns),
        None => false,
    }
}

// The version that a header tells.
fn told_version(row: &StringRecord) -> Result<Version, TraceFault>
    ensures { result ≡ messages.told_version (fields_of row.now) }
{
    if is_header(Version::V1, row) {
        return Ok(Version::V1);
    }
    if is_header(Version::V2, row) {
        return Ok(Version::V2);
    }
    if is_header(Version::V3, row) {
        return Ok(Version::V3);
    }
    if is_header(Version::V4, row) {
        return Ok(Version::V4);
    }
    Err(TraceFault::Header)
}

/// The version that a header tells, up to the newest that is known.
pub(crate) fn read_version(newest: Version, row: &StringRecord) -> Result<Version, TraceFault>
    ensures { result ≡ messages.version_of newest (fields_of row.now) }
{
    let version = told_version(row)?;
    if version.number() <= newest.number() {
        Ok(version)
    } else {
        Err(TraceFault::Header)
    }
}
