//! The fields of records, and of records of a known number of fields.

ghost use Rattle.std.specs.Prelude.{◌≡◌, option_map};
ghost use Rattle.csv.specs.Records.{fields_of};
ghost use Rattle.waff_parse.specs.Fields as fields;

use csv::StringRecord;

/// The field at a place of a record, empty where it has none there.
pub fn field(row: &StringRecord, place: usize) -> &str
    ensures { result.now ≡ fields.field_of (fields_of row.now) place }
{
    row.get(place).unwrap_or("")
}

/// The fields of a record, if it has two.
pub fn two_fields(row: &StringRecord) -> Option<(&str, &str)>
    ensures { option_map fields.two_texts result ≡ fields.two_of (fields_of row.now) }
{
    if row.len() != 2 {
        return None;
    }
    Some((field(row, 0), field(row, 1)))
}

/// The fields of a record, if it has three.
pub fn three_fields(row: &StringRecord) -> Option<(&str, &str, &str)>
    ensures { option_map fields.three_texts result ≡ fields.three_of (fields_of row.now) }
{
    if row.len() != 3 {
        return None;
    }
    Some((field(row, 0), field(row, 1), field(row, 2)))
}

/// The fields of a record, if it has five.
pub fn five_fields(row: &StringRecord) -> Option<(&str, &str, &str, &str, &str)>
    ensures { option_map fields.five_texts result ≡ fields.five_of (fields_of row.now) }
{
    if row.len() != 5 {
        return None;
    }
    Some((
        field(row, 0),
        field(row, 1),
        field(row, 2),
        field(row, 3),
        field(row, 4),
    ))
}
