//! The records of a plan text, one after the other.

ghost use Rattle.std.specs.Prelude.{OnOk};
ghost use Rattle.csv.specs.Records.{fields_of};
ghost use Rattle.waff_parse.specs.Rows.{Reads, records_left};
ghost use Rattle.waff_plan_text.specs.Records.{GivesRecord};

use crate::refusal::PlanTextError;
use csv::{Reader, StringRecord};
use waff_parse::{Stop, next_text};

/// Reads the next record, which has this number, if there is one.
pub(crate) fn next_record(
    at: u64,
    rdr: &mut Reader<&[u8]>,
    row: &mut StringRecord,
) -> Result<bool, Stop<PlanTextError>>
    requires { Reads rdr.old }
    ensures next { GivesRecord at result (records_left rdr.old)
        (fields_of row.new) (records_left rdr.new) }
    ensures reads { OnOk result (Reads rdr.new) }
{
    match next_text(rdr, row) {
        Ok(found) => Ok(found),
        Err(Stop::Memory) => Err(Stop::Memory),
        Err(Stop::Fault(_)) => Err(Stop::Fault(PlanTextError::Csv { at })),
    }
}
