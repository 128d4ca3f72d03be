//! Why the text of a plan is refused.

ghost use Rattle.std.specs.Prelude.{◌≡◌};
ghost use Rattle.waff_plan_text.specs.Refusals as refusals;

/// What is wrong with a record of a plan text, in the order of the numbers that the errors have.
#[derive(Clone, Copy)]
pub enum Refusal {
    /// It is not CSV, or not text.
    Csv,
    /// It is not the header.
    Header,
    /// It is not a row.
    Row,
    /// It is a row for a message that had one.
    Twice,
    /// It is not the next line of the summary.
    Summary,
    /// A number in it is above the limit.
    TooLarge,
}

/// Why the text of a plan was refused; `at` is the number of the record, the header's being 1.
#[derive(Clone, Copy, Debug, PartialEq)]
pub enum PlanTextError {
    /// CSV refuses the record, or one of its fields is not UTF-8.
    Csv { at: u64 },
    /// The first record is not the header, or there is none.
    Header { at: u64 },
    /// A record before the summary is not a row.
    Row { at: u64 },
    /// The message is the first without a row.
    Missing { message: u32 },
    /// The row is for a message that had one.
    Twice { at: u64 },
    /// The record is not the next line of the summary, which ends with the text.
    Summary { at: u64 },
    /// A number in the record is above the limit.
    TooLarge { at: u64 },
    /// A growth was refused.
    Memory,
}

impl Refusal {
    /// The error that tells this refusal of a record.
    pub(crate) fn at_record(self, at: u64) -> PlanTextError
        ensures { result ≡ refusals.at_record at self }
    {
        match self {
            Refusal::Csv => PlanTextError::Csv { at },
            Refusal::Header => PlanTextError::Header { at },
            Refusal::Row => PlanTextError::Row { at },
            Refusal::Twice => PlanTextError::Twice { at },
            Refusal::Summary => PlanTextError::Summary { at },
            Refusal::TooLarge => PlanTextError::TooLarge { at },
        }
    }
}
