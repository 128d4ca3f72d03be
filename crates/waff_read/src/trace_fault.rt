//! Why a trace is refused.

ghost use Rattle.std.specs.Prelude.{◌≡◌};
ghost use Rattle.waff_parse.specs.declared.stop.Stop.TheVariants.{Fault};
ghost use Rattle.waff_read.specs.TraceFaults as faults;

use waff_parse::{Ranked, Stop};

/// What is wrong with a record of a trace, in the order of the numbers that the errors have.
#[derive(Clone, Copy)]
pub enum TraceFault {
    /// It is not CSV, or not text.
    Csv,
    /// It is not a header.
    Header,
    /// It has another number of fields.
    Fields,
    /// Its first field is not a name.
    Name,
    /// Its second field is not a cost.
    Cost,
    /// It has no operation.
    NoOps,
    /// An operation is not spelled as one.
    Op,
    /// A cell is of an unknown space.
    SpaceUnknown,
    /// A cell is behind the end of its space.
    IndexTooLarge,
    /// It has too many operations.
    TooManyOps,
    /// It is one message too many.
    TooManyMessages,
    /// Its third field is not a release.
    Release,
    /// Its fourth field is not the name of a client.
    Client,
    /// Its fifth field is not a think time.
    Think,
    /// Its sixth field is not a list of earlier messages.
    After,
    /// Its list has too many messages.
    TooManyAfter,
}

impl Ranked for TraceFault {
    ghost rank = { faults.number };

    fn rank(&self) -> u32 {
        match self {
            TraceFault::Csv => 1,
            TraceFault::Header => 2,
            TraceFault::Fields => 3,
            TraceFault::Name => 4,
            TraceFault::Cost => 5,
            TraceFault::NoOps => 6,
            TraceFault::Op => 7,
            TraceFault::SpaceUnknown => 8,
            TraceFault::IndexTooLarge => 9,
            TraceFault::TooManyOps => 10,
            TraceFault::TooManyMessages => 11,
            TraceFault::Release => 13,
            TraceFault::Client => 14,
            TraceFault::Think => 15,
            TraceFault::After => 16,
            TraceFault::TooManyAfter => 17,
        }
    }
}

impl From<TraceFault> for Stop<TraceFault> {
    ghost from_gives = { λ fault stop. stop ≡ Fault fault };

    fn from(fault: TraceFault) -> Stop<TraceFault> {
        Stop::Fault(fault)
    }
}

/// Why a trace was refused; `at` is the number of the record, the header's being 1.
#[derive(Clone, Copy, Debug, PartialEq)]
pub enum TraceError {
    /// CSV refuses the record, or one of its fields is not UTF-8.
    Csv { at: u64 },
    /// The first record is not a header, or there is none.
    Header { at: u64 },
    /// The record has not as many fields as the header.
    Fields { at: u64 },
    /// The first field is not a name.
    Name { at: u64 },
    /// The second field is not a cost within the limit.
    Cost { at: u64 },
    /// There is no operation.
    NoOps { at: u64 },
    /// An operation is not spelled as one.
    Op { at: u64 },
    /// A cell is of no space of the layout.
    SpaceUnknown { at: u64 },
    /// A cell's index is not below the size of its space.
    IndexTooLarge { at: u64 },
    /// There are more operations than the limit.
    TooManyOps { at: u64 },
    /// There are more messages than the limit.
    TooManyMessages { at: u64 },
    /// A growth was refused.
    Memory,
    /// The third field is not a release within the limit.
    Release { at: u64 },
    /// The fourth field is not a name.
    Client { at: u64 },
    /// The fifth field is not a think time within the limit.
    Think { at: u64 },
    /// The sixth field is not a list of earlier messages by rising numbers, with gaps within the
    /// limit.
    After { at: u64 },
    /// The lists have more messages than the limit.
    TooManyAfter { at: u64 },
}

impl TraceFault {
    /// The error that tells this fault of a record.
    pub(crate) fn at_record(self, at: u64) -> TraceError
        ensures { result ≡ faults.at_record at self }
    {
        match self {
            TraceFault::Csv => TraceError::Csv { at },
            TraceFault::Header => TraceError::Header { at },
            TraceFault::Fields => TraceError::Fields { at },
            TraceFault::Name => TraceError::Name { at },
            TraceFault::Cost => TraceError::Cost { at },
            TraceFault::NoOps => TraceError::NoOps { at },
            TraceFault::Op => TraceError::Op { at },
            TraceFault::SpaceUnknown => TraceError::SpaceUnknown { at },
            TraceFault::IndexTooLarge => TraceError::IndexTooLarge { at },
            TraceFault::TooManyOps => TraceError::TooManyOps { at },
            TraceFault::TooManyMessages => TraceError::TooManyMessages { at },
            TraceFault::Release => TraceError::Release { at },
            TraceFault::Client => TraceError::Client { at },
            TraceFault::Think => TraceError::Think { at },
            TraceFault::After => TraceError::After { at },
            TraceFault::TooManyAfter => TraceError::TooManyAfter { at },
        }
    }
}
