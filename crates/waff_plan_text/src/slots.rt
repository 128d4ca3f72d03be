//! The rows so far of a plan text, by message.

ghost use Rattle.std.specs.Prelude.{◌≡◌, ◌-◌, None, Some, All, IfOk, IfSome, is_some, length};
ghost use Rattle.std.specs.Prelude.{replicate, slice_set};
ghost use Rattle.csv.specs.Records.{fields_of};
ghost use Rattle.waff_model.specs.Numbers.{IsAmongFirst};
ghost use Rattle.waff_parse.specs.Stopping.{Gives};
ghost use Rattle.waff_plan_text.specs.Rows as rows;
ghost use Rattle.waff_plan_text.specs.Rows.{IsWithinLimit, slot_of};
ghost use Rattle.waff_plan_text.specs.PlanTexts.{rows_in};

use crate::refusal::{PlanTextError, Refusal};
use crate::row::{NumberedRow, Row, is_row, read_fields};
use csv::StringRecord;
use std::alloc::{AllocError, Global};
use std::marker::Model;
use waff_parse::{Stop, five_fields, number_within};

/// One place for each message, with its row if it had one.
#[derive(Drop)]
pub(crate) struct Slots {
    places: Vec<Option<Row>>,
}

impl Model for Slots {
    ghost use Rattle.std.specs.Prelude.{List, Option, All, IfSome, ◌^◌, ◌<◌, length};
    ghost use Rattle.waff_plan_text.specs.declared.row.Row.{Row};
    ghost use Rattle.waff_plan_text.specs.Rows.{IsWithinLimit};

    ghost Value = { List (Option Row) };

    ghost view = { λ s. s.places.items };

    ghost invariant = { λ s. (length s.places.items < 2 ^ 32)
        × All (λ slot. IfSome slot IsWithinLimit) s.places.items };
}

impl Slots {
    /// Places for as many messages, none of which had a row.
    pub(crate) fn new(alloc: Global, messages: u32) -> Result<Slots, AllocError>
        ensures { IfOk result (λ slots. slots ≡ replicate messages None) }
    {
        let mut places = Vec::with_capacity(alloc, messages as usize)?;
        for _message in 0..messages {
            places.push_reserved(None);
        }
        Ok(Slots { places })
    }

    /// How many messages there are.
    pub(crate) fn len(&self) -> u32
        ensures { result ≡ length self.now }
    {
        self.places.len() as u32
    }

    /// Whether message `n`, from 1, had a row.
    pub(crate) fn has(&self, n: u32) -> bool
        requires number { IsAmongFirst (length self.now) n }
        ensures { result ≡ is_some (slot_of self.now n) }
    {
        self.places[n as usize - 1].is_some()
    }

    /// The row of a record, for a message that had none.
    #[tactic(auto, unfolding(crate::specs::Rows::numbered_row_of))]
    pub(crate) fn read_row(
        &self,
        alloc: Global,
        line: &StringRecord,
    ) -> Result<NumberedRow, Stop<Refusal>>
        ensures value { Gives (λ row. row) result (rows.row_of self.now (fields_of line.now)) }
        ensures within { IfOk result (λ given. IsWithinLimit given.row) }
        ensures number { IfOk result (λ given. IsAmongFirst (length self.now) given.message) }
    {
        let Some((message, affinity, start, finish, worker)) = five_fields(line) else {
            return Err(Stop::Fault(Refusal::Row));
        };
        let message = match number_within(message, 1, u64::from(self.len())) {
            Some(message) => message as u32,
            None => return Err(Stop::Fault(Refusal::Row)),
        };
        if !is_row(affinity, start, finish, worker) {
            return Err(Stop::Fault(Refusal::Row));
        }
        if self.has(message) {
            return Err(Stop::Fault(Refusal::Twice));
        }
        let row = read_fields(alloc, affinity, start, finish, worker)?;
        Ok(NumberedRow { message, row })
    }

    /// Puts a row in the place of its message.
    pub(crate) fn put(&mut self, given: NumberedRow)
        requires number { IsAmongFirst (length self.old) given.message }
        requires within { IsWithinLimit given.row }
        ensures { self.new ≡ slice_set self.old (given.message - 1) (Some given.row) }
    {
        self.places[given.message as usize - 1] = Some(given.row);
    }

    /// All rows in the order of the messages, each of which had one.
    pub(crate) fn into_rows(self, alloc: Global) -> Result<Vec<Row>, Stop<PlanTextError>>
        ensures rows { Gives (λ rows. rows.items) result (rows_in self) }
        ensures within { IfOk result (λ rows. All IsWithinLimit rows.items) }
        ensures count { IfOk result (λ rows. length rows.items ≡ length self) }
    {
        let mut rows = Vec::with_capacity(alloc, self.places.len())?;
        let mut before = 0;
        let Slots { places } = self;
        for place in places {
            match place {
                Some(row) => rows.push_reserved(row),
                None => {
                    let message = before + 1;
                    return Err(Stop::Fault(PlanTextError::Missing { message }));
                }
            }
            before += 1;
        }
        Ok(rows)
    }
}
