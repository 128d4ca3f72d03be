//! One row of a plan text: what it says of a message.

ghost use Rattle.std.specs.Prelude.{◌≡◌, IfOk};
ghost use Rattle.waff_parse.specs.Stopping.{Gives};
ghost use Rattle.waff_plan_text.specs.Rows as rows;

use crate::field::{is_number, is_worker, read_number, read_worker};
use crate::refusal::Refusal;
use std::alloc::Global;
use waff_model::{Text, is_name};
use waff_parse::Stop;

/// What the header of a plan text says: what stands in each column.
pub const COLUMNS: [&str; 5] = ["message", "affinity", "start", "finish", "worker"];

/// What a row says of its message: all times are ticks.
#[derive(Drop)]
pub struct Row {
    /// The name of the message's affinity.
    pub affinity: Text,
    pub start: u64,
    pub finish: u64,
    /// The worker, from 1; none where the row has a dash.
    pub worker: Option<u64>,
}

/// A row with the number of its message.
#[derive(Drop)]
pub struct NumberedRow {
    pub message: u32,
    pub row: Row,
}

/// Whether fields behind the number of a message are those of a row.
pub(crate) fn is_row(affinity: &str, start: &str, finish: &str, worker: &str) -> bool
    ensures { result ≡ rows.is_row affinity.now start.now finish.now worker.now }
{
    is_name(affinity) && is_number(start) && is_number(finish) && is_worker(worker)
}

/// What the fields of a row say.
#[tactic(auto, unfolding(crate::specs::Rows::row_of_fields))]
pub(crate) fn read_fields(
    alloc: Global,
    affinity: &str,
    start: &str,
    finish: &str,
    worker: &str,
) -> Result<Row, Stop<Refusal>>
    ensures value { Gives (λ row. row) result
        (rows.row_of_fields affinity.now start.now finish.now worker.now) }
    ensures within { IfOk result rows.IsWithinLimit }
{
    let start = match read_number(start) {
        Ok(start) => start,
        Err(refusal) => return Err(Stop::Fault(refusal)),
    };
    let finish = match read_number(finish) {
        Ok(finish) => finish,
        Err(refusal) => return Err(Stop::Fault(refusal)),
    };
    let worker = match read_worker(worker) {
        Ok(worker) => worker,
        Err(refusal) => return Err(Stop::Fault(refusal)),
    };
    Ok(Row {
        affinity: Text::of(alloc, affinity)?,
        start,
        finish,
        worker,
    })
}
