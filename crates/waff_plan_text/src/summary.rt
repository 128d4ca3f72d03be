//! The summary of a plan text.

ghost use Rattle.std.specs.Prelude.{◌≡◌, true, ◌+◌, ◌∷◌, ◌^◌, ◌<◌, IfOk, IfSome};
ghost use Rattle.csv.specs.Records.{fields_of};
ghost use Rattle.waff_parse.specs.Rows.{Reads, records_left, is_text};
ghost use Rattle.waff_parse.specs.Stopping.{Gives};
ghost use Rattle.waff_plan.specs.Bound.{IsWorkers};
ghost use Rattle.waff_plan.specs.Chain.{IsListed};
ghost use Rattle.waff_plan_text.specs.Summaries as summaries;

use crate::lines;
use crate::records::next_record;
use crate::refusal::{PlanTextError, Refusal};
use crate::table::{Line, all_lines};
use csv::{Reader, StringRecord};
use std::alloc::Global;
use std::marker::Model;
use waff_model::Version;
use waff_parse::Stop;
use waff_plan::Totals;

/// The lines of the summary.
#[derive(Drop)]
pub struct Summary {
    /// The number of workers, if the plan has workers.
    pub workers: Option<u32>,
    /// The messages of the chain, by number from 1.
    pub chain: Vec<u32>,
    pub totals: Totals,
}

impl Model for Summary {
    ghost use Rattle.waff_plan_text.specs.Given.{SummaryLines};

    ghost Value = { SummaryLines };

    ghost view = { λ s. record { workers = s.workers; chain = s.chain.items; totals = s.totals } };
}

impl Summary {
    ghost use Rattle.std.specs.Prelude.{OnOk};

    /// The summary before its first line is read.
    fn new(alloc: Global) -> Summary
        ensures { result ≡ summaries.no_summary }
    {
        Summary {
            workers: None,
            chain: Vec::new(alloc),
            totals: Totals {
                total: 0,
                length: 0,
                release: 0,
                cost: 0,
                left: 0,
                right: 0,
            },
        }
    }

    /// Takes what this row tells as this line, of a plan of as many messages.
    fn read_line(
        &mut self,
        alloc: Global,
        messages: u32,
        line: Line,
        row: &StringRecord,
    ) -> Result<(), Stop<Refusal>>
        requires workers { IfSome self.old.workers IsWorkers }
        requires chain { IsListed messages self.old.chain }
        ensures value { Gives (λ _. self.new) result
            (summaries.with_line messages line (fields_of row.now) self.old) }
        ensures workers { OnOk result (IfSome self.new.workers IsWorkers) }
        ensures chain { OnOk result (IsListed messages self.new.chain) }
    {
        match line {
            Line::Workers => self.workers = lines::workers(row)?,
            Line::Total => self.totals.total = lines::tick(line.name(), row)?,
            Line::Length => self.totals.length = lines::tick(line.name(), row)?,
            Line::Chain => self.chain = lines::chain(alloc, messages, row)?,
            Line::Release => self.totals.release = lines::tick(line.name(), row)?,
            Line::Cost => self.totals.cost = lines::tick(line.name(), row)?,
            Line::Bound => {
                let (left, right) = lines::bound(row)?;
                self.totals.left = left;
                self.totals.right = right;
            }
        }
        Ok(())
    }
}

/// The summary of which the first line is this row, the record of this number.
pub(crate) fn read_summary(
    alloc: Global,
    version: Version,
    messages: u32,
    first: u64,
    rdr: &mut Reader<&[u8]>,
    row: &mut StringRecord,
) -> Result<Summary, Stop<PlanTextError>>
    requires reads { Reads rdr.old }
    requires text { is_text (fields_of row.old) ≡ true }
    requires room { first + 8 < 2 ^ 64 }
    ensures value { Gives (λ s. s) result
        (summaries.summary_of version messages first (fields_of row.old ∷ records_left rdr.old)) }
    ensures workers { IfOk result (λ s. IfSome s.workers IsWorkers) }
    ensures chain { IfOk result (λ s. IsListed messages s.chain) }
{
    let mut summary = Summary::new(alloc);
    let mut at = first;
    let mut found = true;
    let lines = all_lines();
    for line in lines {
        if !line.is_in(version) {
            continue;
        }
        if !found {
            return Err(Stop::Fault(PlanTextError::Summary { at }));
        }
        match summary.read_line(alloc, messages, *line, row) {
            Ok(()) => {}
            Err(Stop::Memory) => return Err(Stop::Memory),
            Err(Stop::Fault(refusal)) => return Err(Stop::Fault(refusal.at_record(at))),
        }
        at += 1;
        found = next_record(at, rdr, row)?;
    }
    if found {
        return Err(Stop::Fault(PlanTextError::Summary { at }));
    }
    Ok(summary)
}
