//! The plan that a text gives.

ghost use Rattle.std.specs.Prelude.{◌≡◌, map, ◌<◌, length, IfOk};
ghost use Rattle.waff_model.specs.Numbers.{IsAmongFirst};
ghost use Rattle.waff_plan_text.specs.Rows.{IsWithinLimit};

use crate::row::Row;
use crate::summary::Summary;
use std::alloc::{AllocError, Global};
use std::marker::Model;
use waff_model::{Trace, Version};
use waff_plan::Plan;

/// A plan as a text gives it, which need not be a plan of anything: a row for each message, and a
/// summary. Messages are numbered from 1; all times are ticks.
pub struct GivenPlan {
    version: Version,
    rows: Vec<Row>,
    summary: Summary,
}

impl Model for GivenPlan {
    ghost use Rattle.waff_plan_text.specs.Given.{Given, IsGiven};

    ghost Value = { Given };

    ghost view = { λ p. record { version = p.version; rows = p.rows.items; summary = p.summary } };

    ghost invariant = { λ p.
        IsGiven (record { version = p.version; rows = p.rows.items; summary = p.summary }) };
}

// Written out: a derived drop is proved again in each crate that lets go of the value.
impl Drop for GivenPlan {
    fn drop(self) {
        let GivenPlan {
            version: _,
            rows,
            summary,
        } = self;
        drop(rows);
        drop(summary);
    }
}

impl GivenPlan {
    ghost use Rattle.waff_plan.specs.Timetable.{timings_of};
    ghost use Rattle.waff_plan_text.specs.Given.{IsGiven, row_at};

    /// The plan of these rows and this summary.
    pub(crate) fn new(version: Version, rows: Vec<Row>, summary: Summary) -> GivenPlan
        requires { IsGiven (record { version = version; rows = rows.items; summary = summary }) }
        ensures { result ≡ record { version = version; rows = rows.items; summary = summary } }
    {
        GivenPlan {
            version,
            rows,
            summary,
        }
    }

    /// How many messages there are.
    pub fn len(&self) -> u32
        ensures count { result ≡ length self.now.rows }
        ensures given { IsGiven self.now }
    {
        self.rows.len() as u32
    }

    /// What the row of message `n` says.
    pub fn row(&self, n: u32) -> &Row
        requires number { IsAmongFirst (length self.now.rows) n }
        ensures row { result.now ≡ row_at self.now.rows n }
        ensures within { IsWithinLimit result.now }
    {
        &self.rows[n as usize - 1]
    }

    /// The tick at which message `n` starts by its row.
    pub fn start(&self, n: u32) -> u64
        requires number { IsAmongFirst (length self.now.rows) n }
        ensures { result ≡ (row_at self.now.rows n).start }
    {
        self.rows[n as usize - 1].start
    }

    /// The tick at which message `n` has finished by its row.
    pub fn finish(&self, n: u32) -> u64
        requires number { IsAmongFirst (length self.now.rows) n }
        ensures { result ≡ (row_at self.now.rows n).finish }
    {
        self.rows[n as usize - 1].finish
    }

    /// The plan in which the messages of the trace start as the rows tell.
    pub fn plan(&self, alloc: Global, trace: &Trace) -> Result<Plan, AllocError>
        requires rows { length self.now.rows ≡ length trace.now.messages }
        ensures version { IfOk result (λ plan. plan.version ≡ trace.now.version) }
        ensures timings { IfOk result (λ plan. plan.timings ≡ timings_of trace.now.messages) }
        ensures starts { IfOk result (λ plan. plan.starts ≡ map (λ row. row.start) self.now.rows) }
        ensures given { IfOk result (λ _. IsGiven self.now) }
    {
        let starts = self.starts(alloc)?;
        Plan::of_starts(alloc, trace, starts.as_slice())
    }

    /// The starts by the rows, in the order of the messages.
    fn starts(&self, alloc: Global) -> Result<Vec<u64>, AllocError>
        ensures starts { IfOk result (λ v. v.items ≡ map (λ row. row.start) self.now.rows) }
        ensures given { IsGiven self.now }
    {
        self.rows.iter().map(|row| row.start).collect(alloc)
    }

    /// The number of workers, if the plan has workers.
    pub fn workers(&self) -> Option<u32>
        ensures { result ≡ self.now.summary.workers }
    {
        self.summary.workers
    }

    /// The version of the text.
    pub fn version(&self) -> Version
        ensures { result ≡ self.now.version }
    {
        self.version
    }

    /// The messages of the chain.
    pub fn chain(&self) -> &[u32]
        ensures chain { result.now ≡ self.now.summary.chain }
        ensures given { IsGiven self.now }
    {
        self.summary.chain.as_slice()
    }

    /// The lines of the summary.
    pub fn summary(&self) -> &Summary
        ensures summary { result.now ≡ self.now.summary }
        ensures given { IsGiven self.now }
    {
        &self.summary
    }
}
