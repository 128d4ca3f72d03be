//! Figures as they are printed.

ghost use Rattle.std.specs.Prelude.{Some};
ghost use Rattle.std.specs.List.{join_with_byte};
ghost use Rattle.waff_figures.specs.Parts.{part_fields};
ghost use Rattle.waff_figures.specs.Sweep.{busy_field, quality_fields};

use crate::figures::Figures;
use crate::parts::PartFigures;
use crate::tally::Tally;
use std::fmt;
use waff_plan_text::{Mean, Ratio, RatioUp};

/// How much of the time workers are busy.
#[derive(Clone, Copy)]
pub(crate) struct BusyField {
    pub(crate) workers: Option<u32>,
    pub(crate) total: u64,
    pub(crate) length: u64,
}

impl fmt::Display for BusyField {
    ghost output = { λ busy. Some (busy_field busy.workers busy.total busy.length) };

    fn fmt<W: fmt::Write>(&self, f: &mut fmt::Formatter<W>) -> fmt::Result {
        match self.workers {
            Some(k) => {
                let time = u128::from(k) * u128::from(self.length);
                write!(f, "{}", Ratio(self.total, time))
            }
            None => write!(f, "-"),
        }
    }
}

/// The names of the figures that tell how good a plan is, joined by commas.
pub const QUALITY: &str = "least,over,waits,mean,p50,p99,latency";

/// How much longer a plan is than it has to be, and how long its messages take: the fields of
/// `QUALITY`, joined by commas.
#[derive(Clone, Copy)]
pub struct QualityFields(pub Figures);

impl fmt::Display for QualityFields {
    ghost output = { λ quality. Some (join_with_byte 44 (quality_fields quality.0)) };

    fn fmt<W: fmt::Write>(&self, f: &mut fmt::Formatter<W>) -> fmt::Result {
        let Figures {
            least,
            waits,
            p50,
            p99,
            latency,
            ..
        } = self.0;
        let over = RatioUp(self.0.length, least);
        let mean = Mean(self.0.latencies, self.0.messages);
        write!(f, "{least},{over},{waits},{mean},{p50},{p99},{latency}")
    }
}

/// The names of the figures of a part of the messages, joined by commas.
pub(crate) const PART: &str = "running,waits,mean,p50,p99,latency";

/// How many messages of a part run at once in the mean, in a plan of this length, and how long they
/// wait and take: the fields of `PART`, joined by commas.
#[derive(Clone, Copy)]
pub(crate) struct PartFields {
    pub(crate) plan_length: u64,
    pub(crate) tally: Tally,
    pub(crate) figures: PartFigures,
}

impl fmt::Display for PartFields {
    ghost output = { λ part. Some (join_with_byte 44 (part_fields part.plan_length part.tally part.figures)) };

    fn fmt<W: fmt::Write>(&self, f: &mut fmt::Formatter<W>) -> fmt::Result {
        let PartFigures {
            waits,
            latencies,
            p50,
            p99,
            latency,
        } = self.figures;
        let running = Ratio(self.tally.cost, u128::from(self.plan_length));
        let mean = Mean(latencies, self.tally.messages);
        write!(f, "{running},{waits},{mean},{p50},{p99},{latency}")
    }
}
