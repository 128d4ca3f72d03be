//! How good one plan is.

ghost use Rattle.std.specs.Prelude.{OnOk};
ghost use Rattle.waff_plan_text.specs.Lines.{Adds, text_of};
ghost use Rattle.waff_figures.specs.Rate.{quality_lines, rate_lines, size_lines, speed_lines};

use crate::fields::BusyField;
use crate::figures::Figures;
use std::alloc::AllocError;
use waff_plan_text::{Mean, Ratio, RatioUp, WorkerField};

/// Appends a line for each figure: its name and its value.
pub fn push_rate(text: &mut String, figures: &Figures) -> Result<(), AllocError>
    ensures { OnOk result (Adds text.old text.new
        (text_of (rate_lines figures.now))) }
{
    push_sizes(text, figures)?;
    push_speeds(text, figures)?;
    push_quality(text, figures)
}

/// Appends the lines of how much is run.
fn push_sizes(text: &mut String, figures: &Figures) -> Result<(), AllocError>
    ensures { OnOk result (Adds text.old text.new
        (text_of (size_lines figures.now))) }
{
    let Figures { total, length, .. } = *figures;
    let workers = WorkerField(figures.workers);
    writeln!(text, "workers,{workers}\ntotal,{total}\nlength,{length}")
}

/// Appends the lines of how fast it is run.
fn push_speeds(text: &mut String, figures: &Figures) -> Result<(), AllocError>
    ensures { OnOk result (Adds text.old text.new
        (text_of (speed_lines figures.now))) }
{
    let Figures { total, length, .. } = *figures;
    let speedup = Ratio(total, u128::from(length));
    let busy = BusyField {
        workers: figures.workers,
        total,
        length,
    };
    writeln!(text, "speedup,{speedup}\nbusy,{busy}")
}

/// Appends the lines of how good the plan is.
fn push_quality(text: &mut String, figures: &Figures) -> Result<(), AllocError>
    ensures { OnOk result (Adds text.old text.new
        (text_of (quality_lines figures.now))) }
{
    let Figures {
        least,
        waits,
        p50,
        p99,
        latency,
        ..
    } = *figures;
    let over = RatioUp(figures.length, least);
    let mean = Mean(figures.latencies, figures.messages);
    writeln!(
        text,
        "least,{least}\nover,{over}\nwaits,{waits}\nmean,{mean}\np50,{p50}\np99,{p99}\nlatency,{latency}"
    )
}
