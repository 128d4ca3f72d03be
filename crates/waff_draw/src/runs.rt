//! The runs of the chain: bars of it that touch in a row are outlined as one.

ghost use Rattle.std.specs.Prelude.{◌≡◌, ◌++◌, ◌∷◌, All, IfOk, List, OnOk, string_bytes};
ghost use Rattle.waff_plan.specs.Work.{IsNumber};
ghost use Rattle.waff_plan_text.specs.Lines.{Adds};
ghost use Rattle.waff_draw.specs.Runs.{bars_in_order, outlines, outlines_in, run_at, run_text, touches};
ghost use Rattle.waff_draw.specs.Scene.{work_of_scene};
ghost use Rattle.waff_draw.specs.declared.runs.Run.{Run};

use crate::bars::{left_of, right_of};
use crate::chart::Chart;
use crate::lanes::LaneKind;
use crate::pieces::push_run_line;
use std::alloc::AllocError;

/// A run: its row, and its left and right edge from that of the part, both in hundredths of a pixel.
#[derive(Clone, Copy)]
pub struct Run {
    pub row: u64,
    pub left: u128,
    pub right: u128,
}

/// Appends the outlines of the chain among the lanes of this kind.
pub(crate) fn push_runs(
    text: &mut String,
    chart: &Chart<'_>,
    kind: LaneKind,
) -> Result<(), AllocError>
    ensures { OnOk result (Adds text.old text.new (outlines_in chart.now kind)) }
{
    push_runs_of(text, chart, kind, chart.chain())
}

/// Appends the outlines of these messages, of which each goes on with the run before it or begins one.
fn push_runs_of(
    text: &mut String,
    chart: &Chart<'_>,
    kind: LaneKind,
    chain: &[u32],
) -> Result<(), AllocError>
    requires { All (IsNumber (work_of_scene chart.now)) chain.now }
    ensures { OnOk result (Adds text.old text.new
        (outlines (bars_in_order chart.now kind chain.now))) }
{
    let mut run = Run {
        row: 0,
        left: 0,
        right: 0,
    };
    for n in chain {
        if let Some(row) = chart.shown_row(kind, *n) {
            run = push_link(text, run, as_run(chart, row, *n))?;
        }
    }
    push_run(text, run)
}

/// The bar of message `n` in this row, as a run.
fn as_run(chart: &Chart<'_>, row: u64, n: u32) -> Run
    requires { IsNumber (work_of_scene chart.now) n }
    ensures { result ≡ run_at chart.now row n }
{
    Run {
        row,
        left: left_of(chart, n),
        right: right_of(chart, n),
    }
}

/// A bar behind a run: they are one run where they touch, else the run is appended, and the bar is one.
/// Whatever follows, what is appended and the run that goes on have the outlines of both.
fn push_link(text: &mut String, run: Run, bar: Run) -> Result<Run, AllocError>
    ensures { IfOk result (λ next. (bars : List Run)
        → (string_bytes text.new ++ outlines (next ∷ bars))
        ≡ (string_bytes text.old ++ outlines (run ∷ bar ∷ bars))) }
{
    if touches(run, bar) {
        return Ok(Run {
            row: run.row,
            left: run.left,
            right: bar.right,
        });
    }
    push_run(text, run)?;
    Ok(bar)
}

/// Whether the one ends where the other begins, in the same row.
fn touches(run: Run, next: Run) -> bool
    ensures { result ≡ touches run next }
{
    run.row == next.row && run.right == next.left
}

/// Appends a run, if it has a width.
fn push_run(text: &mut String, run: Run) -> Result<(), AllocError>
    ensures { OnOk result (Adds text.old text.new (run_text run)) }
{
    if run.left < run.right {
        push_run_line(text, run)?;
    }
    Ok(())
}
