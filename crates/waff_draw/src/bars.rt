//! The bars of a picture.

ghost use Rattle.std.specs.Prelude.{◌≡◌, OnOk};
ghost use Rattle.waff_plan.specs.Work.{IsNumber};
ghost use Rattle.waff_plan_text.specs.Lines.{Adds};
ghost use Rattle.waff_draw.specs.Bars.{bar_at, bar_in, bars_of, is_narrow, left_of, right_of};
ghost use Rattle.waff_draw.specs.Scene.{work_of_scene};

use crate::chart::Chart;
use crate::lanes::LaneKind;
use crate::pieces::push_bar_line;
use std::alloc::AllocError;

/// A bar: its message, its row, its left edge from that of the part and its width, both in hundredths
/// of a pixel; the ticks at which the message starts and finishes, the number of its name's colour,
/// whether it is on the chain, and whether the bar is narrower than four pixels.
#[derive(Clone, Copy)]
pub struct Bar {
    pub message: u32,
    pub row: u64,
    pub left: u128,
    pub width: u128,
    pub start: u64,
    pub finish: u64,
    pub colour: u32,
    pub is_link: bool,
    pub is_thin: bool,
}

/// Appends the bars of the messages that are shown and have a row among the lanes of this kind.
pub(crate) fn push_bars(
    text: &mut String,
    chart: &Chart<'_>,
    kind: LaneKind,
) -> Result<(), AllocError>
    ensures { OnOk result (Adds text.old text.new (bars_of chart.now kind)) }
{
    for n in 1..chart.len() + 1 {
        if let Some(row) = chart.shown_row(kind, n) {
            push_bar(text, chart, row, n)?;
        }
    }
    Ok(())
}

/// Appends the bar of message `n` in this row.
fn push_bar(text: &mut String, chart: &Chart<'_>, row: u64, n: u32) -> Result<(), AllocError>
    requires { IsNumber (work_of_scene chart.now) n }
    ensures { OnOk result (Adds text.old text.new (bar_in chart.now row n)) }
{
    let bar = bar_of(chart, row, n);
    let (name, affinity) = (chart.name(n), chart.affinity_name(n));
    push_bar_line(text, &bar, name, affinity, chart.client(n))
}

/// The bar of message `n` in this row.
fn bar_of(chart: &Chart<'_>, row: u64, n: u32) -> Bar
    requires { IsNumber (work_of_scene chart.now) n }
    ensures { result ≡ bar_at chart.now row n }
{
    let left = left_of(chart, n);
    Bar {
        message: n,
        row,
        left,
        width: right_of(chart, n).saturating_sub(left),
        start: chart.start(n),
        finish: chart.finish(n),
        colour: chart.colour(n),
        is_link: chart.is_link(n),
        is_thin: is_narrow(chart.span(), chart.shown_ticks(n)),
    }
}

/// Where the bar of message `n` begins, in hundredths of a pixel from the left of the part.
pub(crate) fn left_of(chart: &Chart<'_>, n: u32) -> u128
    requires { IsNumber (work_of_scene chart.now) n }
    ensures { result ≡ left_of chart.now n }
{
    chart.place(u128::from(chart.shown_start(n)) - u128::from(chart.from()))
}

/// Where it ends.
pub(crate) fn right_of(chart: &Chart<'_>, n: u32) -> u128
    requires { IsNumber (work_of_scene chart.now) n }
    ensures { result ≡ right_of chart.now n }
{
    let end = u128::from(chart.shown_start(n)) + u128::from(chart.shown_ticks(n));
    chart.place(end - u128::from(chart.from()))
}

/// Whether so many ticks are narrower than four pixels where these are a thousand wide.
fn is_narrow(span: u128, ticks: u64) -> bool
    ensures { result ≡ is_narrow span ticks }
{
    u128::from(ticks) * 250 < span
}
