//! The picture as a document in SVG.

ghost use Rattle.std.specs.Prelude.{◌≡◌, ◌+◌, ◌*◌, ◌<◌, ◌≤◌, IfOk, OnOk, length, slice_index_or, string_bytes, []};
ghost use Rattle.std.specs.List.{flat_map, range_with_len};
ghost use Rattle.waff_assign.specs.Case.{instance_of};
ghost use Rattle.waff_plan.specs.Work.{total_of};
ghost use Rattle.waff_plan_text.specs.Lines.{Adds};
ghost use Rattle.waff_draw.specs.Pieces.{heading_line};
ghost use Rattle.waff_draw.specs.Scene.{coloured_in, end_in, from_in, lanes_in, length_in};
ghost use Rattle.waff_draw.specs.Scene.{scene_of, work_of_scene, workers_in};
ghost use Rattle.waff_draw.specs.Svg.{affinity_lane, axis_text, bars_text, colour_text, colours_text};
ghost use Rattle.waff_draw.specs.Svg.{document_text, each_line, grid_text, ground_text, head_text};
ghost use Rattle.waff_draw.specs.Svg.{lanes_text, lines_text, rule_text, size_text, svg_text};
ghost use Rattle.waff_draw.specs.Svg.{tick_text, top_text, unit_text, upto, worker_lane};

use crate::bars::push_bars;
use crate::chart::Chart;
use crate::frame::{colour_left, colour_top, indent, left, top};
use crate::lanes::LaneKind;
use crate::parts::Part;
use crate::pieces::{
    LEGEND, LaneName, STYLE, push_axis_start, push_colour_line, push_grid_line, push_group_end,
    push_heading, push_lane, push_lanes_start, push_plan_start, push_rule_line, push_tick_label,
    push_top_start,
};
use crate::runs::push_runs;
use std::alloc::{AllocError, Global};
use waff_assign::Case;
use waff_plan_text::{GivenPlan, Ratio};

/// The picture of this part of a plan that is given for the messages of a trace with their
/// affinities.
pub fn svg_text(
    alloc: Global,
    case: &Case<'_>,
    given: &GivenPlan,
    part: Part,
) -> Result<String, AllocError>
    requires rows { length given.now.rows ≡ length case.now.trace.now.messages }
    ensures { IfOk result (λ text.
        string_bytes text ≡ svg_text (scene_of (instance_of case.now) given.now part)) }
{
    let chart = Chart::new(alloc, case, given, part, true)?;
    picture(alloc, &chart)
}

/// The picture of a chart.
fn picture(alloc: Global, chart: &Chart<'_>) -> Result<String, AllocError>
    ensures { IfOk result (λ text. string_bytes text ≡ document_text chart.now) }
{
    let mut text = String::new(alloc);
    push_ground(&mut text, chart)?;
    push_all_bars(&mut text, chart)?;
    push_group_end(&mut text)?;
    text.push_str("</svg>\n")?;
    Ok(text)
}

/// Appends all that stands before the bars.
fn push_ground(text: &mut String, chart: &Chart<'_>) -> Result<(), AllocError>
    ensures { OnOk result (Adds text.old text.new (ground_text chart.now)) }
{
    push_head(text, chart)?;
    push_lanes(text, chart)?;
    push_axis(text, chart)?;
    push_lines(text, chart)
}

/// Appends all bars, and then the outlines of the chain, which lie over them.
fn push_all_bars(text: &mut String, chart: &Chart<'_>) -> Result<(), AllocError>
    ensures { OnOk result (Adds text.old text.new (bars_text chart.now)) }
{
    push_bars(text, chart, LaneKind::Affinity)?;
    push_bars(text, chart, LaneKind::Worker)?;
    push_runs(text, chart, LaneKind::Affinity)?;
    push_runs(text, chart, LaneKind::Worker)
}

/// Appends what stands above the lanes.
fn push_head(text: &mut String, chart: &Chart<'_>) -> Result<(), AllocError>
    ensures { OnOk result (Adds text.old text.new (head_text chart.now)) }
{
    push_top(text, chart)?;
    push_plan(text, chart)?;
    push_colours(text, chart)
}

/// Appends the top of the document.
fn push_top(text: &mut String, chart: &Chart<'_>) -> Result<(), AllocError>
    ensures { OnOk result (Adds text.old text.new (top_text chart.now)) }
{
    push_size(text, chart)?;
    text.push_str(STYLE)?;
    text.push_str(LEGEND)
}

/// Appends how large the document is.
fn push_size(text: &mut String, chart: &Chart<'_>) -> Result<(), AllocError>
    ensures { OnOk result (Adds text.old text.new (size_text chart.now)) }
{
    let height = top(chart) + u128::from(chart.row_count()) * 20 + 32;
    push_top_start(text, left(chart) + 1060, height)
}

/// Appends what is told of the plan.
fn push_plan(text: &mut String, chart: &Chart<'_>) -> Result<(), AllocError>
    ensures { OnOk result (Adds text.old text.new
        (heading_line (work_of_scene chart.now).count (length_in chart.now)
        (total_of (work_of_scene chart.now)) chart.now.plan.summary.workers)) }
{
    let speedup = Ratio(chart.total(), u128::from(chart.length()));
    push_heading(text, chart.len(), speedup, chart.workers())
}

/// Appends which names the colours stand for.
fn push_colours(text: &mut String, chart: &Chart<'_>) -> Result<(), AllocError>
    ensures { OnOk result (Adds text.old text.new (colours_text chart.now)) }
{
    for place in 0..chart.colour_count() {
        push_colour(text, chart, place)?;
    }
    Ok(())
}

/// Appends which name the colour at a place stands for.
fn push_colour(text: &mut String, chart: &Chart<'_>, place: u64) -> Result<(), AllocError>
    requires { place < length (coloured_in chart.now) }
    ensures { OnOk result (Adds text.old text.new
        (colour_text chart.now place (slice_index_or (coloured_in chart.now) place []))) }
{
    let _colours = chart.colour_count();
    let (left, top) = (colour_left(chart, place), colour_top(chart, place));
    push_colour_line(text, left, top, place + 1, chart.coloured_name(place))
}

/// Appends all lanes.
fn push_lanes(text: &mut String, chart: &Chart<'_>) -> Result<(), AllocError>
    ensures { OnOk result (Adds text.old text.new (lanes_text chart.now)) }
{
    push_lanes_start(text, top(chart))?;
    push_affinity_lanes(text, chart)?;
    push_worker_lanes(text, chart)?;
    push_rule(text, chart)?;
    push_group_end(text)
}

/// Appends the lanes of affinities.
fn push_affinity_lanes(text: &mut String, chart: &Chart<'_>) -> Result<(), AllocError>
    ensures { OnOk result (Adds text.old text.new
        (flat_map (affinity_lane chart.now.instance.tree (lanes_in chart.now))
        (range_with_len 0 (length (lanes_in chart.now))))) }
{
    for row in 0..chart.lane_count() {
        push_affinity_lane(text, chart, row)?;
    }
    Ok(())
}

/// Appends the lane of an affinity.
fn push_affinity_lane(text: &mut String, chart: &Chart<'_>, row: u64) -> Result<(), AllocError>
    requires { row < length (lanes_in chart.now) }
    ensures { OnOk result (Adds text.old text.new
        (affinity_lane chart.now.instance.tree (lanes_in chart.now) row)) }
{
    let _lanes = chart.lane_count();
    let left = indent(chart.lane_depth(row));
    let name = LaneName::Affinity(chart.lane_name(row));
    push_lane(text, row * 20, left, row * 20 + 14, name)
}

/// Appends the lanes of workers.
fn push_worker_lanes(text: &mut String, chart: &Chart<'_>) -> Result<(), AllocError>
    ensures { OnOk result (Adds text.old text.new
        (flat_map (worker_lane (length (lanes_in chart.now)))
        (range_with_len 1 (workers_in chart.now)))) }
{
    for worker in 1..chart.worker_count() + 1 {
        push_worker_lane(text, chart, worker)?;
    }
    Ok(())
}

/// Appends the lane of a worker.
fn push_worker_lane(text: &mut String, chart: &Chart<'_>, worker: u32) -> Result<(), AllocError>
    requires { 1 ≤ worker }
    ensures { OnOk result (Adds text.old text.new
        (worker_lane (length (lanes_in chart.now)) worker)) }
{
    let row = chart.lane_count() + u64::from(worker) - 1;
    let name = LaneName::Worker(worker);
    push_lane(text, row * 20, indent(0), row * 20 + 14, name)
}

/// Appends the rule between the lanes of affinities and those of workers, if there are workers.
fn push_rule(text: &mut String, chart: &Chart<'_>) -> Result<(), AllocError>
    ensures { OnOk result (Adds text.old text.new
        (rule_text (length (lanes_in chart.now)) (workers_in chart.now))) }
{
    if chart.worker_count() >= 1 {
        push_rule_line(text, chart.lane_count() * 20)?;
    }
    Ok(())
}

/// Appends the axis, above the lanes and below.
fn push_axis(text: &mut String, chart: &Chart<'_>) -> Result<(), AllocError>
    ensures { OnOk result (Adds text.old text.new (axis_text chart.now)) }
{
    push_unit(text, chart)?;
    push_ticks(text, chart)?;
    push_group_end(text)
}

/// Appends what the numbers along the axis are.
fn push_unit(text: &mut String, chart: &Chart<'_>) -> Result<(), AllocError>
    ensures { OnOk result (Adds text.old text.new (unit_text chart.now)) }
{
    push_axis_start(text, left(chart), top(chart), chart.row_count() * 20 + 18)
}

/// Appends the numbers of ticks along the axis, above the lanes and below.
fn push_ticks(text: &mut String, chart: &Chart<'_>) -> Result<(), AllocError>
    ensures { OnOk result (Adds text.old text.new (each_line chart.now (tick_text chart.now))) }
{
    for i in 0..11_u32 {
        push_tick(text, chart, chart.line(i))?;
    }
    Ok(())
}

/// Appends a number of ticks, unless it is past the end of the part.
fn push_tick(text: &mut String, chart: &Chart<'_>, tick: u128) -> Result<(), AllocError>
    requires { from_in chart.now ≤ tick }
    ensures { OnOk result (Adds text.old text.new
        (upto (end_in chart.now) (tick_text chart.now) tick)) }
{
    if tick <= chart.end() {
        let place = (tick - u128::from(chart.from())) * 1000 / chart.span();
        push_tick_label(text, place, chart.row_count() * 20 + 18, tick)?;
    }
    Ok(())
}

/// Appends the beginning of the bars, and the lines of the axis through all rows.
fn push_lines(text: &mut String, chart: &Chart<'_>) -> Result<(), AllocError>
    ensures { OnOk result (Adds text.old text.new (lines_text chart.now)) }
{
    push_plan_start(text, left(chart), top(chart))?;
    push_grid(text, chart)
}

/// Appends the lines of the axis through all rows.
fn push_grid(text: &mut String, chart: &Chart<'_>) -> Result<(), AllocError>
    ensures { OnOk result (Adds text.old text.new (each_line chart.now (grid_text chart.now))) }
{
    for i in 0..11_u32 {
        push_grid_at(text, chart, chart.line(i))?;
    }
    Ok(())
}

/// Appends a line through all rows, unless it is past the end of the part.
fn push_grid_at(text: &mut String, chart: &Chart<'_>, tick: u128) -> Result<(), AllocError>
    requires { from_in chart.now ≤ tick }
    ensures { OnOk result (Adds text.old text.new
        (upto (end_in chart.now) (grid_text chart.now) tick)) }
{
    if tick <= chart.end() {
        let place = chart.place(tick - u128::from(chart.from()));
        push_grid_line(text, place, chart.row_count() * 2000)?;
    }
    Ok(())
}
