//! Where the parts of the document stand: names have the room that they need.

ghost use Rattle.std.specs.Prelude.{◌≡◌, ◌^◌, ◌<◌, ◌≤◌, length, slice_index_or};
ghost use Rattle.waff_draw.specs.Frames.{colour_left, colour_top, column_in, columns_in, indent};
ghost use Rattle.waff_draw.specs.Frames.{lane_end, left_in, longest_in, top_in};
ghost use Rattle.waff_draw.specs.Lanes.{lane_of};
ghost use Rattle.waff_draw.specs.Scene.{coloured_in, lanes_in};

use crate::chart::Chart;

/// How far a lane is set in whose affinity is this deep in the tree: twelve steps at most.
pub(crate) fn indent(depth: u64) -> u64
    ensures indent { result ≡ indent depth }
    ensures small { result ≤ 104 }
{
    depth.min(12) * 8 + 8
}

/// Where the name of the lane in this row ends, with a gap behind it.
fn lane_end(chart: &Chart<'_>, row: u64) -> u128
    requires { row < length (lanes_in chart.now) }
    ensures end { result ≡ lane_end chart.now.instance.tree
        (slice_index_or (lanes_in chart.now) row (lane_of 0 0)) }
    ensures small { result ≤ 2 ^ 70 }
{
    let indent = indent(chart.lane_depth(row));
    let letters = chart.lane_name(row).len() as u64;
    u128::from(indent) + u128::from(letters) * 8 + 8
}

/// Where the plan begins, in pixels from the left.
pub(crate) fn left(chart: &Chart<'_>) -> u128
    ensures left { result ≡ left_in chart.now }
    ensures small { result ≤ 2 ^ 70 }
{
    let mut left: u128 = 96;
    for row in 0..chart.lane_count() {
        left = left.max(lane_end(chart, row));
    }
    left
}

/// How many letters the longest name has that has a colour.
fn longest(chart: &Chart<'_>) -> u64
    ensures { result ≡ longest_in chart.now }
{
    let mut longest: u64 = 0;
    for place in 0..chart.colour_count() {
        longest = longest.max(chart.coloured_name(place).len() as u64);
    }
    longest
}

/// How wide a column of these names is.
fn column(chart: &Chart<'_>) -> u128
    ensures column { result ≡ column_in chart.now }
    ensures some { 0 < result }
    ensures small { result ≤ 2 ^ 70 }
{
    u128::from(longest(chart)) * 8 + 40
}

/// How many columns of them have room.
fn columns(chart: &Chart<'_>) -> u128
    ensures columns { result ≡ columns_in chart.now }
    ensures some { 0 < result }
    ensures few { result ≤ 1140 }
{
    (1140 / column(chart)).max(1)
}

/// Where the name of the colour at this place stands, from the left.
pub(crate) fn colour_left(chart: &Chart<'_>, place: u64) -> u128
    ensures { result ≡ colour_left chart.now place }
{
    u128::from(place) % columns(chart) * column(chart) + 8
}

/// Where it stands, from above.
pub(crate) fn colour_top(chart: &Chart<'_>, place: u64) -> u128
    ensures top { result ≡ colour_top chart.now place }
    ensures small { result ≤ 2 ^ 70 }
{
    u128::from(place) / columns(chart) * 20 + 56
}

/// Where the plan begins, in pixels from above.
pub(crate) fn top(chart: &Chart<'_>) -> u128
    ensures top { result ≡ top_in chart.now }
    ensures small { result ≤ 2 ^ 71 }
{
    colour_top(chart, chart.colour_count().saturating_sub(1)) + 44
}
