//! How many operations of a message are one call on files: a range is one.

ghost use Rattle.std.specs.Prelude.{◌≡◌, ◌<◌, ◌↔◌, IsTrue, length};
ghost use Rattle.waff_run.specs.Calls.{AreAlike, AreOneCall, first_cell, part_cells};

use crate::places::Places;
use waff_model::{Cell, Op, Ops, Trace};

/// A call that is longer than so many bytes is made in parts.
const PART: u64 = 1_048_576;

/// How many cells of so many bytes a part of a call has at most.
pub(crate) fn cells_of_part(bytes: u64) -> u64
    ensures { result ≡ part_cells bytes }
{
    (PART / bytes.max(1)).max(1)
}

/// How many operations from this one on are one call: reads, or sets of one number, of cells that lie side by
/// side in one file.
pub(crate) fn call_length(places: &Places, ops: &Ops, from: usize) -> usize
    requires { from < length ops.now }
    ensures { AreOneCall places.now ops.now from result }
{
    let count = ops.len();
    let first = ops.get(from);
    let begin = places.spot(first_cell(first));
    let mut end = begin.at + places.bytes();
    for next in from + 1..count {
        let op = ops.get(next);
        let spot = places.spot(first_cell(op));
        if !are_alike(first, op) || spot.file != begin.file || spot.at != end {
            return next - from;
        }
        end = spot.at + places.bytes();
    }
    count - from
}

/// The cell that an operation names first.
pub(crate) fn first_cell(op: Op) -> Cell
    ensures { result ≡ first_cell op }
{
    match op {
        Op::Set { cell, .. }
        | Op::Add { cell, .. }
        | Op::Copy { cell, .. }
        | Op::Swap { cell, .. }
        | Op::Read { cell } => cell,
    }
}

/// Whether both are reads, or sets of one number.
fn are_alike(op: Op, other: Op) -> bool
    ensures { IsTrue result ↔ AreAlike op other }
{
    match (op, other) {
        (Op::Read { .. }, Op::Read { .. }) => true,
        (Op::Set { value, .. }, Op::Set { value: more, .. }) => value == more,
        _ => false,
    }
}

/// The most operations that are one call, of all messages; 1 where there is none.
pub(crate) fn longest_call(trace: &Trace, places: &Places) -> usize {
    let mut most = 1;
    for m in 1..trace.len() + 1 {
        most = most.max(longest_of(&trace.message(m).ops, places));
    }
    most
}

/// The most of these operations that are one call.
fn longest_of(ops: &Ops, places: &Places) -> usize {
    let mut most = 0;
    let mut at = 0;
    while at < ops.len() {
        let count = call_length(places, ops, at);
        most = most.max(count);
        at += count;
    }
    most
}
