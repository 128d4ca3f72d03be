//! The operations of a message.

ghost use Rattle.std.specs.Prelude.{◌≡◌, ◌≤◌, ◌+◌, [], ◌∷◌, ◌++◌, OnOk, Err};
ghost use Rattle.std.specs.Prelude.{length, take};
ghost use Rattle.waff_parse.specs.Stopping.{Gives};
ghost use Rattle.waff_read.specs.Ops.{op_of};
ghost use Rattle.waff_read.specs.Pieces as pieces;
ghost use Rattle.waff_read.specs.Ranges.{ops_on, ops_of_range};

use crate::op::read_op;
use crate::range::{Range, read_range};
use crate::space_table::SpaceTable;
use crate::trace_fault::TraceFault;
use std::alloc::{AllocError, Global};
use waff_model::{Cell, Op, Ops, Version};
use waff_parse::{Ranked, Stop, least};

// Adds an operation to those that are kept: the first ones, as far as one above the limit.
fn keep(list: &mut Ops, most: usize, op: Op) -> Result<(), AllocError>
    requires { length list.old ≤ most + 1 }
    ensures { OnOk result (list.new ≡ take (most + 1) (list.old ++ op ∷ [])) }
{
    if most < list.len() {
        return Ok(());
    }
    list.push(op)?;
    Ok(())
}

// Adds the operations of a range to those that are kept, as far as one above the limit.
fn keep_range(list: &mut Ops, most: usize, range: Range) -> Result<(), AllocError>
    requires { length list.old ≤ most + 1 }
    ensures { OnOk result (list.new ≡ take (most + 1) (list.old ++ ops_on range)) }
{
    let space = range.first.space;
    let mut index = u64::from(range.first.index);
    while index <= u64::from(range.last) {
        if most < list.len() {
            return Ok(());
        }
        let cell = Cell {
            space,
            index: index as u32,
        };
        list.push(range.deed.on(cell))?;
        index += 1;
    }
    Ok(())
}

// The least of the faults so far and one more.
fn least_of(so_far: Option<TraceFault>, fault: TraceFault) -> TraceFault
    ensures { result ≡ pieces.least_of so_far fault }
{
    match so_far {
        Some(first) => least(first, fault),
        None => fault,
    }
}

// The range for which a piece stands that is no operation for this fault.
fn range_or(
    spaces: &SpaceTable<'_>,
    version: Version,
    piece: &str,
    fault: TraceFault,
) -> Result<Range, TraceFault>
    requires { op_of spaces.now piece.now ≡ Err fault }
    ensures { ops_of_range result ≡ pieces.piece_of version spaces.now piece.now }
{
    if !version.has_clients() {
        return Err(fault);
    }
    if fault.rank() == TraceFault::Op.rank() {
        read_range(spaces, piece)
    } else {
        Err(fault)
    }
}

// About how many bytes an operation takes, with the `;` behind it.
const OP_BYTES: usize = 16;

// For how many operations of a text to make room.
fn room_for(text: &[u8], most: usize) -> usize {
    if text.contains(&b';') {
        most.min(1 + text.len() / OP_BYTES)
    } else {
        1
    }
}

// The operations of the pieces of a text, as far as one above the limit, or the fault that counts.
fn read_pieces(
    alloc: Global,
    spaces: &SpaceTable<'_>,
    version: Version,
    most: usize,
    text: &str,
) -> Result<Ops, Stop<TraceFault>>
    ensures { Gives (λ list.
        list) result (pieces.first_ops most (pieces.pieces_of version spaces.now text.now)) }
{
    let mut list = Ops::with_capacity(alloc, room_for(text.as_bytes(), most))?;
    let mut fault = None;
    for piece in text.split(';') {
        match read_op(spaces, piece) {
            Ok(op) => keep(&mut list, most, op)?,
            Err(e) => match range_or(spaces, version, piece, e) {
                Ok(range) => keep_range(&mut list, most, range)?,
                Err(e) => fault = Some(least_of(fault, e)),
            },
        }
    }
    match fault {
        Some(fault) => Err(Stop::Fault(fault)),
        None => Ok(list),
    }
}

/// The operations of a message, of which there are to be as many at most.
#[tactic(auto, unfolding(crate::specs::Pieces::ops_of))]
pub(crate) fn read_ops(
    alloc: Global,
    spaces: &SpaceTable<'_>,
    version: Version,
    most: usize,
    text: &str,
) -> Result<Ops, Stop<TraceFault>>
    ensures { Gives (λ list. list) result (pieces.ops_of version spaces.now most text.now) }
{
    if text.is_empty() {
        return Err(Stop::Fault(TraceFault::NoOps));
    }
    let list = read_pieces(alloc, spaces, version, most, text)?;
    if most < list.len() {
        return Err(Stop::Fault(TraceFault::TooManyOps));
    }
    Ok(list)
}
