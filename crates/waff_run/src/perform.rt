//! The operations of a message, done on a store.

ghost use Rattle.std.specs.Prelude.{◌≡◌, ◌+◌, ◌*◌, ◌%◌, ◌^◌, ◌<◌, ◌≤◌, IfOk, OnOk, length, map, min, slice_index_or, take};
ghost use Rattle.waff_model.specs.declared.op.Op.TheVariants as operation;
ghost use Rattle.waff_run.specs.Asked.{AsksBack, AsksCalls, AsksFill, AsksFilled, AsksMessage};
ghost use Rattle.waff_run.specs.Asked.{AsksOneBack, AsksOp};
ghost use Rattle.waff_run.specs.Asked.{AsksParts, AsksSyncOf, AsksSyncs};
ghost use Rattle.waff_run.specs.Asked.{GoesOn, GoesOnBy, IsRepeated, added};
ghost use Rattle.waff_run.specs.Asked.{was_read, was_synced, was_written};
ghost use Rattle.waff_run.specs.Calls.{part_cells};
ghost use Rattle.waff_run.specs.Named.{cells_named};

use crate::calls::{call_length, cells_of_part, first_cell};
use crate::fault::Stopped;
use crate::places::{Places, Spot};
use crate::spots::{list_files, spots};
use crate::store::{Store, StoreFault};
use crate::syncing::{Syncs, list_synced};
use std::alloc::{AllocError, Global};
use waff_model::{Cell, Op, Ops, Trace};

/// The room in which a worker does operations.
#[derive(Drop)]
pub struct Room {
    one: Vec<u8>,
    two: Vec<u8>,
    /// The files that are to be synced.
    files: Vec<usize>,
}

impl Room {
    /// Room for calls of so many cells, or for the parts of longer ones.
    pub fn of(alloc: Global, places: &Places, cells: usize) -> Result<Room, AllocError>
        ensures one { IfOk result (λ room. length room.one.items
            ≡ places.now.bytes * min cells (part_cells places.now.bytes)) }
        ensures two { IfOk result (λ room. length room.two.items ≡ places.now.bytes) }
    {
        let bytes = places.bytes() as usize;
        let cells = cells.min(cells_of_part(places.bytes()) as usize);
        Ok(Room {
            one: vec![in alloc; 0; bytes.saturating_mul(cells)]?,
            two: vec![in alloc; 0; bytes]?,
            files: Vec::new(alloc),
        })
    }

    /// How many cells of so many bytes there is room for, one at least.
    fn cells(&self, bytes: u64) -> usize
        ensures { 0 < result }
    {
        (self.one.len() as u64 / bytes.max(1)).max(1) as usize
    }
}

/// Does the operations, and then the syncs.
pub fn perform<S: Store>(
    store: &S,
    hand: &mut S::Hand,
    places: &Places,
    ops: &Ops,
    syncs: Syncs,
    room: &mut Room,
) -> Result<(), Stopped>
    ensures { OnOk result
        (GoesOn (S.log hand.old) (S.log hand.new) (AsksMessage places.now syncs ops.now)) }
{
    do_calls(store, hand, places, ops, room)?;
    sync(store, hand, places, ops, syncs, &mut room.files)
}

/// Does the operations, call after call.
fn do_calls<S: Store>(
    store: &S,
    hand: &mut S::Hand,
    places: &Places,
    ops: &Ops,
    room: &mut Room,
) -> Result<(), StoreFault>
    ensures { OnOk result
        (GoesOn (S.log hand.old) (S.log hand.new) (AsksCalls places.now ops.now (length ops.now))) }
{
    let mut at = 0;
    while at < ops.len() {
        let count = call_length(places, ops, at);
        do_call(store, hand, places, ops, at, count, room)?;
        at += count;
    }
    Ok(())
}

/// Syncs files in which the cells of operations lie, each once.
fn sync<S: Store>(
    store: &S,
    hand: &mut S::Hand,
    places: &Places,
    ops: &Ops,
    syncs: Syncs,
    files: &mut Vec<usize>,
) -> Result<(), Stopped>
    ensures { OnOk result
        (GoesOn (S.log hand.old) (S.log hand.new) (AsksSyncs places.now syncs ops.now)) }
{
    match syncs {
        Syncs::None => Ok(()),
        _ => {
            list_synced(places, ops, syncs, files)?;
            sync_all(store, hand, files.as_slice())?;
            Ok(())
        }
    }
}

/// Syncs these files, in order.
fn sync_all<S: Store>(store: &S, hand: &mut S::Hand, files: &[usize]) -> Result<(), StoreFault>
    ensures { OnOk result
        (GoesOn (S.log hand.old) (S.log hand.new) (λ asked. asked ≡ map was_synced files.now)) }
{
    for at in 0..files.len() {
        store.sync(hand, files[at])?;
    }
    Ok(())
}

/// Does so many operations from one on, which are one call, in as many parts as there has to be, in order.
fn do_call<S: Store>(
    store: &S,
    hand: &mut S::Hand,
    places: &Places,
    ops: &Ops,
    from: usize,
    count: usize,
    room: &mut Room,
) -> Result<(), StoreFault>
    requires { from + count ≤ length ops.now }
    ensures { OnOk result
        (GoesOn (S.log hand.old) (S.log hand.new) (AsksParts places.now ops.now from count)) }
{
    let _all = ops.len();
    let most = room.cells(places.bytes());
    let mut done = 0;
    while done < count {
        let part = most.min(count - done);
        do_part(store, hand, places, ops.get(from + done), part, room)?;
        done += part;
    }
    Ok(())
}

/// Does an operation, on this many cells that lie side by side. What there is no room for is a fault of its file.
fn do_part<S: Store>(
    store: &S,
    hand: &mut S::Hand,
    places: &Places,
    op: Op,
    count: usize,
    room: &mut Room,
) -> Result<(), StoreFault>
    ensures { OnOk result (GoesOn (S.log hand.old) (S.log hand.new)
        (AsksOp places.now (places.now.bytes * count) op)) }
{
    let long = (places.bytes() as usize).saturating_mul(count);
    let Room { one, two, .. } = room;
    if long > one.len() {
        let file = places.spot(first_cell(op)).file;
        return Err(StoreFault { file });
    }
    do_op(
        store,
        hand,
        places,
        op,
        &mut one[..long],
        two.as_mut_slice(),
    )
}

/// Does an operation on cells that have together as many bytes as the first part of the room. The second has room for
/// the cells of a swap, or that is a fault of its file.
fn do_op<S: Store>(
    store: &S,
    hand: &mut S::Hand,
    places: &Places,
    op: Op,
    one: &mut [u8],
    two: &mut [u8],
) -> Result<(), StoreFault>
    ensures { OnOk result
        (GoesOn (S.log hand.old) (S.log hand.new) (AsksOp places.now (length one.old) op)) }
{
    match op {
        Op::Read { cell } => read(store, hand, places, cell, one),
        Op::Set { cell, value } => set(store, hand, places, cell, value, one),
        Op::Add { cell, value } => add(store, hand, places, cell, value, one),
        Op::Copy { cell, source } => copy(store, hand, places, cell, source, one),
        Op::Swap { cell, other } => swap(store, hand, places, cell, other, one, two),
    }
}

/// Reads cells.
fn read<S: Store>(
    store: &S,
    hand: &mut S::Hand,
    places: &Places,
    cell: Cell,
    bytes: &mut [u8],
) -> Result<(), StoreFault>
    ensures { OnOk result (GoesOn (S.log hand.old) (S.log hand.new)
        (AsksOp places.now (length bytes.old) (operation.Read cell))) }
{
    let spot = places.spot(cell);
    store.read(hand, spot.file, spot.at, bytes)
}

/// Sets cells to a number.
fn set<S: Store>(
    store: &S,
    hand: &mut S::Hand,
    places: &Places,
    cell: Cell,
    value: u64,
    bytes: &mut [u8],
) -> Result<(), StoreFault>
    ensures { OnOk result (GoesOn (S.log hand.old) (S.log hand.new)
        (AsksOp places.now (length bytes.old) (operation.Set cell value))) }
{
    let spot = places.spot(cell);
    repeat(bytes, value);
    store.write(hand, spot.file, spot.at, bytes)
}

/// Adds a number to a cell.
fn add<S: Store>(
    store: &S,
    hand: &mut S::Hand,
    places: &Places,
    cell: Cell,
    value: u64,
    bytes: &mut [u8],
) -> Result<(), StoreFault>
    ensures { OnOk result (GoesOn (S.log hand.old) (S.log hand.new)
        (AsksOp places.now (length bytes.old) (operation.Add cell value))) }
{
    let spot = places.spot(cell);
    store.read(hand, spot.file, spot.at, bytes)?;
    increase(bytes, value);
    store.write(hand, spot.file, spot.at, bytes)
}

/// Copies a cell.
fn copy<S: Store>(
    store: &S,
    hand: &mut S::Hand,
    places: &Places,
    cell: Cell,
    source: Cell,
    bytes: &mut [u8],
) -> Result<(), StoreFault>
    ensures { OnOk result (GoesOn (S.log hand.old) (S.log hand.new)
        (AsksOp places.now (length bytes.old) (operation.Copy cell source))) }
{
    let (from, to) = (places.spot(source), places.spot(cell));
    store.read(hand, from.file, from.at, bytes)?;
    store.write(hand, to.file, to.at, bytes)
}

/// Exchanges two cells. Where there is no room for the second, that is a fault of the file of the first.
fn swap<S: Store>(
    store: &S,
    hand: &mut S::Hand,
    places: &Places,
    cell: Cell,
    other: Cell,
    one: &mut [u8],
    two: &mut [u8],
) -> Result<(), StoreFault>
    ensures { OnOk result (GoesOn (S.log hand.old) (S.log hand.new)
        (AsksOp places.now (length one.old) (operation.Swap cell other))) }
{
    let (first, second) = (places.spot(cell), places.spot(other));
    if one.len() != two.len() {
        return Err(StoreFault { file: first.file });
    }
    store.read(hand, first.file, first.at, one)?;
    store.read(hand, second.file, second.at, two)?;
    store.write(hand, first.file, first.at, two)?;
    store.write(hand, second.file, second.at, one)
}

/// Adds to the number in the first eight bytes, the lowest first, modulo 2^64.
fn increase(bytes: &mut [u8], value: u64)
    ensures { 8 ≤ length bytes.old → bytes.new ≡ added value bytes.old }
{
    if let Some(first) = bytes.first_chunk_mut::<8>() {
        *first = u64::from_le_bytes(*first).wrapping_add(value).to_le_bytes();
    }
}

/// Fills with a number, the lowest byte first, again and again.
fn repeat(bytes: &mut [u8], value: u64)
    ensures { IsRepeated value bytes.new }
{
    let number = value.to_le_bytes();
    for at in 0..bytes.len() {
        bytes[at] = number[at % 8];
    }
}

/// Reads each cell of the trace and writes it back, and then syncs the files.
pub fn fill<S: Store>(
    alloc: Global,
    store: &S,
    hand: &mut S::Hand,
    places: &Places,
    trace: &Trace,
) -> Result<(), Stopped>
    ensures { OnOk result (GoesOn (S.log hand.old) (S.log hand.new)
        (AsksFilled places.now (cells_named trace.now.messages))) }
{
    let spots = spots(alloc, trace, places)?;
    fill_spots(alloc, store, hand, places, spots.as_slice())
}

/// Reads each of these cells and writes it back, and then syncs the files.
fn fill_spots<S: Store>(
    alloc: Global,
    store: &S,
    hand: &mut S::Hand,
    places: &Places,
    spots: &[Spot],
) -> Result<(), Stopped>
    ensures { OnOk result (GoesOn (S.log hand.old) (S.log hand.new)
        (AsksFill places.now.bytes spots.now)) }
{
    let mut room = Room::of(alloc, places, 1)?;
    let Room { two, files, .. } = &mut room;
    fill_by(store, hand, spots, two.as_mut_slice(), files)
}

/// The same in this room.
fn fill_by<S: Store>(
    store: &S,
    hand: &mut S::Hand,
    spots: &[Spot],
    bytes: &mut [u8],
    files: &mut Vec<usize>,
) -> Result<(), Stopped>
    ensures { OnOk result (GoesOn (S.log hand.old) (S.log hand.new)
        (AsksFill (length bytes.old) spots.now)) }
{
    write_back(store, hand, spots, bytes)?;
    sync_spots(store, hand, spots, files)
}

/// Syncs the files in which these cells lie, each once.
fn sync_spots<S: Store>(
    store: &S,
    hand: &mut S::Hand,
    spots: &[Spot],
    files: &mut Vec<usize>,
) -> Result<(), Stopped>
    ensures { OnOk result (GoesOn (S.log hand.old) (S.log hand.new)
        (AsksSyncOf (map (λ spot. spot.file) spots.now))) }
{
    list_files(spots, files)?;
    sync_all(store, hand, files.as_slice())?;
    Ok(())
}

/// Reads each of these cells and writes it back.
fn write_back<S: Store>(
    store: &S,
    hand: &mut S::Hand,
    spots: &[Spot],
    bytes: &mut [u8],
) -> Result<(), StoreFault>
    ensures { OnOk result (GoesOn (S.log hand.old) (S.log hand.new)
        (AsksBack (length bytes.old) spots.now (length spots.now))) }
{
    for at in 0..spots.len() {
        write_one_back(store, hand, spots, at, bytes)?;
    }
    Ok(())
}

/// Reads one of these cells and writes it back.
fn write_one_back<S: Store>(
    store: &S,
    hand: &mut S::Hand,
    spots: &[Spot],
    at: usize,
    bytes: &mut [u8],
) -> Result<(), StoreFault>
    requires { at < length spots.now }
    ensures { OnOk result (GoesOn (S.log hand.old) (S.log hand.new)
        (AsksOneBack (length bytes.old) spots.now at)) }
{
    let spot = spot_at(spots, at);
    store.read(hand, spot.file, spot.at, bytes)?;
    store.write(hand, spot.file, spot.at, bytes)
}

/// One of these places.
fn spot_at(spots: &[Spot], at: usize) -> Spot
    requires { at < length spots.now }
    ensures { (none : Spot) → slice_index_or spots.now at none ≡ result }
{
    spots[at]
}
