//! Closing a board.

ghost use Rattle.std.specs.Prelude.{◌≡◌, ◌≢◌, ◌+◌, ◌^◌, ◌<◌, ◌≤◌, ℕ, [], length, slice_index};
ghost use Rattle.std.specs.Prelude.{vec_capacity, IfOk, IfErr, IfSome, IfNone};
ghost use Rattle.std.specs.Slots.{slots_items, slots_len, IsFull};
ghost use Rattle.waff_model.specs.Layout.{IsCell};
ghost use Rattle.waff_model.specs.Messages.{sizes_of};
ghost use Rattle.waff_model.specs.declared.cell.Cell.{Cell};
ghost use Rattle.waff_cells.specs.Gathered.{LieIn, cells_of_parcels};
ghost use Rattle.waff_cells.specs.Grid.{cells_in, HasSizes};
ghost use Rattle.waff_cells.specs.Held.{rows_of};
ghost use Rattle.waff_cells.specs.Serial.{serial};
ghost use Rattle.waff_core.specs.Job.{IsJob};
ghost use Rattle.waff_board.specs.Endings.{Refuses};
ghost use Rattle.waff_board.specs.Tokens.{IsOf};
ghost use Rattle.waff_board.specs.declared.view.TheConstants.{DONE};

use crate::board::Board;
use crate::hand::Hand;
use crate::rule::Rule;
use crate::tokens::EndSeat;
use crate::view::{DONE, Setup, View};
use atomic_table::{Closed, Seat, Table};
use std::alloc::Global;
use waff_cells::State;
use waff_core::Job;

/// Why a closed board gives no state.
#[derive(Clone, Copy, Debug, PartialEq)]
pub enum CloseError {
    /// The message is not done. It is the least such message.
    Unfinished { message: u32 },
    /// A growth of memory was refused.
    Memory,
}

impl Board {
    /// Ends the board. The state is the one that all messages leave.
    pub fn close(self, seat: EndSeat) -> Result<State, CloseError>
        requires { IsOf self seat }
        ensures sizes { IfOk result (λ state. HasSizes state (sizes_of self.job.layout.spaces)) }
        ensures cells { IfOk result (λ state. (cell : Cell)
            → cells_in state cell ≡ serial self.job.ops (length self.job.ops) cell) }
        ensures refused { IfErr result (Refuses seat.view) }
    {
        let Board { table, setup, heap } = self;
        let EndSeat { hand } = seat;
        let Hand { chair, .. } = hand;
        let state = state_left(table, chair, &setup.job, heap);
        drop(setup);
        state
    }
}

/// The state that all messages of the job leave on the table.
fn state_left(
    table: Table<Vec<u64>, View, Setup, Rule, Global>,
    chair: Seat<Vec<u64>, View>,
    job: &Job,
    heap: Global,
) -> Result<State, CloseError>
    requires job { IsJob job.now }
    requires told { table.shared.key.job ≡ job.now }
    requires words { table.shared.table_id.words ≡ length job.now.ops + 1 }
    requires table { chair.table_id ≡ table.shared.table_id }
    requires of { chair.me.0.job ≡ job.now }
    ensures sizes { IfOk result (λ state. HasSizes state (sizes_of job.now.layout.spaces)) }
    ensures cells { IfOk result (λ state. (cell : Cell)
        → cells_in state cell ≡ serial job.now.ops (length job.now.ops) cell) }
    ensures refused { IfErr result (Refuses chair.me.0) }
{
    let parcels = parcels_left(table, chair, job, heap)?;
    match State::of_parcels(heap, job.parcel_table(), &parcels) {
        Ok(state) => Ok(state),
        Err(_) => Err(CloseError::Memory),
    }
}

/// The parcels that all messages of the job leave on the table. The table's memory is freed.
fn parcels_left(
    table: Table<Vec<u64>, View, Setup, Rule, Global>,
    chair: Seat<Vec<u64>, View>,
    job: &Job,
    heap: Global,
) -> Result<Vec<Vec<u64>>, CloseError>
    requires job { IsJob job.now }
    requires told { table.shared.key.job ≡ job.now }
    requires words { table.shared.table_id.words ≡ length job.now.ops + 1 }
    requires table { chair.table_id ≡ table.shared.table_id }
    requires of { chair.me.0.job ≡ job.now }
    ensures lie { IfOk result (λ parcels. LieIn job.now.layout.spaces (rows_of parcels.items)) }
    ensures cells { IfOk result (λ parcels. (cell : Cell) → IsCell job.now.layout.spaces cell
        → cells_of_parcels job.now.layout.spaces (rows_of parcels.items) cell
        ≡ serial job.now.ops (length job.now.ops) cell) }
    ensures refused { IfErr result (Refuses chair.me.0) }
{
    let Ok(parcels) = Vec::with_capacity(heap, table.slot_count()) else {
        drop(table);
        return Err(CloseError::Memory);
    };
    let closed = table.close_with(chair);
    let unfinished = first_unfinished(&closed, job.len());
    let parcels = unload(closed, parcels);
    match unfinished {
        Some(message) => {
            drop(parcels);
            Err(CloseError::Unfinished { message })
        }
        None => Ok(parcels),
    }
}

/// The least message that is not done.
fn first_unfinished(closed: &Closed<Vec<u64>, Global>, messages: u32) -> Option<u32>
    requires full { IsFull closed.now.words }
    requires count { slots_len closed.now.words ≡ messages + 1 }
    requires short { messages + 1 < 2 ^ 32 }
    ensures some { IfSome result (λ m. (1 ≤ m) × (m ≤ messages)
        × (slice_index (slots_items closed.now.words) m ≢ DONE)) }
    ensures least { IfSome result (λ m. (n : ℕ) → 1 ≤ n → n < m
        → slice_index (slots_items closed.now.words) n ≡ DONE) }
    ensures none { IfNone result ((n : ℕ) → 1 ≤ n → n ≤ messages
        → slice_index (slots_items closed.now.words) n ≡ DONE) }
{
    for n in 1..messages + 1 {
        if closed.word(n as usize) != DONE {
            return Some(n);
        }
    }
    None
}

/// The values of all slots. The board's memory is freed.
fn unload(mut closed: Closed<Vec<u64>, Global>, mut parcels: Vec<Vec<u64>>) -> Vec<Vec<u64>>
    requires full { IsFull closed.slots }
    requires room { slots_len closed.slots ≤ vec_capacity parcels }
    requires empty { parcels.items ≡ [] }
    ensures { result.items ≡ slots_items closed.slots }
{
    for a in 0..closed.slot_count() {
        parcels.push_reserved(closed.take(a));
    }
    closed.free();
    parcels
}
