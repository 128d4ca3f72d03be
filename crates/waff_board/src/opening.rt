//! Making a board and its seats.

ghost use Rattle.std.specs.Prelude.{◌≡◌, ◌+◌, ◌≤◌, [], length, map, All, IfOk};
ghost use Rattle.waff_core.specs.Seats.{IsSeats};
ghost use Rattle.waff_board.specs.Openings.{IsFresh, AreFresh, zero_parcels_of};
ghost use Rattle.waff_board.specs.Rule.{IsSetup};
ghost use Rattle.waff_board.specs.Seats.{first, fresh};
ghost use Rattle.waff_board.specs.Tokens.{IsOf};

use crate::board::Board;
use crate::hand::Hand;
use crate::plays::MakeSeat;
use crate::rule::Rule;
use crate::tokens::Seat;
use crate::view::{Setup, View};
use atomic_table::Table;
use std::alloc::{AllocError, Global};
use waff_cells::ParcelTable;
use waff_core::Job;
use waff_model::AffinityId;

/// Why no board is made.
#[derive(Clone, Copy, Debug)]
pub enum BoardError {
    /// A growth of memory was refused.
    Memory,
}

impl Board {
    /// A board for the job, and its seats, as many as asked for: those of actors 1, 2 and so on.
    pub fn new(alloc: Global, job: Job, seats: u32) -> Result<(Board, Vec<Seat>), BoardError>
        requires seats { IsSeats seats }
        ensures job { IfOk result (λ made. made.0.job ≡ job) }
        ensures seats { IfOk result (λ made. made.0.seats ≡ seats) }
        ensures count { IfOk result (λ made. length made.1.items ≡ seats) }
        ensures of { IfOk result (λ made. All (IsOf made.0) made.1.items) }
        ensures fresh { IfOk result (λ made. AreFresh 1 made.1.items) }
    {
        let setup = Setup { job, seats };
        let Ok((table, chair)) = table_of(alloc, &setup) else {
            drop(setup);
            return Err(BoardError::Memory);
        };
        let board = Board {
            table,
            setup,
            heap: alloc,
        };
        let Ok(seats) = board.seat_all(chair) else {
            drop(board);
            return Err(BoardError::Memory);
        };
        Ok((board, seats))
    }

    /// The seats, the first of which sits on this chair.
    fn seat_all(
        &self,
        mut chair: atomic_table::Seat<Vec<u64>, View>,
    ) -> Result<Vec<Seat>, AllocError>
        requires some { 1 ≤ self.now.seats }
        requires table { chair.table_id ≡ self.now.table }
        requires me { chair.me ≡ (fresh self.now.job 1 1, []) }
        ensures count { IfOk result (λ seats. length seats.items ≡ self.now.seats) }
        ensures of { IfOk result (λ seats. All (IsOf self.now) seats.items) }
        ensures fresh { IfOk result (λ seats. AreFresh 1 seats.items) }
    {
        let mut seats = Vec::with_capacity(self.heap, self.setup.seats as usize)?;
        for _made in 1..self.setup.seats {
            let next = self.table.shared.split_seat::<MakeSeat>(&mut chair);
            seats.push_reserved(self.seat(next)?);
        }
        let first = self.seat(chair)?;
        let Ok(()) = seats.insert(0, first) else {
            unreachable!()
        };
        Ok(seats)
    }

    /// The seat on this chair, with its marks and its rows.
    fn seat(&self, chair: atomic_table::Seat<Vec<u64>, View>) -> Result<Seat, AllocError>
        requires job { chair.me.0.job ≡ self.now.job }
        requires fresh { IsFresh chair.me.0.actor chair.me.0 }
        requires empty { chair.me.1 ≡ [] }
        ensures table { IfOk result (λ seat. seat.table ≡ chair.table_id) }
        ensures view { IfOk result (λ seat. seat.view ≡ chair.me.0) }
    {
        let seen = vec![in self.heap; false; self.setup.job.len() as usize + 1]?;
        let parcels = empty_rows(self.heap, self.setup.job.layout().tree().len())?;
        Ok(Seat {
            hand: Hand {
                chair,
                seen,
                parcels,
            },
        })
    }
}

/// The table of a board that is told this, and the chair of its first seat.
fn table_of(
    alloc: Global,
    setup: &Setup,
) -> Result<
    (
        Table<Vec<u64>, View, Setup, Rule, Global>,
        atomic_table::Seat<Vec<u64>, View>,
    ),
    AllocError,
>
    requires seats { IsSeats setup.now.seats }
    ensures setup { IfOk result (λ made. IsSetup setup.now) }
    ensures told { IfOk result (λ made. made.0.shared.key ≡ setup.now) }
    ensures words { IfOk result (λ made. made.0.shared.table_id.words
        ≡ length setup.now.job.ops + 1) }
    ensures slots { IfOk result (λ made. made.0.shared.table_id.slots
        ≡ length setup.now.job.layout.tree) }
    ensures table { IfOk result (λ made. made.1.table_id ≡ made.0.shared.table_id) }
    ensures me { IfOk result (λ made. made.1.me ≡ (first setup.now, [])) }
{
    let words = vec![in alloc; 0; setup.job.len() as usize + 1]?;
    let parcels = zero_parcels(alloc, setup.job.parcel_table())?;
    match Table::new(alloc, &words, parcels, setup) {
        Ok(made) => Ok(made),
        Err(_) => Err(AllocError),
    }
}

/// The parcel of each affinity, with 0 in every cell.
fn zero_parcels(alloc: Global, table: &ParcelTable) -> Result<Vec<Vec<u64>>, AllocError>
    ensures { IfOk result (λ parcels. map (λ parcel. parcel.items) parcels.items
        ≡ zero_parcels_of table.now.spaces (length table.now.tree)) }
{
    let count = table.layout().tree().len();
    let mut parcels = Vec::with_capacity(alloc, count as usize)?;
    for a in 0..count {
        let size = table.parcel_len(AffinityId(a as u16));
        parcels.push(vec![in alloc; 0; size as usize]?)?;
    }
    Ok(parcels)
}

/// As many rows, each empty.
fn empty_rows(alloc: Global, count: u32) -> Result<Vec<Vec<u64>>, AllocError>
    ensures { IfOk result (λ rows. length rows.items ≡ count) }
{
    let mut rows = Vec::with_capacity(alloc, count as usize)?;
    for _row in 0..count {
        rows.push(Vec::new(alloc))?;
    }
    Ok(rows)
}
