//! Running a message.

ghost use Rattle.std.specs.Prelude.{◌≡◌, ◌<◌, All, length, map};
ghost use Rattle.waff_cells.specs.Held.{rows_of};
ghost use Rattle.waff_core.specs.Job.{IsIn, StandOnce, owners_of};
ghost use Rattle.waff_board.specs.Hands.{IsHandOf, rows_at};
ghost use Rattle.waff_board.specs.Plays.{begun_view, finished_view};
ghost use Rattle.waff_board.specs.Tokens.{IsOf, HoldsBefore, HoldsAfter};

use crate::board::Board;
use crate::hand::Hand;
use crate::plays::{BeginStep, FinishStep};
use crate::tokens::{Cleared, Drawn, Finished, Grant, Running, Seat};
use crate::view::{DONE, RUNNING, View};
use std::mem;
use waff_cells::parcels;

impl Board {
    /// Begins the message: the parcels of its footprint's owners leave home.
    pub fn begin(&self, cleared: Cleared) -> Grant<'_>
        requires { IsOf self.now cleared }
        ensures message { result.message ≡ cleared.message }
        ensures view { result.view ≡ begun_view cleared.view cleared.message }
        ensures parcels { HoldsBefore result }
        ensures of { IsOf self.now result }
    {
        let Cleared { drawn } = cleared;
        let Drawn { mut hand, message } = drawn;
        self.table
            .shared
            .store::<BeginStep>(&mut hand.chair, message as usize, RUNNING);
        let hand = self.swap(hand, message);
        let job = &self.setup.job;
        Grant {
            running: Running { hand, message, job },
        }
    }

    /// Finishes the message: the parcels come home.
    pub fn finish(&self, finished: Finished<'_>) -> Seat
        requires { IsOf self.now finished }
        ensures view { result.view ≡ finished_view finished.entry.view finished.entry.message }
        ensures of { IsOf self.now result }
    {
        let Finished { running } = finished;
        let Running { hand, message, .. } = running;
        let mut hand = self.swap(hand, message);
        self.table
            .shared
            .store::<FinishStep>(&mut hand.chair, message as usize, DONE);
        hand.seen[message as usize] = true;
        Seat { hand }
    }

    /// The slots of the message's owners and their rows swap what lies in them.
    fn swap(&self, hand: Hand, message: u32) -> Hand
        requires of { IsHandOf self.now hand }
        requires number { IsIn self.now.job message }
        requires held { map (λ slot. slot.0) hand.chair.me.1
            ≡ owners_of self.now.job.owners message }
        ensures of { IsHandOf self.now result }
        ensures view { result.chair.me.0 ≡ hand.chair.me.0 }
        ensures held { map (λ slot. slot.0) result.chair.me.1
            ≡ owners_of self.now.job.owners message }
        ensures rows { rows_at (rows_of result.parcels.items) (owners_of self.now.job.owners message)
            ≡ map (λ slot. slot.1.items) hand.chair.me.1 }
        ensures slots { map (λ slot. slot.1.items) result.chair.me.1
            ≡ rows_at (rows_of hand.parcels.items) (owners_of self.now.job.owners message) }
    {
        let Hand {
            mut chair,
            seen,
            mut parcels,
        } = hand;
        self.swap_all(&mut chair, self.setup.job.owners(message), &mut parcels);
        Hand {
            chair,
            seen,
            parcels,
        }
    }

    /// The slots that the seat holds and their rows swap what lies in them, one after another.
    fn swap_all(
        &self,
        chair: &mut atomic_table::Seat<Vec<u64>, View>,
        owners: &[u16],
        parcels: &mut Vec<Vec<u64>>,
    )
        requires table { chair.old.table_id ≡ self.now.table }
        requires held { map (λ slot. slot.0) chair.old.me.1 ≡ owners.now }
        requires known { All (λ a. a < length parcels.old.items) owners.now }
        requires once { StandOnce owners.now }
        ensures table { chair.new.table_id ≡ chair.old.table_id }
        ensures view { chair.new.me.0 ≡ chair.old.me.0 }
        ensures held { map (λ slot. slot.0) chair.new.me.1 ≡ owners.now }
        ensures rows { rows_at (rows_of parcels.new.items) owners.now
            ≡ map (λ slot. slot.1.items) chair.old.me.1 }
        ensures slots { map (λ slot. slot.1.items) chair.new.me.1
            ≡ rows_at (rows_of parcels.old.items) owners.now }
        ensures count { length parcels.new.items ≡ length parcels.old.items }
    {
        for a in owners {
            let row = &mut parcels[*a as usize];
            let parcel = mem::replace(row, Vec::new(self.heap));
            *row = self.table.shared.exchange(chair, *a as usize, parcel);
            chair.turn();
        }
    }
}

impl<'a> Grant<'a> {
    /// Runs the message's operations on the parcels.
    pub fn run(self) -> Finished<'a>
        ensures message { result.message ≡ self.entry.message }
        ensures table { result.table ≡ self.entry.table }
        ensures view { result.view ≡ self.entry.view }
        ensures parcels { HoldsAfter result }
    {
        let Grant { running } = self;
        let Running { hand, message, job } = running;
        let Hand {
            chair,
            seen,
            mut parcels,
        } = hand;
        parcels::run(
            parcels.as_mut_slice(),
            job.parcel_table(),
            &job.message(message).ops,
        );
        let hand = Hand {
            chair,
            seen,
            parcels,
        };
        Finished {
            running: Running { hand, message, job },
        }
    }
}
