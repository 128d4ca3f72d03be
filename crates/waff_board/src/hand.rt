//! What every seat holds.

ghost use Rattle.std.specs.Prelude.{◌≡◌, ◌+◌, ◌<◌, ℕ, false, length, slice_index_or, vec_len};
ghost use Rattle.waff_core.specs.Job.{IsIn};
ghost use Rattle.waff_board.specs.Seats.{has_seen};

use crate::view::View;
use atomic_table::Seat;

/// A seat of the table, a mark for each message that its view has seen done, and a row for each
/// affinity, where its parcel lies while the seat runs a message that it owns cells of.
#[derive(Drop)]
pub struct Hand {
    pub(crate) chair: Seat<Vec<u64>, View>,
    pub(crate) seen: Vec<bool>,
    pub(crate) parcels: Vec<Vec<u64>>,
    ghost count: { vec_len seen ≡ length chair.me.0.job.ops + 1 },
    ghost marks: { (n : ℕ) → n < length chair.me.0.job.ops + 1
        → slice_index_or seen.items n false ≡ has_seen chair.me.0 n },
    ghost rows: { vec_len parcels ≡ length chair.me.0.job.layout.tree },
}

impl Hand {
    /// Whether the seat has seen that message `n` is done.
    pub(crate) fn sees(&self, n: u32) -> bool
        requires { IsIn self.now.chair.me.0.job n }
        ensures { result ≡ has_seen self.now.chair.me.0 n }
    {
        self.seen[n as usize]
    }
}
