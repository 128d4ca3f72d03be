//! How many threads a replay has.
ghost use Rattle.std.specs.Prelude.{◌≡◌, IfSome};
ghost use Rattle.waff_core.specs.Seats.{IsSeats};

use std::thread::{Threads, available_parallelism};
use waff_core::limits::MAX_SEATS;

/// The number of threads that is asked for, or as many as there are processors, 16 at most.
pub fn thread_count(rt: &impl Threads, asked: Option<u32>) -> u32
    requires { IfSome asked IsSeats }
    ensures asked { IfSome asked (λ k. result ≡ k) }
    ensures seats { IsSeats result }
{
    match asked {
        Some(workers) => workers,
        None => processors(rt),
    }
}

/// As many as there are processors, 16 at most; one where nobody knows.
fn processors(rt: &impl Threads) -> u32
    ensures { IsSeats result }
{
    match available_parallelism(rt) {
        Ok(count) => count.get().min(MAX_SEATS as usize) as u32,
        Err(_) => 1,
    }
}
