//! Replays of traces: the serial run, and the run on threads.
//!
//! A replay that returns a state returns that of the serial run, in any schedule of its threads.
//! That it returns is not promised, and no order or speed of threads.
//! - `arrival`: the messages one after another, in the order of arrival.
//! - `replaying`: the start of the workers and the close; `work`: what one worker does;
//!   `sleepers`: the workers that have nothing to run, and who wakes them.
//! - `gate`: what each worker calls before it runs a message.
//!
//! Every state that `replay` returns is that of arrival order after all messages, in any schedule
//! of its threads.
//!
//! Tests: `test_threads/src/replays.rt` replays the samples many times by 1 to 16 workers, and a
//! chain of as many messages as a trace may have. No clause says that workers run at once, how many
//! there are, or that each message passes the `Gate` of a replay: a gate at which messages wait
//! until all have come shows the first, one that counts who is inside shows that there are no more
//! than asked for, and one that marks who came shows the third. Three wrong replays were tried
//! against these tests by hand: one on one thread waits for ever at the first, one on 16 threads
//! whatever was asked fails the second, and one that never calls the gate fails the first and the
//! third. Messages that stay at a gate for a while are replayed too: a worker that is never woken
//! would not end. At another gate two workers have to meet after one of them slept: a replay that
//! wakes nobody for the next message, tried by hand, misses. `tests/replays/sleepers` goes through
//! all interleavings of a model of this waiting. `tests/hostile/memory` counts the threads that
//! `waff replay` starts.
#![tactic(auto)]

mod arrival;
mod gate;
mod replaying;
mod sleepers;
mod work;

pub use arrival::serial;
pub use gate::{Gate, Open};
pub use replaying::replay;
