//! The running board: a job that threads replay together, each through a seat of its own.
//!
//! Between any two atomic steps on the board's table, in any schedule of threads, it shows one state
//! of the core machine, which events reach. Each kind of step is one event or none: a draw, a begin
//! and a finish are one event each, a look and the making of a seat leave the state as it is, and so
//! messages that exclude each other never run at once (`laws`). A seat goes from token to token, each
//! of which one call takes and the next one gives: `Seat`, draw, `Drawn`, clear, `Cleared`, begin,
//! `Grant`, run, `Finished`, finish, `Seat`; at the end `EndSeat`, until it has seen all messages
//! done, and close. From draw to the end no call waits, by its bounds, and none takes memory, by
//! tests.
//! - `rule`: the rule between any two steps; `plays`: the kinds of steps; `view`, `hand`: what a
//!   seat knows and holds.
//! - `board`, `opening`: the board, and making it with its seats; `tokens`: what the calls take and
//!   give.
//! - `drawing`, `clearing`, `running`, `ending`, `closing`: the calls, in their order; `reading`:
//!   what a token tells; `peeking`: glances without a seat, for whoever waits.
//! - `laws`: what holds between any two steps, whichever threads make them.
//!
//! At most 16 seats. The words that contracts cite stand in `specs/`: `Seats`, `Shows` and `Rule`
//! first.
//!
//! Threads share a board through its tokens alone. A seat of the table that the board stands on has
//! a view: plain data, which its own steps change and no other's (`View`, `src/view.rt`). The
//! words, the slots at home and the views *show* a state of the core machine (`specs/Shows.antt`,
//! `specs/Seats.antt`). The rule of the board is that between any two atomic steps they show a
//! state that some list of events reaches (`Holds`, `specs/Rule.antt`); it is the rule of the table
//! (`src/rule.rt`), so each step is proved to keep it whatever the other threads do. They show one
//! state, and a step leads to the state one event later or to the same one. What each step shows
//! its seat stands in `specs/Plays.antt`, what each call answers in `specs/Calls.antt`.
//!
//! The premise: the threads use the board through its calls alone. Not promised: any order between
//! seats, progress, that a call is made at all. What a look tells done is done (`seen_is_done`);
//! what it does not may be done, and no clause says that it was not. `unseen` is the least message
//! of its kind, so one. `Board::is_done` and `Board::is_next_clear` are glances without a seat. No
//! clause says what they answer: a worker of a replay sleeps by them, and no state depends on it.
//!
//! No call waits (`waits_for_the_needs`: nothing shows that such a look ends): none has the bound
//! `Wait`. No call but `Board::new` and `close` takes memory. The board keeps its allocator, so no
//! bound says that; `tests/refusals` makes each allocation of a replay fail in turn.
//!
//! Tests: `test_threads/src/boards.rt` makes these calls one by one on one thread: a seat that runs
//! a whole trace, a seat that waits for a need, the cells of a grant, and boards that close
//! unfinished, where a seat stopped and where a grant was dropped. It refuses a board that always
//! says that the next message is clear, tried by hand. No public clause says that `Unfinished`
//! names the lowest message that is not done; a helper's clause and a test do. `replays.rt` makes
//! the calls by `replay` from 1 to 16 threads, and `tests/replays` with seats that take turns at
//! random.
#![tactic(auto)]

mod board;
mod clearing;
mod closing;
mod drawing;
mod ending;
mod hand;
pub mod laws;
mod opening;
mod peeking;
mod plays;
mod reading;
mod rule;
mod running;
mod tokens;
mod view;

pub use board::Board;
pub use clearing::Clear;
pub use closing::CloseError;
pub use drawing::Draw;
pub use opening::BoardError;
pub use tokens::{Cleared, Drawn, EndSeat, Finished, Grant, Seat};
pub use waff_cells::State;
pub use waff_core::{CoreError, CoreState, Event, Job, JobError, Status, run_events};
