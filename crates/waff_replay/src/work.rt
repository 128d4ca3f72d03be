//! What one worker does.

ghost use Rattle.std.specs.Prelude.{◌≤◌};
ghost use Rattle.waff_board.specs.Tokens.{IsOf};
ghost use Rattle.waff_replay.specs.declared.work.TheConstants.{LONGEST_REST};

use crate::gate::Gate;
use crate::sleepers::Sleepers;
use std::hint::spin_loop;
use std::sync::Wait;
use std::thread::{Parker, yield_now};
use std::time::Duration;
use waff_board::{Board, Clear, Cleared, Draw, Drawn, EndSeat, Seat};

/// As many looks in a row as a worker makes before it sleeps: together they take about as long as to
/// fall asleep and wake.
const LOOKS: u32 = 1000;

/// As many looks as there are at most where messages are short.
const FEW: u32 = 30;

/// As long as a worker rests at most before it draws, in microseconds.
const LONGEST_REST: u32 = 1023;

/// A rest from which on a worker sleeps, in microseconds: to fall asleep and wake takes about as long.
const SLEEP: u32 = 64;

/// How a worker waited for its message.
#[derive(Clone, Copy, Drop)]
enum Waited {
    /// Not at all.
    Not,
    /// A few looks.
    Briefly,
    /// Many looks, and then perhaps asleep.
    Long,
}

/// A worker of a replay.
#[derive(Drop)]
pub(crate) struct Worker<'a, R: Wait> {
    pub(crate) rt: &'a R,
    pub(crate) board: &'a Board,
    pub(crate) sleepers: &'a Sleepers,
    /// Which of the sleepers it is, from 0.
    pub(crate) number: usize,
}

impl<'a, R: Wait> Worker<'a, R> {
    /// Runs messages until the order is used up. Where the message behind its own can run too, it
    /// wakes a worker that sleeps for want of one. Once it had to wait, it draws the next message when
    /// that can run, so that where few messages can run at once, few workers run them.
    pub(crate) fn work<G: Gate>(&self, mut seat: Seat, gate: &G) -> EndSeat
        requires { IsOf self.now.board.now seat }
        ensures { IsOf self.now.board.now result }
    {
        let mut pause = 0;
        let mut waited = Waited::Not;
        for _ in self.rt.forever() {
            pause = self.pause_before_draw(pause, waited);
            match self.board.draw(seat) {
                Draw::Over(end) => {
                    self.sleepers.wake_all();
                    return end;
                }
                Draw::Got(drawn) => {
                    self.sleepers.wake_for_next(self.board);
                    let (cleared, how) = self.wait_until_clear(drawn);
                    waited = how;
                    let message = cleared.message();
                    let grant = self.board.begin(cleared);
                    gate.before(&grant);
                    seat = self.board.finish(grant.run());
                    self.sleepers.wake_after(message);
                }
            }
        }
        unreachable!()
    }

    /// Waits before the next draw of a worker that had to wait for its last message; how long it is to
    /// rest the next time.
    fn pause_before_draw(&self, pause: u32, waited: Waited) -> u32
        requires { pause ≤ LONGEST_REST }
        ensures { result ≤ LONGEST_REST }
    {
        let pause = next_rest(pause, waited);
        if let Waited::Not = waited {
            return pause;
        }
        rest(self.rt, pause);
        if self.wait_for_next() { 0 } else { pause }
    }

    /// Waits until the next message can run, or there is none; whether that took many looks.
    fn wait_for_next(&self) -> bool {
        let mut looks = 0;
        for _ in self.rt.forever() {
            if self.board.is_next_clear() {
                return looks > FEW;
            }
            if looks < LOOKS {
                looks += 1;
                spin_loop();
            } else {
                self.sleepers
                    .sleep_until_next(self.rt, self.board, self.number);
            }
        }
        unreachable!()
    }

    /// Looks at the needs of the message until all are done.
    fn wait_until_clear(&self, mut drawn: Drawn) -> (Cleared, Waited)
        requires { IsOf self.now.board.now drawn }
        ensures { IsOf self.now.board.now result.0 }
    {
        let mut looks = 0;
        for _ in self.rt.forever() {
            match self.board.clear(drawn) {
                Clear::Go(cleared) => return (cleared, waited_for(looks)),
                Clear::Wait { drawn: held, on } => {
                    drawn = held;
                    if looks < LOOKS {
                        looks += 1;
                        spin_loop();
                    } else {
                        self.sleepers
                            .sleep_until_done(self.rt, self.board, self.number, on);
                    }
                }
            }
        }
        unreachable!()
    }
}

/// Rests for about so many microseconds. No answer depends on how long.
fn rest<R: Wait>(rt: &R, micros: u32)
    requires { micros ≤ LONGEST_REST }
{
    if micros < SLEEP {
        for _ in 0..micros {
            yield_now();
        }
    } else {
        Parker::new().park_timeout(rt, Duration::from_micros(u64::from(micros)));
    }
}

/// How long a worker rests before a draw: about twice as long as before if it waited for a few looks,
/// as to hand data from thread to thread takes longer than to run a short message; not at all if it
/// waited long, as messages are long then; and else a little less long.
fn next_rest(micros: u32, waited: Waited) -> u32
    requires { micros ≤ LONGEST_REST }
    ensures { result ≤ LONGEST_REST }
{
    match waited {
        Waited::Not => micros.saturating_sub(micros / 16 + 1),
        Waited::Briefly => micros.saturating_mul(2).saturating_add(1).min(LONGEST_REST),
        Waited::Long => 0,
    }
}

/// How a worker waited that looked so many times in vain.
fn waited_for(looks: u32) -> Waited {
    match looks {
        0 => Waited::Not,
        1..=FEW => Waited::Briefly,
        _ => Waited::Long,
    }
}
