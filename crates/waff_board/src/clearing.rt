//! Looking at the needs of a message.

ghost use Rattle.std.specs.Prelude.{◌≡◌, All, find, not};
ghost use Rattle.waff_core.specs.Job.{IsIn};
ghost use Rattle.waff_board.specs.Calls.{Looked, LooksOver, ClearTells};
ghost use Rattle.waff_board.specs.Hands.{IsHandOf};
ghost use Rattle.waff_board.specs.Seats.{has_seen};
ghost use Rattle.waff_board.specs.Tokens.{IsOf};

use crate::board::Board;
use crate::hand::Hand;
use crate::plays::LookStep;
use crate::tokens::{Cleared, Drawn};
use crate::view::DONE;

/// What a look at the needs gives.
#[derive(Drop)]
pub enum Clear {
    /// All needs are done.
    Go(Cleared),
    /// The first need that the seat has not seen done.
    Wait { drawn: Drawn, on: u32 },
}

impl Board {
    /// Looks once at each need of the message that the seat has not seen done.
    pub fn clear(&self, drawn: Drawn) -> Clear
        requires { IsOf self.now drawn }
        ensures { ClearTells self.now drawn.view drawn.message result }
    {
        let Drawn { hand, message } = drawn;
        let needs = self.setup.job.needs(message);
        let hand = self.look_over(hand, needs);
        match first_unseen(&hand, needs) {
            Some(on) => Clear::Wait {
                drawn: Drawn { hand, message },
                on,
            },
            None => Clear::Go(Cleared {
                drawn: Drawn { hand, message },
            }),
        }
    }

    /// Looks once at each of the messages that the seat has not seen done.
    fn look_over(&self, mut hand: Hand, messages: &[u32]) -> Hand
        requires of { IsHandOf self.now hand }
        requires known { All (IsIn self.now.job) messages.now }
        ensures looks { LooksOver hand.chair.me.0 messages.now result.chair.me.0 }
        ensures held { result.chair.me.1 ≡ hand.chair.me.1 }
        ensures of { IsHandOf self.now result }
    {
        for n in messages {
            if !hand.sees(*n) {
                hand = self.look(hand, *n);
            }
        }
        hand
    }

    /// Looks at message `n`, and marks it where it is done.
    pub(crate) fn look(&self, mut hand: Hand, n: u32) -> Hand
        requires of { IsHandOf self.now hand }
        requires number { IsIn self.now.job n }
        ensures view { Looked hand.chair.me.0 n result.chair.me.0 }
        ensures held { result.chair.me.1 ≡ hand.chair.me.1 }
        ensures of { IsHandOf self.now result }
    {
        let word = self
            .table
            .shared
            .load::<LookStep>(&mut hand.chair, n as usize);
        if word == DONE {
            hand.seen[n as usize] = true;
        }
        hand
    }
}

/// The first of the needs that the seat has not seen done.
fn first_unseen(hand: &Hand, needs: &[u32]) -> Option<u32>
    requires { All (IsIn hand.now.chair.me.0.job) needs.now }
    ensures { result ≡ find (λ n. not (has_seen hand.now.chair.me.0 n)) needs.now }
{
    for n in needs {
        if !hand.sees(*n) {
            return Some(*n);
        }
    }
    None
}
