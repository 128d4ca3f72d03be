//! Drawing the next message.

ghost use Rattle.std.specs.Prelude.{◌≡◌, ◌<◌, ◌≤◌, IfNone, IfSome, length, slice_get};
ghost use Rattle.waff_core.specs.Job.{IsIn};
ghost use Rattle.waff_board.specs.Calls.{DrawTells};
ghost use Rattle.waff_board.specs.Tokens.{IsOf};

use crate::board::Board;
use crate::plays::DrawStep;
use crate::tokens::{Drawn, EndSeat, Seat};

/// What a draw gives.
#[derive(Drop)]
pub enum Draw {
    /// The message at the number's place of the order.
    Got(Drawn),
    /// The order is used up.
    Over(EndSeat),
}

impl Board {
    /// Draws the next number.
    pub fn draw(&self, seat: Seat) -> Draw
        requires { IsOf self.now seat }
        ensures { DrawTells self.now seat.view result }
    {
        let Seat { mut hand } = seat;
        let number = self
            .table
            .shared
            .fetch_add::<DrawStep>(&mut hand.chair, 0, 1);
        match self.message_at(number) {
            Some(message) => Draw::Got(Drawn { hand, message }),
            None => Draw::Over(EndSeat { hand }),
        }
    }

    /// The message that this number draws.
    pub(crate) fn message_at(&self, number: u64) -> Option<u32>
        ensures drawn { slice_get self.now.job.order number ≡ result }
        ensures some { IfSome result
            (λ m. IsIn self.now.job m × (number < length self.now.job.ops)) }
        ensures none { IfNone result (length self.now.job.ops ≤ number) }
    {
        let job = &self.setup.job;
        if number < job.len() as u64 {
            job.drawn_at(number as u32)
        } else {
            None
        }
    }
}
