//! Looking at all messages at the end.

ghost use Rattle.std.specs.Prelude.{IfSome, IfNone};
ghost use Rattle.waff_board.specs.Endings.{LookedOver, SeesAll, IsLeastUnseen};
ghost use Rattle.waff_board.specs.Tokens.{IsOf};

use crate::board::Board;
use crate::tokens::EndSeat;

impl Board {
    /// Looks once at each message, in order.
    pub fn end_looks(&self, seat: EndSeat) -> EndSeat
        requires { IsOf self.now seat }
        ensures looks { LookedOver seat.view result.view }
        ensures of { IsOf self.now result }
    {
        let EndSeat { mut hand } = seat;
        for n in 1..self.setup.job.len() + 1 {
            hand = self.look(hand, n);
        }
        EndSeat { hand }
    }
}

impl EndSeat {
    /// The least message that the seat has not seen done, none where it has seen all.
    pub fn unseen(&self) -> Option<u32>
        ensures some { IfSome result (IsLeastUnseen self.now.view) }
        ensures none { IfNone result (SeesAll self.now.view) }
    {
        let seen = &self.hand.seen;
        for n in 1..seen.len() {
            if !seen[n] {
                return Some(n as u32);
            }
        }
        None
    }
}
