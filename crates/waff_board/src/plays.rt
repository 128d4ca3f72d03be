//! The kinds of steps, and what each tells the seat that makes it.

ghost use Rattle.waff_board.specs.Plays.{Draws, Looks, Begins, Finishes, made_view, next_view};

use crate::view::View;
use atomic_table::{Play, Split};

/// A draw: `fetch_add` of 1 on word 0.
pub struct DrawStep;

impl Play<Vec<u64>, View> for DrawStep {
    ghost then = { Draws };
}

/// A look at a message: a load of its status word.
pub struct LookStep;

impl Play<Vec<u64>, View> for LookStep {
    ghost then = { Looks };
}

/// A begin: a store of 1 in the message's status word.
pub struct BeginStep;

impl Play<Vec<u64>, View> for BeginStep {
    ghost then = { Begins (λ parcel. parcel.items) };
}

/// A finish: a store of 2 in the message's status word.
pub struct FinishStep;

impl Play<Vec<u64>, View> for FinishStep {
    ghost then = { Finishes };
}

/// The first seat makes the next one.
pub struct MakeSeat;

impl Split<View> for MakeSeat {
    ghost left = { made_view };

    ghost right = { next_view };
}
