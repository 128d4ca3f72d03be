//! The rule of the board.

ghost use Rattle.waff_board.specs.Rule.{Holds};
ghost use Rattle.waff_board.specs.Seats.{first};

use crate::view::{Setup, View};
use atomic_table::TableRule;

/// Between any two atomic steps words, slots and views show a state that some list of events
/// reaches.
pub struct Rule;

impl TableRule<Vec<u64>, View, Setup> for Rule {
    ghost holds = { Holds (λ parcel. parcel.items) };

    ghost first = { first };
}
