//! The board.

ghost use Rattle.std.specs.Prelude.{◌≡◌, ◌+◌, length};

use crate::rule::Rule;
use crate::view::{Setup, View};
use atomic_table::Table;
use std::alloc::Global;
use std::marker::Model;

/// A job that threads replay together. Word 0 counts the draws, each message has a status word, and
/// each affinity a slot for its parcel.
#[derive(Drop)]
pub struct Board {
    pub(crate) table: Table<Vec<u64>, View, Setup, Rule, Global>,
    pub(crate) setup: Setup,
    pub(crate) heap: Global,
    ghost told: { table.shared.key ≡ setup },
    ghost words: { table.shared.table_id.words ≡ length setup.job.ops + 1 },
    ghost slots: { table.shared.table_id.slots ≡ length setup.job.layout.tree },
}

impl Model for Board {
    ghost use Rattle.waff_board.specs.Rule.{IsSetup};
    ghost use Rattle.waff_board.specs.Tokens.{BoardValue};

    ghost Value = { BoardValue };

    ghost view = { λ b. record { table = b.table.shared.table_id; job = b.setup.job; seats = b.setup.seats } };

    ghost invariant = { λ b. IsSetup b.setup };
}
