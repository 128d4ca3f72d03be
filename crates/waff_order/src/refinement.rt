//! Whether one hierarchy refines another on a trace.

ghost use Rattle.std.specs.Prelude.{◌≡◌, ◌<◌, ◌↔◌, length, All, IsTrue};
ghost use Rattle.waff_assign.specs.Order.{Refines};
ghost use Rattle.waff_assign.specs.Held.{AreKnown};
ghost use Rattle.waff_assign.specs.Held.{AreUnlocked};

use crate::lowests::{agree, note_messages};
use waff_assign::Assigned;
use waff_model::Tree;
use waff_model::limits::MAX_AFFINITIES;

/// Whether each ordered pair under the first hierarchy is one under the second, where no space has locks.
pub fn refines(
    tree: &Tree,
    assigned: &Assigned,
    coarse_tree: &Tree,
    coarse_assigned: &Assigned,
) -> bool
    requires known { AreKnown tree.now assigned.now }
    requires coarse_known { AreKnown coarse_tree.now coarse_assigned.now }
    requires unlocked { AreUnlocked assigned.now }
    requires coarse_unlocked { AreUnlocked coarse_assigned.now }
    requires lengths { length assigned.now ≡ length coarse_assigned.now }
    ensures { IsTrue result ↔ Refines tree.now assigned.now coarse_tree.now coarse_assigned.now }
{
    let mut table = [None; MAX_AFFINITIES];
    let lowests = &mut table[..tree.len() as usize];
    note_messages(lowests, assigned, coarse_tree, coarse_assigned)
        && agree(lowests, tree, coarse_tree)
}
