//! The lowest affinities under a coarse hierarchy, noted at the affinities of a finer one.
//!
//! Affinities that exclude each other pairwise stand on one way up to the root, so the lowest of
//! them tells of all: what excludes it excludes each.

ghost use Rattle.std.specs.Prelude.{◌≡◌, ◌+◌, ◌<◌, ◌↔◌, ℕ, List, length, All, IfSome, IsTrue};
ghost use Rattle.std.specs.Prelude.{MatchOption, None, slice_index_or};
ghost use Rattle.waff_assign.specs.Order.{Refines};
ghost use Rattle.waff_model.specs.Tree.{IsTree, Node};
ghost use Rattle.waff_order.specs.Lowests.{above_of, Agree, AreLowests, IsApart, IsLower};
ghost use Rattle.waff_assign.specs.Held.{AreKnown};
ghost use Rattle.waff_assign.specs.Held.{AreUnlocked, IsHeldWithin};

use waff_assign::Assigned;
use waff_model::{AffinityId, Tree};

/// Notes at each affinity the lowest coarse affinity of its messages. Answers false where the
/// coarse affinities of two of them do not exclude each other.
pub(crate) fn note_messages(
    lowests: &mut [Option<AffinityId>],
    assigned: &Assigned,
    coarse_tree: &Tree,
    coarse_assigned: &Assigned,
) -> bool
    requires none { (a : ℕ) → slice_index_or lowests.old a None ≡ None }
    requires known { All (IsHeldWithin (length lowests.old)) assigned.now }
    requires coarse_known { AreKnown coarse_tree.now coarse_assigned.now }
    requires unlocked { AreUnlocked assigned.now }
    requires coarse_unlocked { AreUnlocked coarse_assigned.now }
    requires lengths { length assigned.now ≡ length coarse_assigned.now }
    ensures lowests { IsTrue result → AreLowests assigned.now coarse_tree.now coarse_assigned.now
        (length assigned.now + 1) lowests.new }
    ensures refined { (tree : List Node)
        → Refines tree assigned.now coarse_tree.now coarse_assigned.now → IsTrue result }
{
    for n in 1..assigned.len() + 1 {
        let (Some(place), Some(coarse)) = (assigned.affinity(n), coarse_assigned.affinity(n)) else {
            return false;
        };
        let place = place.0 as usize;
        let Some(low) = lower(coarse_tree, lowests[place], coarse) else {
            return false;
        };
        lowests[place] = Some(low);
    }
    true
}

/// Whether what is noted at two affinities that exclude each other excludes each other under the
/// coarse tree. Carries what is noted down to all below: each affinity stands after its parent.
pub(crate) fn agree(lowests: &mut [Option<AffinityId>], tree: &Tree, coarse_tree: &Tree) -> bool
    requires count { length lowests.old ≡ length tree.now }
    requires within { (a : ℕ)
        → IfSome (slice_index_or lowests.old a None) (λ low. low.0 < length coarse_tree.now) }
    ensures agree { IsTrue result → Agree tree.now coarse_tree.now lowests.old }
    ensures all { (IsTree coarse_tree.now → Agree tree.now coarse_tree.now lowests.old) → IsTrue result }
{
    for a in 0..tree.len() as u16 {
        let Some(above) = noted_above(lowests, tree, AffinityId(a)) else {
            continue;
        };
        let Some(low) = lower(coarse_tree, lowests[a as usize], above) else {
            return false;
        };
        lowests[a as usize] = Some(low);
    }
    true
}

/// What is noted at the parent.
fn noted_above(
    lowests: &[Option<AffinityId>],
    tree: &Tree,
    affinity: AffinityId,
) -> Option<AffinityId>
    requires tree { IsTree tree.now }
    requires count { length lowests.now ≡ length tree.now }
    requires affinity { affinity.0 < length tree.now }
    ensures { result ≡ above_of tree.now lowests.now affinity.0 }
{
    match tree.parent(affinity) {
        Some(parent) => lowests[parent.0 as usize],
        None => None,
    }
}

/// The lower of an affinity and the one that is noted. None where neither is at or above the other.
fn lower(tree: &Tree, noted: Option<AffinityId>, affinity: AffinityId) -> Option<AffinityId>
    requires noted { IfSome noted (λ a. a.0 < length tree.now) }
    requires affinity { affinity.0 < length tree.now }
    ensures { MatchOption result (IsApart tree.now noted affinity × IsTree tree.now)
        (IsLower tree.now noted affinity) }
{
    match noted {
        Some(low) if tree.at_or_above(affinity, low) => Some(low),
        Some(low) if !tree.at_or_above(low, affinity) => None,
        _ => Some(affinity),
    }
}
