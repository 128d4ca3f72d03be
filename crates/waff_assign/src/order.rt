//! The order that the messages of a trace keep.

ghost use Rattle.std.specs.Prelude.{◌↔◌, ◌≡◌, ◌<◌, ℕ, length, option_map, Some, IfSome, IsTrue};
ghost use Rattle.waff_model.specs.Numbers.{IsAmongFirst};
ghost use Rattle.waff_model.specs.Tree.{Excludes};
ghost use Rattle.waff_assign.specs.Held.{AreKnown, ExcludeByAffinities, ExcludeEachOther};
ghost use Rattle.waff_assign.specs.Held.{IsFirstOfContended, IsRising, UsesContend, using};
ghost use Rattle.waff_assign.specs.Order.{held_of, IsOrdered};

use crate::Assigned;
use crate::held::LockUse;
use waff_model::{AffinityId, Tree};

/// Whether messages `i` and `j`, from 1, are an ordered pair: `i` arrived before `j`, and they exclude each
/// other, so that `j` starts only when `i` has finished.
pub fn is_ordered(tree: &Tree, assigned: &Assigned, i: u32, j: u32) -> bool
    requires first { IsAmongFirst (length assigned.now) i }
    requires second { IsAmongFirst (length assigned.now) j }
    requires known { AreKnown tree.now assigned.now }
    ensures { IsTrue result ↔ IsOrdered tree.now assigned.now i j }
{
    i < j && exclude_each_other(tree, assigned, i, j)
}

/// Whether messages `i` and `j`, from 1, exclude each other.
pub fn exclude_each_other(tree: &Tree, assigned: &Assigned, i: u32, j: u32) -> bool
    requires first { IsAmongFirst (length assigned.now) i }
    requires second { IsAmongFirst (length assigned.now) j }
    requires known { AreKnown tree.now assigned.now }
    ensures { IsTrue result
        ↔ ExcludeEachOther tree.now (held_of assigned.now i) (held_of assigned.now j) }
{
    exclude_by_affinities(tree, assigned, i, j) || contended_lock(assigned, i, j).is_some()
}

/// Whether messages `i` and `j`, from 1, exclude each other whatever locks they use: the affinity of one is at or
/// above that of the other, or one of them runs in the root.
pub fn exclude_by_affinities(tree: &Tree, assigned: &Assigned, i: u32, j: u32) -> bool
    requires first { IsAmongFirst (length assigned.now) i }
    requires second { IsAmongFirst (length assigned.now) j }
    requires known { AreKnown tree.now assigned.now }
    ensures { IsTrue result
        ↔ ExcludeByAffinities tree.now (held_of assigned.now i) (held_of assigned.now j) }
{
    let (one, other) = (assigned.affinity(i), assigned.affinity(j));
    is_root(one) || is_root(other) || affinities_exclude(tree, one, other)
}

/// The first lock that messages `i` and `j`, from 1, both use, and one of them alone: the locks of each are listed by
/// their numbers.
pub fn contended_lock(assigned: &Assigned, i: u32, j: u32) -> Option<u32>
    requires first { IsAmongFirst (length assigned.now) i }
    requires second { IsAmongFirst (length assigned.now) j }
    requires rising { IsRising (held_of assigned.now i).uses }
    requires others { IsRising (held_of assigned.now j).uses }
    ensures { IsFirstOfContended (held_of assigned.now i) (held_of assigned.now j) result }
{
    first_contended(assigned.uses(i), assigned.uses(j))
}

/// Whether there are both affinities, and one of them is at or above the other.
fn affinities_exclude(tree: &Tree, one: Option<AffinityId>, other: Option<AffinityId>) -> bool
    requires one { IfSome one (λ a. a.0 < length tree.now) }
    requires other { IfSome other (λ a. a.0 < length tree.now) }
    ensures { IsTrue result ↔ ((a b : ℕ) × (option_map (λ a. a.0) one ≡ Some a)
        × (option_map (λ a. a.0) other ≡ Some b) × Excludes tree.now a b) }
{
    match (one, other) {
        (Some(one), Some(other)) => tree.excludes(one, other),
        _ => false,
    }
}

/// Whether the affinity is the root.
pub fn is_root(affinity: Option<AffinityId>) -> bool
    ensures { IsTrue result ↔ (option_map (λ a. a.0) affinity ≡ Some 0) }
{
    match affinity {
        Some(affinity) => affinity.0 == 0,
        None => false,
    }
}

/// The first lock that is in both lists, and in one of them alone: both are by the numbers of their locks.
fn first_contended(uses: &[LockUse], others: &[LockUse]) -> Option<u32>
    requires rising { IsRising uses.now }
    requires others { IsRising others.now }
    ensures { IsFirstOfContended (using uses.now) (using others.now) result }
{
    let (mut at, mut other) = (0, 0);
    while at < uses.len() && other < others.len() {
        let (one, two) = (uses[at], others[other]);
        if uses_contend(one, two) {
            return Some(one.lock);
        }
        if one.lock <= two.lock {
            at += 1;
        } else {
            other += 1;
        }
    }
    None
}

/// Whether both are uses of one lock, and one of them alone.
fn uses_contend(one: LockUse, other: LockUse) -> bool
    ensures { IsTrue result ↔ UsesContend one other }
{
    one.lock == other.lock && (one.alone || other.alone)
}
