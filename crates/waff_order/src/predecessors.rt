//! The needs of each message of a trace.

ghost use Rattle.std.specs.Prelude.{◌≡◌, ◌+◌, ◌*◌, ◌<◌, ◌≤◌, ℕ, List, length, All, IfOk, sum_by};
ghost use Rattle.waff_model.specs.Tree.{Node};
ghost use Rattle.waff_order.specs.Needs.{AreNeeds, IsWithinDepth};
ghost use Rattle.waff_order.specs.Open.{AreChosen};
ghost use Rattle.waff_assign.specs.Held.{AreKnown, Held};
ghost use Rattle.waff_assign.specs.Held.{AreUnlocked, places_held};

use crate::joining::Joining;
use crate::lists::Needs;
use std::alloc::{AllocError, Global};
use waff_assign::Assigned;
use waff_model::Tree;

/// The needs of each message: earlier messages that exclude it, so many that every other such
/// message is led to it by a path through needs. They are, at each place that it holds, the open messages
/// at or below it, or, where there is none, the latest one above it.
pub fn needs(alloc: Global, tree: &Tree, assigned: &Assigned) -> Result<Needs, AllocError>
    requires { AreKnown tree.now assigned.now }
    ensures needs { IfOk result (AreNeeds tree.now assigned.now) }
    ensures chosen { IfOk result (AreChosen tree.now assigned.now) }
    ensures few { IfOk result (λ needs. (depth : ℕ) → AreUnlocked assigned.now
        → IsWithinDepth tree.now depth → sum_by length needs ≤ length assigned.now * (depth + 1)) }
    ensures twice { IfOk result (λ needs. sum_by length needs ≤ 2 * places_held assigned.now) }
{
    let spans = tree.spans();
    let mut joining = Joining::none(alloc, tree, assigned.len() as usize)?;
    for m in 1..assigned.len() + 1 {
        joining.join(spans, assigned, m)?;
    }
    Ok(joining.needs())
}

/// The needs that the messages of a trace are given are unique.
pub fn needs_are_one()
    ensures { (tree : List Node) (assigned : List Held) (needs other : List (List ℕ))
        → AreChosen tree assigned needs → AreChosen tree assigned other → needs ≡ other }
{}
