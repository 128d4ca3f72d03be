//! Jumps up the tree of affinities, which make a long way up a short one.

ghost use Rattle.std.specs.Prelude.{◌≡◌, ◌<◌, ◌≤◌, ◌≢◌, IfOk, Some, length};
ghost use Rattle.waff_model.specs.Tree.{AtOrAbove, parent_of};
ghost use Rattle.waff_limits.specs.Jumps.{AreJumps, AreJumpsTo, IsJump};

use std::alloc::{AllocError, Global};
use waff_model::{AffinityId, Tree};

/// A jump from an affinity up to one at or above it.
#[derive(Clone, Copy)]
pub(crate) struct Jump {
    /// The number of the affinity to which it leads.
    to: u16,
    /// So many steps from child to parent lead there.
    steps: u16,
}

/// A jump from each affinity, by its number. Of the jumps along a way up the tree few are short, so that a way of n steps takes no more
/// than some 4 * log2(n) jumps and steps.
pub(crate) fn jumps(alloc: Global, tree: &Tree) -> Result<Vec<Jump>, AllocError>
    ensures { IfOk result (λ jumps. AreJumps tree.now jumps.items) }
{
    let count = tree.len();
    let mut jumps = Vec::with_capacity(alloc, count as usize)?;
    for b in 0..count {
        let jump = jump_of(tree, jumps.as_slice(), AffinityId(b as u16));
        jumps.push_reserved(jump);
    }
    Ok(jumps)
}

/// The jump from an affinity, where those before it have theirs: where two jumps of as many steps follow each other from its parent,
/// both of them and the step to the parent.
fn jump_of(tree: &Tree, jumps: &[Jump], affinity: AffinityId) -> Jump
    requires known { affinity.0 < length tree.now }
    requires before { AreJumpsTo tree.now jumps.now affinity.0 }
    ensures { IsJump tree.now result affinity.0 }
{
    // Its contract tells `IsTree`.
    let _ = tree.len();
    let Some(parent) = tree.parent(affinity) else {
        return Jump {
            to: affinity.0,
            steps: 0,
        };
    };
    let one = jumps[parent.0 as usize];
    let two = jumps[one.to as usize];
    if one.steps == two.steps {
        Jump {
            to: two.to,
            steps: one.steps + two.steps + 1,
        }
    } else {
        Jump {
            to: parent.0,
            steps: 1,
        }
    }
}

/// The affinity next below `above` on the way to one that is below it.
pub(crate) fn next_below(
    tree: &Tree,
    jumps: &[Jump],
    above: AffinityId,
    affinity: AffinityId,
) -> AffinityId
    requires jumps { AreJumps tree.now jumps.now }
    requires known { affinity.0 < length tree.now }
    requires above { AtOrAbove tree.now above.0 affinity.0 }
    requires below { above.0 ≢ affinity.0 }
    ensures next { parent_of tree.now result.0 ≡ Some above.0 }
    ensures above { AtOrAbove tree.now result.0 affinity.0 }
    ensures within { result.0 < length tree.now }
{
    // Its contract tells `IsTree`.
    let _ = tree.len();
    let mut at = affinity;
    while let Some(parent) = tree.parent(at) {
        if parent == above {
            return at;
        }
        at = jump_below(tree, jumps, above, parent);
    }
    unreachable!("the way up from what is below leads there")
}

/// Where the jump from an affinity below `above` leads, if it is still below; else the affinity.
fn jump_below(tree: &Tree, jumps: &[Jump], above: AffinityId, from: AffinityId) -> AffinityId
    requires jumps { AreJumps tree.now jumps.now }
    requires known { from.0 < length tree.now }
    requires above { AtOrAbove tree.now above.0 from.0 }
    requires below { above.0 ≢ from.0 }
    ensures way { AtOrAbove tree.now result.0 from.0 }
    ensures above { AtOrAbove tree.now above.0 result.0 }
    ensures below { above.0 ≢ result.0 }
    ensures within { result.0 ≤ from.0 }
{
    // Its contract tells `IsTree`.
    let _ = tree.len();
    let to = AffinityId(jumps[from.0 as usize].to);
    if to != above && tree.at_or_above(above, to) {
        to
    } else {
        from
    }
}
