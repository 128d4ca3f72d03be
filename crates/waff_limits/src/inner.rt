//! Affinities below which others lie.

ghost use Rattle.std.specs.Prelude.{IfOk};
ghost use Rattle.waff_limits.specs.Lifted.{AreInner};

use std::alloc::{AllocError, Global};
use waff_model::{AffinityId, Tree};

/// Of each affinity, by its number, whether others lie below it.
pub(crate) fn inner(alloc: Global, tree: &Tree) -> Result<Vec<bool>, AllocError>
    ensures { IfOk result (λ inner. AreInner tree.now inner.items) }
{
    let count = tree.len();
    let mut inner = vec![in alloc; false; count as usize]?;
    for b in 0..count {
        match tree.parent(AffinityId(b as u16)) {
            Some(parent) => inner[parent.0 as usize] = true,
            None => {}
        }
    }
    Ok(inner)
}
