//! Numbers summed up a tree.

ghost use Rattle.std.specs.Prelude.{◌≡◌, ◌^◌, ◌<◌, ℕ, IfOk, length, map, slice_index, sum_by};
ghost use Rattle.waff_figures.specs.Below.{IsSumBelow};

use crate::tally::Tally;
use std::alloc::{AllocError, Global};
use waff_model::{AffinityId, Tree};

/// For each affinity the sum of its cost and those of all below it, by the tallies of the
/// affinities.
pub(crate) fn costs_below(
    alloc: Global,
    tree: &Tree,
    tallies: &[Tally],
) -> Result<Vec<u64>, AllocError>
    requires lengths { length tallies.now ≡ length tree.now }
    requires small { sum_by (λ tally. tally.cost) tallies.now < 2 ^ 64 }
    ensures count { IfOk result (λ below. length below.items ≡ length tree.now) }
    ensures below { IfOk result (λ below. (a : ℕ) → a < length tree.now
        → IsSumBelow tree.now (map (λ tally. tally.cost) tallies.now) a
        (slice_index below.items a)) }
{
    let mut sums = costs(alloc, tallies)?;
    sum_up(tree, &mut sums);
    Ok(sums)
}

fn costs(alloc: Global, tallies: &[Tally]) -> Result<Vec<u64>, AllocError>
    ensures { IfOk result (λ costs. costs.items ≡ map (λ tally. tally.cost) tallies.now) }
{
    tallies.iter().map(|tally| tally.cost).collect(alloc)
}

/// Adds to each affinity, from the last to the first, what is below it: children come after their
/// parents.
fn sum_up(tree: &Tree, sums: &mut [u64])
    requires lengths { length sums.old ≡ length tree.now }
    requires small { sum_by (λ n. n) sums.old < 2 ^ 64 }
    ensures count { length sums.new ≡ length tree.now }
    ensures below { (a : ℕ) → a < length tree.now
        → IsSumBelow tree.now sums.old a (slice_index sums.new a) }
{
    for a in (0..tree.len()).rev() {
        if let Some(parent) = tree.parent(AffinityId(a as u16)) {
            sums[parent.0 as usize] += sums[a as usize];
        }
    }
}
