//! Percentiles.

ghost use Rattle.std.specs.Prelude.{◌^◌, ◌<◌, ◌≤◌, ℕ, List, length};
ghost use Rattle.std.specs.List.Sorted.{IsNonDecreasing};
ghost use Rattle.waff_model.specs.Unique.{AtMostOne};
ghost use Rattle.waff_figures.specs.Percentile.{IsPercentile};

/// The least number such that at least `percent` of 100 of these numbers are at most that, 0 where
/// there are none. The numbers are in order.
pub(crate) fn percentile(sorted: &[u64], percent: usize) -> u64
    requires sorted { IsNonDecreasing sorted.now }
    requires few { length sorted.now < 2 ^ 32 }
    requires from { 1 ≤ percent }
    requires to { percent ≤ 100 }
    ensures { IsPercentile percent sorted.now result }
{
    let count = sorted.len();
    if count == 0 {
        return 0;
    }
    let covered = (count * percent).div_ceil(100);
    sorted[covered - 1]
}

/// Two percentiles of the same numbers are equal: a function that does nothing and whose contract
/// is the law.
pub fn percentile_is_one()
    ensures equal { (p : ℕ) (numbers : List ℕ) → AtMostOne (IsPercentile p numbers) }
{}
