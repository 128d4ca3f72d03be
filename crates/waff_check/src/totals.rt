//! The totals of a summary.

ghost use Rattle.std.specs.Prelude.{◌↔◌, IsTrue};
ghost use Rattle.waff_plan.specs.Planned.{planned_starts, planned_work};
ghost use Rattle.waff_check.specs.Faults.{HasTotals};

use crate::claim::Claim;

/// Whether the totals that a summary tells are those of the plan and of the summary's chain.
pub(crate) fn has_totals(claim: &Claim<'_>) -> bool
    ensures { IsTrue result ↔ HasTotals (planned_work claim.now.planned)
        (planned_starts claim.now.planned) claim.now.given.now.summary }
{
    let summary = claim.given.summary();
    summary.totals == claim.planned.plan.totals(summary.workers, &summary.chain)
}
