//! What the messages of a plan waited for, but for what they follow.

ghost use Rattle.std.specs.Prelude.{◌≡◌, ◌<◌, ◌≤◌, true, length, All, IfOk, OnOk};
ghost use Rattle.waff_model.specs.Versions.{has_clients};
ghost use Rattle.waff_plan.specs.Obeys.{Obeys};
ghost use Rattle.waff_plan.specs.Planned.{planned_order, planned_pairs, planned_starts};
ghost use Rattle.waff_plan.specs.Planned.{planned_work};
ghost use Rattle.waff_plan.specs.Waited.{AreWaitedFor};

use crate::Planned;
use crate::waits::{Since, waits};
use std::alloc::{AllocError, Global};
use waff_model::limits::MAX_MESSAGES;

/// For each message the latest of those that exclude it and are served before it, where that one
/// finishes after the issue of the message. What its client does counts in the issue alone. A plan of a
/// trace with clients has to obey.
pub fn waited(alloc: Global, planned: &Planned<'_>) -> Result<Vec<Option<u32>>, AllocError>
    requires served { has_clients planned.now.plan.now.version ≡ true
        → Obeys (planned_order planned.now) (planned_work planned.now) (planned_starts planned.now) }
    ensures count { IfOk result (λ waited.
        length waited.items ≡ (planned_work planned.now).count) }
    ensures few { OnOk result ((planned_work planned.now).count ≤ MAX_MESSAGES) }
    ensures waited { IfOk result (λ waited. AreWaitedFor (planned_pairs planned.now)
        (planned_work planned.now) (planned_starts planned.now)
        (planned_work planned.now).count waited.items) }
{
    let (case, plan) = (&planned.case, planned.plan);
    let _messages = plan.len();
    waits(alloc, case.tree, case.assigned, plan, Since::Issue)
}
