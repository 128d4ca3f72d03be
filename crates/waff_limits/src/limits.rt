//! What limits a workload.

ghost use Rattle.std.specs.Prelude.{◌≡◌, IfOk};
ghost use Rattle.waff_assign.specs.Case.{instance_of};
ghost use Rattle.waff_plan.specs.Planned.{planned_starts};
ghost use Rattle.waff_assign.specs.Lowest.{IsAssignment};
ghost use Rattle.waff_model.specs.Messages.{sizes_of};
ghost use Rattle.waff_limits.specs.Limits.{AreLimits};

use crate::data::CellUse;
use crate::locks::most_locked_cell;
use crate::writes::{most_needed_cell, most_written_cell};
use std::alloc::{AllocError, Global};
use waff_model::Layout;
use waff_plan::lower_bound::{longest_awaiting, longest_path};
use waff_plan::{Awaited, Peak, Planned};

/// What limits a workload, in ticks, whatever the number of workers.
#[derive(Clone, Copy)]
pub struct Limits {
    /// The sum of all costs.
    pub total: u64,
    /// The greatest finish of a message that waits for its client alone, and the message.
    pub client: Peak,
    /// The greatest finish of a message that waits for its client and its list alone, and the message.
    pub after: Peak,
    /// The cell that is needed longest where those that only read it share it, none for no message.
    pub writes: Option<CellUse>,
    /// The cell that is needed longest, none for no message: where its space has shared locks those that only read it share it.
    pub cell: Option<CellUse>,
    /// The greatest sum of the costs of the messages in an affinity and above it, and the affinity.
    pub path: Peak,
    /// The cell whose lock is needed longest, by those that use it or run in the root; none where no message uses a lock.
    pub locks: Option<CellUse>,
    /// The length of the unlimited plan.
    pub order: u64,
}

/// What limits the messages of a case over this layout, of which this is the unlimited plan.
pub fn limits_of(
    alloc: Global,
    layout: &Layout,
    unlimited: &Planned<'_>,
) -> Result<Limits, AllocError>
    requires fits { unlimited.now.case.trace.now.sizes ≡ sizes_of layout.now.spaces }
    requires assignment { IsAssignment layout.now unlimited.now.case.trace.now.messages
        unlimited.now.case.assigned.now }
    ensures { IfOk result (AreLimits layout.now.spaces (instance_of unlimited.now.case)
        (planned_starts unlimited.now)) }
{
    let client = longest_awaiting(alloc, unlimited.plan, Awaited::Client)?;
    let after = longest_awaiting(alloc, unlimited.plan, Awaited::Every)?;
    let writes = most_written_cell(alloc, unlimited.case.trace)?;
    let cell = most_needed_cell(alloc, layout, unlimited.case.trace)?;
    let path = longest_path(alloc, unlimited)?;
    let locks = most_locked_cell(alloc, layout, unlimited)?;
    Ok(Limits {
        total: unlimited.plan.total(),
        client,
        after,
        writes,
        cell,
        path,
        locks,
        order: unlimited.plan.length(),
    })
}
