//! The lock that messages need longest.

ghost use Rattle.std.specs.Prelude.{◌≡◌, IfOk};
ghost use Rattle.waff_model.specs.Messages.{sizes_of};
ghost use Rattle.waff_assign.specs.Lowest.{IsAssignment};
ghost use Rattle.waff_limits.specs.Data.{IsMostOf};
ghost use Rattle.waff_limits.specs.Locks.{ticks_locked};

use crate::data::CellUse;
use std::alloc::{AllocError, Global};
use waff_assign::lock_cells;
use waff_model::Layout;
use waff_plan::Planned;
use waff_plan::lock_bound::longest_lock;

/// The cell whose lock messages need for the most ticks, of several the first; none where no message uses a lock. Those that run in the
/// root need every lock alone.
pub fn most_locked_cell(
    alloc: Global,
    layout: &Layout,
    planned: &Planned<'_>,
) -> Result<Option<CellUse>, AllocError>
    requires fits { planned.now.case.trace.now.sizes ≡ sizes_of layout.now.spaces }
    requires assignment { IsAssignment layout.now planned.now.case.trace.now.messages
        planned.now.case.assigned.now }
    ensures { IfOk result (IsMostOf (ticks_locked layout.now.spaces
        planned.now.case.trace.now.messages planned.now.case.assigned.now)) }
{
    let longest = longest_lock(alloc, planned)?;
    if longest.ticks == 0 {
        return Ok(None);
    }
    let cells = lock_cells(alloc, layout, planned.case.trace)?;
    let cell = cells[longest.at as usize];
    drop(cells);
    Ok(Some(CellUse {
        cell,
        ticks: longest.ticks,
    }))
}
