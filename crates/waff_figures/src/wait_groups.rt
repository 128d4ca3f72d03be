//! The messages that are told of together.

ghost use Rattle.std.specs.Prelude.{◌≡◌, ◌-◌, ℕ, IfOk, length, map, slice_index};
ghost use Rattle.std.specs.List.{range_with_len};
ghost use Rattle.waff_assign.specs.Order.{held_of, number_or};
ghost use Rattle.waff_plan.specs.Work.{IsAmongFirst};
ghost use Rattle.waff_figures.specs.ByName.{message_names};
ghost use Rattle.waff_figures.specs.WaitRows.{same_group};
ghost use Rattle.waff_figures.specs.WaitText.{are_alike};

use crate::grouping::{Grouping, Label};
use crate::names::names_of;
use crate::wait_rows::Group;
use std::alloc::{AllocError, Global};
use waff_assign::{Assigned, Case};

/// The group of each message: those of one affinity are together, by name those of one name and
/// one affinity.
pub fn groups(alloc: Global, case: &Case<'_>, grouping: Grouping) -> Result<Vec<Group>, AllocError>
    ensures count { IfOk result (λ groups. length groups.items ≡ length case.now.assigned.now) }
    ensures tell { IfOk result (λ groups. (m n : ℕ)
        → IsAmongFirst (length case.now.assigned.now) m
        → IsAmongFirst (length case.now.assigned.now) n
        → same_group groups.items m n ≡ are_alike grouping case.now.assigned.now
        (message_names case.now.trace.now.messages) m n) }
{
    match grouping {
        Grouping::Affinity => affinity_groups(alloc, case.assigned, case.tree.len()),
        Grouping::Name => {
            let found = names_of(alloc, case.trace, Label::Name)?;
            numbered_groups(
                alloc,
                case.assigned,
                found.places.as_slice(),
                case.tree.len(),
            )
        }
    }
}

/// The groups of messages by their affinities.
fn affinity_groups(alloc: Global, assigned: &Assigned, none: u32) -> Result<Vec<Group>, AllocError>
    ensures { IfOk result (λ groups. groups.items
        ≡ map (λ m. (0, number_or none (held_of assigned.now m))) (range_with_len 1 (length assigned.now))) }
{
    let mut groups = Vec::with_capacity(alloc, assigned.len() as usize)?;
    for n in 1..assigned.len() + 1 {
        groups.push((0, assigned.number(n, none)))?;
    }
    Ok(groups)
}

/// The groups of messages by these numbers and their affinities.
fn numbered_groups(
    alloc: Global,
    assigned: &Assigned,
    numbers: &[u32],
    none: u32,
) -> Result<Vec<Group>, AllocError>
    requires lengths { length numbers.now ≡ length assigned.now }
    ensures { IfOk result (λ groups. groups.items
        ≡ map (λ m. (slice_index numbers.now (m - 1), number_or none (held_of assigned.now m)))
        (range_with_len 1 (length assigned.now))) }
{
    let mut groups = Vec::with_capacity(alloc, assigned.len() as usize)?;
    for n in 1..assigned.len() + 1 {
        groups.push((numbers[n as usize - 1], assigned.number(n, none)))?;
    }
    Ok(groups)
}
