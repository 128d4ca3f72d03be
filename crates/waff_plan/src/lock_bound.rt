//! What messages need of a lock, in whatever order they run.

ghost use Rattle.std.specs.Prelude.{◌≡◌, ◌<◌, ◌≤◌, ◌^◌, ℕ, All, IfOk, length, true, slice_index_or};
ghost use Rattle.waff_assign.specs.Held.{AreLocksBelow, IsRising, using};
ghost use Rattle.waff_plan.specs.LockNeeds.{IsLockNeed, IsNeedWith, no_need};
ghost use Rattle.waff_plan.specs.LowerBound.{lock_cost, own_cost, uses_alone, uses_lock};
ghost use Rattle.waff_plan.specs.Peak.{IsPeak};
ghost use Rattle.waff_plan.specs.Planned.{planned_work};
ghost use Rattle.waff_plan.specs.Timetable.{work_in};
ghost use Rattle.waff_plan.specs.Work.{total_of};

use crate::lower_bound::own_costs;
use crate::peak::Peak;
use crate::{Plan, Planned};
use std::alloc::{AllocError, Global};
use waff_assign::{Case, LockUse, is_root};

/// What messages that do not run in the root need of a lock.
#[derive(Clone, Copy)]
struct LockNeed {
    /// The costs of those that use it alone.
    kept: u64,
    /// The greatest cost of one that shares it.
    shared: u64,
    /// Whether any message uses it.
    used: bool,
}

/// The greatest of what messages need of a lock, and the lock: the costs of those that use it alone or run in the root, and the greatest
/// cost of another that shares it.
pub fn longest_lock(alloc: Global, planned: &Planned<'_>) -> Result<Peak, AllocError>
    ensures { IfOk result (λ peak. (count : ℕ) × AreLocksBelow count planned.now.case.assigned.now
        × IsPeak (lock_cost planned.now.case.assigned.now (planned_work planned.now)) 0 count peak) }
{
    let case = &planned.case;
    let count = case.assigned.lock_count();
    if count == 0 {
        return Ok(Peak::none());
    }
    let _total = planned.plan.total();
    let needs = lock_needs(alloc, case, planned.plan, count)?;
    let costs = own_costs(alloc, case, planned.plan)?;
    let _affinities = case.tree.len();
    let in_root = costs[0];
    let mut longest = Peak::none();
    for lock in 0..count {
        let need = needs[lock as usize];
        let ticks = if need.used {
            in_root + need.kept + need.shared
        } else {
            0
        };
        longest = longest.or(lock, ticks);
    }
    Ok(longest)
}

/// What they need of each lock.
fn lock_needs(
    alloc: Global,
    case: &Case<'_>,
    plan: &Plan,
    count: u32,
) -> Result<Vec<LockNeed>, AllocError>
    requires lengths { length plan.now.timings ≡ length case.now.assigned.now }
    requires below { AreLocksBelow count case.now.assigned.now }
    ensures count { IfOk result (λ needs. length needs.items ≡ count) }
    ensures each { IfOk result (λ needs. (lock : ℕ) → lock < count
        → IsLockNeed case.now.assigned.now (work_in plan.now) (length case.now.assigned.now) lock
        (slice_index_or needs.items lock no_need)) }
{
    let none = LockNeed {
        kept: 0,
        shared: 0,
        used: false,
    };
    let mut needs = vec![in alloc; none; count as usize]?;
    for n in 1..plan.len() + 1 {
        let in_root = is_root(case.assigned.affinity(n));
        note_uses(&mut needs, case.assigned.uses(n), plan.cost(n), in_root);
    }
    Ok(needs)
}

/// Adds what a message needs that costs so much and uses these locks.
fn note_uses(needs: &mut Vec<LockNeed>, uses: &[LockUse], cost: u64, in_root: bool)
    requires below { All (λ u. u.lock < length needs.old.items) uses.now }
    requires rising { IsRising uses.now }
    requires cost { cost < 2 ^ 32 }
    requires small { (lock : ℕ) → lock < length needs.old.items
        → (slice_index_or needs.old.items lock no_need).kept < 2 ^ 62 }
    ensures count { length needs.new.items ≡ length needs.old.items }
    ensures each { (lock : ℕ) → lock < length needs.old.items
        → IsNeedWith in_root cost (uses_alone lock (using uses.now)) (uses_lock lock (using uses.now))
        (slice_index_or needs.old.items lock no_need) (slice_index_or needs.new.items lock no_need) }
{
    for p in 0..uses.len() {
        let LockUse { lock, alone } = uses[p];
        let need = needs[lock as usize];
        needs[lock as usize] = need_with(need, in_root, cost, alone);
    }
}

/// One need more of a lock.
fn need_with(need: LockNeed, in_root: bool, cost: u64, alone: bool) -> LockNeed
    requires small { need.kept < 2 ^ 63 }
    requires cost { cost < 2 ^ 32 }
    ensures { IsNeedWith in_root cost alone true need result }
{
    let mut with = LockNeed { used: true, ..need };
    if in_root {
        return with;
    }
    if alone {
        with.kept = need.kept + cost;
    } else {
        with.shared = need.shared.max(cost);
    }
    with
}
