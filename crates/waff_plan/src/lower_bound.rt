//! A lower bound on the length of plans that obey in whatever order.

ghost use Rattle.std.specs.Prelude.{◌≡◌, ◌+◌, ◌-◌, ◌^◌, ◌<◌, ◌≤◌, ℕ, List, Option, All, IfOk, IfSome, length, map, max};
ghost use Rattle.std.specs.Prelude.{slice_index_or};
ghost use Rattle.std.specs.List.{range_with_len};
ghost use Rattle.waff_model.specs.Tree.{Node};
ghost use Rattle.waff_model.specs.declared.limits.TheConstants.{MAX_THINK};
ghost use Rattle.waff_plan.specs.Bound.{IsWorkers};
ghost use Rattle.waff_plan.specs.Planned.{planned_work};
ghost use Rattle.waff_plan.specs.Timetable.{work_in};
ghost use Rattle.waff_plan.specs.Timing.{work_by};
ghost use Rattle.waff_plan.specs.Work.{IsAmongFirst, IsAwaited, IsNumber, Work, greatest, issue_after, numbers, total_of};
ghost use Rattle.waff_plan.specs.LowerBound.{earliest_finish, lower_bound_of, own_cost, path_cost};
ghost use Rattle.waff_plan.specs.LowerBound.{NoneIsBelow, share_in};
ghost use Rattle.waff_plan.specs.Peak.{IsPeak};
ghost use Rattle.waff_plan.specs.TreeStarts.{TreeIsReached};
ghost use Rattle.waff_assign.specs.Held.{Held};

use crate::lock_bound::longest_lock;
use crate::peak::Peak;
use crate::{Awaited, Plan, Planned};
use std::alloc::{AllocError, Global};
use waff_assign::Case;
use waff_model::{AffinityId, Await};

/// No plan that obeys is shorter than the lower bound, in whatever order it serves.
pub fn none_is_below()
    ensures { (workers : Option ℕ) (tree : List Node) (assigned : List Held) (work : Work)
        → NoneIsBelow workers tree assigned work }
{}

/// The costs on the longest path of affinities are reached, in some order.
pub fn tree_is_reached()
    ensures { (tree : List Node) (assigned : List Held) (work : Work)
        → TreeIsReached tree assigned work }
{}

/// The lower bound for the messages of a plan, for these workers or none: the greatest of a worker's
/// share of all costs, of what messages that await one another need, of the costs on a path of
/// affinities, and of what messages need of a lock. The starts of the plan count for nothing.
pub fn lower_bound(
    alloc: Global,
    planned: &Planned<'_>,
    workers: Option<u32>,
) -> Result<u64, AllocError>
    requires { IfSome workers IsWorkers }
    ensures { IfOk result (λ bound. bound ≡ lower_bound_of workers planned.now.case.tree.now
        planned.now.case.assigned.now (planned_work planned.now)) }
{
    let share = share(planned.plan.total(), workers);
    let awaiting = longest_awaiting(alloc, planned.plan, Awaited::Every)?;
    let paths = longest_path(alloc, planned)?;
    let locks = longest_lock(alloc, planned)?;
    Ok(share.max(awaiting.ticks.max(paths.ticks.max(locks.ticks))))
}

// The share of one of the workers, rounded up; 0 where there are none.
fn share(total: u64, workers: Option<u32>) -> u64
    requires known { IfSome workers IsWorkers }
    requires small { total ≤ 2 ^ 52 }
    ensures { result ≡ share_in workers total }
{
    match workers {
        None => 0,
        Some(k) => {
            let k = u64::from(k);
            total / k + (total % k).min(1)
        }
    }
}

/// The greatest finish of a message where each waits for nothing but what it awaits, by its client alone or by
/// its list too, and the message.
pub fn longest_awaiting(alloc: Global, plan: &Plan, awaited: Awaited) -> Result<Peak, AllocError>
    ensures { IfOk result (IsPeak (earliest_finish (work_by awaited plan.now.timings)) 1
        (length plan.now.timings)) }
{
    let mut finishes = Vec::with_capacity(alloc, plan.len() as usize)?;
    let mut longest = Peak::none();
    for n in 1..plan.len() + 1 {
        let finish = earliest(plan, awaited, &finishes, n);
        finishes.push(finish)?;
        longest = longest.or(n, finish);
    }
    Ok(longest)
}

// The finish of message `n` where it waits for nothing but what it awaits, by those of the messages before it.
fn earliest(plan: &Plan, awaited: Awaited, finishes: &[u64], n: u32) -> u64
    requires number { IsNumber (work_in plan.now) n }
    requires finishes { finishes.now ≡ map (earliest_finish (work_by awaited plan.now.timings))
        (range_with_len 1 (length finishes.now)) }
    requires before { length finishes.now + 1 ≡ n }
    ensures { result ≡ earliest_finish (work_by awaited plan.now.timings) n }
{
    let _messages = plan.len();
    let listed = match awaited {
        Awaited::Client => plan.release(n),
        Awaited::Every => issue_behind(finishes, plan.release(n), plan.after(n)),
    };
    let before = plan.follows(n);
    let issue = if before == 0 {
        listed
    } else {
        listed.max(finishes[before as usize - 1] + plan.think(n))
    };
    issue + plan.cost(n)
}

// The issue of a message of this floor that awaits these, where messages finish at these ticks.
fn issue_behind(finishes: &[u64], floor: u64, after: &[Await]) -> u64
    requires known { (i : ℕ) → IsAwaited after.now i → IsAmongFirst (length finishes.now) i }
    requires early { All (λ finish. finish ≤ 2 ^ 46) finishes.now }
    requires gaps { All (λ a. a.gap ≤ MAX_THINK) after.now }
    ensures issue { result
        ≡ issue_after (λ i. slice_index_or finishes.now (i - 1) 0) floor after.now }
    ensures early { result ≤ max floor (2 ^ 47) }
{
    let mut issue = floor;
    for k in (0..after.len()).rev() {
        let Await { message, gap } = after[k];
        issue = issue.max(finishes[message as usize - 1] + u64::from(gap));
    }
    issue
}

/// The greatest sum of the costs of the messages in an affinity and above it, and the affinity.
pub fn longest_path(alloc: Global, planned: &Planned<'_>) -> Result<Peak, AllocError>
    ensures { IfOk result (IsPeak (path_cost planned.now.case.tree.now
        planned.now.case.assigned.now (planned_work planned.now))
        0 (length planned.now.case.tree.now)) }
{
    let case = &planned.case;
    let _total = planned.plan.total();
    let _affinities = case.tree.len();
    let mut costs = own_costs(alloc, case, planned.plan)?;
    let mut longest = Peak::none();
    for a in 0..costs.len() {
        let above = match case.tree.parent(AffinityId(a as u16)) {
            Some(parent) => costs[parent.0 as usize],
            None => 0,
        };
        let cost = costs[a] + above;
        costs[a] = cost;
        longest = longest.or(a as u32, cost);
    }
    Ok(longest)
}

// The sum of the costs in each affinity.
pub(crate) fn own_costs(alloc: Global, case: &Case<'_>, plan: &Plan) -> Result<Vec<u64>, AllocError>
    requires lengths { length plan.now.timings ≡ length case.now.assigned.now }
    ensures count { IfOk result (λ costs. length costs.items ≡ length case.now.tree.now) }
    ensures each { IfOk result (λ costs. (a : ℕ) → a < length case.now.tree.now
        → slice_index_or costs.items a 0 ≡ own_cost case.now.assigned.now (work_in plan.now) a) }
{
    let mut costs = vec![in alloc; 0; case.tree.len() as usize]?;
    for n in 1..plan.len() + 1 {
        if let Some(affinity) = case.assigned.affinity(n) {
            let a = affinity.0 as usize;
            costs[a] = costs[a] + plan.cost(n);
        }
    }
    Ok(costs)
}
