//! The lanes of messages that have no affinity.

ghost use Rattle.std.specs.Prelude.{◌≡◌, ◌≤◌, ◌+◌, ◌<◌, ℕ, All, IfOk, length, slice_index};
ghost use Rattle.std.specs.BTreeMap.{values};
ghost use Rattle.waff_plan.specs.Timetable.{starts_in, work_in};
ghost use Rattle.waff_plan.specs.Work.{IsAmongFirst, finish_of};
ghost use Rattle.waff_draw.specs.Loose.{first_free, lanes_over, loose_lanes, loose_order};

use std::alloc::{AllocError, Global};
use std::collections::BTreeMap;
use waff_assign::Case;
use waff_plan::Plan;

/// How many lanes there are at most.
const LANES: usize = 64;

/// The tick from which each lane is free, and by their numbers which lane messages have: none where all messages have
/// affinities.
#[derive(Drop)]
pub(crate) struct LooseLanes {
    pub ends: Vec<u64>,
    pub places: Vec<u32>,
}

/// The lanes of the messages that have no affinity, in a plan.
#[tactic(auto, unfolding(crate::specs::Loose::loose_lanes))]
pub(crate) fn loose_lanes(
    alloc: Global,
    case: &Case<'_>,
    plan: &Plan,
) -> Result<LooseLanes, AllocError>
    requires lengths { length plan.now.timings ≡ length case.now.assigned.now }
    ensures ends { IfOk result (λ made. made.ends.items ≡ (loose_lanes case.now.assigned.now
        (starts_in plan.now) (finish_of (work_in plan.now) (starts_in plan.now))).ends) }
    ensures places { IfOk result (λ made. (n : ℕ) → slice_index made.places.items n
        ≡ slice_index (loose_lanes case.now.assigned.now
        (starts_in plan.now) (finish_of (work_in plan.now) (starts_in plan.now))).places n) }
    ensures few { IfOk result (λ made. length made.ends.items ≤ 64) }
{
    if case.assigned.is_unlocked() {
        return Ok(LooseLanes {
            ends: Vec::new(alloc),
            places: Vec::new(alloc),
        });
    }
    let by_start = by_start(alloc, case, plan)?;
    let order: Vec<u32> = by_start.into_values().collect(alloc)?;
    let lanes = placed(alloc, plan, order.as_slice());
    drop(order);
    lanes
}

/// The messages that have no affinity, by their starts, then by their numbers.
fn by_start(alloc: Global, case: &Case<'_>, plan: &Plan) -> Result<BTreeMap<u128, u32>, AllocError>
    requires lengths { length plan.now.timings ≡ length case.now.assigned.now }
    ensures order { IfOk result (λ map. values map
        ≡ loose_order case.now.assigned.now (starts_in plan.now)) }
    ensures known { IfOk result (λ map.
        All (IsAmongFirst (length plan.now.timings)) (values map)) }
{
    let mut found = BTreeMap::new(alloc);
    for n in 1..plan.len() + 1 {
        if case.assigned.affinity(n).is_none() {
            let key = u128::from(plan.start(n)) * 4_294_967_296 + u128::from(n);
            found.insert(key, n)?;
        }
    }
    Ok(found)
}

/// The lanes of these messages, which take them in this order.
fn placed(alloc: Global, plan: &Plan, order: &[u32]) -> Result<LooseLanes, AllocError>
    requires known { All (IsAmongFirst (length plan.now.timings)) order.now }
    ensures ends { IfOk result (λ made. made.ends.items ≡ (lanes_over (starts_in plan.now)
        (finish_of (work_in plan.now) (starts_in plan.now)) (length plan.now.timings) order.now).ends) }
    ensures places { IfOk result (λ made. made.places.items ≡ (lanes_over (starts_in plan.now)
        (finish_of (work_in plan.now) (starts_in plan.now)) (length plan.now.timings) order.now).places) }
    ensures few { IfOk result (λ made. length made.ends.items ≤ 64) }
{
    let mut ends = Vec::new(alloc);
    let mut places = vec![in alloc; 0; plan.len() as usize + 1]?;
    for n in order {
        let (start, finish) = (plan.start(*n), plan.finish(*n));
        let lane = first_free(start, &ends).min(LANES - 1);
        if lane < ends.len() {
            ends[lane] = finish.max(ends[lane]);
        } else {
            ends.push(finish)?;
        }
        places[*n as usize] = lane as u32;
    }
    Ok(LooseLanes { ends, places })
}

/// The first lane that is free at a tick, and where none is how many there are.
fn first_free(tick: u64, ends: &[u64]) -> usize
    ensures { result ≡ first_free tick ends.now }
{
    for lane in 0..ends.len() {
        if ends[lane] <= tick {
            return lane;
        }
    }
    ends.len()
}
