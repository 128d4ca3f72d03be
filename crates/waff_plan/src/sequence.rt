//! The messages of a plan one after another: by their numbers or by their starts.

ghost use Rattle.std.specs.Prelude.{◌≡◌, ◌<◌, ◌≤◌, ℕ, length, IfOk, IfSome, option_map};
ghost use Rattle.waff_model.specs.declared.limits.TheConstants.{MAX_MESSAGES};
ghost use Rattle.waff_plan.specs.ByStart.{AreByStart, started_at, walk_of};
ghost use Rattle.waff_plan.specs.Serving.{chain_key};
ghost use Rattle.waff_plan.specs.Timetable.{work_in, starts_in};
ghost use Rattle.waff_plan.specs.Timing.{start_of};
ghost use Rattle.waff_plan.specs.Work.{Work};

use crate::Plan;
use std::alloc::{AllocError, Global};

/// A message with its start.
#[derive(Clone, Copy)]
pub struct Started {
    pub start: u64,
    pub number: u32,
}

/// The messages of a plan, by their starts.
pub(crate) fn by_start(alloc: Global, plan: &Plan) -> Result<Vec<Started>, AllocError>
    ensures { IfOk result (λ started.
        AreByStart (work_in plan.now) (starts_in plan.now) started.items) }
{
    let _messages = plan.len();
    by_tick(alloc, plan.starts())
}

/// The messages with these ticks, that of message 1 first, by their ticks.
pub fn by_tick(alloc: Global, ticks: &[u64]) -> Result<Vec<Started>, AllocError>
    requires few { length ticks.now ≤ MAX_MESSAGES }
    ensures { IfOk result (λ started. (work : Work) → work.count ≡ length ticks.now
        → AreByStart work (start_of ticks.now) started.items) }
{
    let mut started = Vec::with_capacity(alloc, ticks.len())?;
    for n in 1..ticks.len() as u32 + 1 {
        let start = ticks[n as usize - 1];
        started.push(Started { start, number: n })?;
    }
    started.sort_unstable_by_key(|message| message.start);
    Ok(started)
}

/// The messages of a plan in the order of its chains: of clients by their starts. Others are by
/// number, and need no list.
pub(crate) fn in_order(alloc: Global, plan: &Plan) -> Result<Option<Vec<Started>>, AllocError>
    ensures order { IfOk result (λ started. AreByStart (work_in plan.now)
        (chain_key plan.now.version (starts_in plan.now))
        (walk_of (length plan.now.timings) (option_map (λ list. list.items) started))) }
{
    if plan.version().has_clients() {
        Ok(Some(by_start(alloc, plan)?))
    } else {
        Ok(None)
    }
}

/// The number of the message at a place, from 0.
pub(crate) fn number_at(started: &Option<Vec<Started>>, place: u32) -> u32
    requires few { place < MAX_MESSAGES }
    requires within { IfSome started.now (λ list. place < length list.items) }
    ensures { (count : ℕ) → place < count → result ≡ (started_at
        (walk_of count (option_map (λ list. list.items) started.now)) place).number }
{
    match started {
        Some(started) => started[place as usize].number,
        None => place + 1,
    }
}
