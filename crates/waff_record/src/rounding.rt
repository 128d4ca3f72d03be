//! The rounding of the turns of a run, whose times are nanoseconds, to ticks.

ghost use Rattle.std.specs.Prelude.{◌≡◌, ◌≤◌, ◌<◌, ◌+◌, ◌-◌, ◌/◌, max, length, map, replicate, slice_index};
ghost use Rattle.std.specs.Prelude.{IfOk, IfSome, MatchOption};
ghost use Rattle.waff_model.specs.Numbers.{IsAmongFirst};
ghost use Rattle.waff_model.specs.declared.limits.TheConstants.{MAX_COST, MAX_MESSAGES};
ghost use Rattle.waff_plan.specs.ByStart.{started_at};
ghost use Rattle.waff_record.specs.Begun.{IsBegun};
ghost use Rattle.waff_record.specs.Ran.{AreTimingsOf, HasRun, IsTimely, IsToldOf};
ghost use Rattle.waff_record.specs.Turns.{turn_at};
ghost use Rattle.waff_record.specs.declared.rounding.TheConstants.{MAX_RUN};

use crate::fault::RecordError;
use crate::turns::RunTurns;
use std::alloc::{AllocError, Global};
use waff_line::Turn;
use waff_model::limits::{MAX_COST, MAX_TICK, MAX_WORKERS};
use waff_plan::{Latest, Plan, Started, Table, by_tick};

/// The greatest tick at which a message may be told to finish: the plan of the costs that are told has no later one by
/// any number of workers.
pub(crate) const MAX_RUN: u64 = MAX_TICK / MAX_WORKERS as u64;

/// What is told of a message, in ticks.
#[derive(Clone, Copy)]
struct ToldTurn {
    start: u64,
    finish: u64,
    cost: u32,
}

/// The plan that is told of a run. The messages are taken in the order in which they began. The fault of one that would
/// finish too late, or run for too long, by what is told.
pub fn rounded(alloc: Global, run: &RunTurns<'_>) -> Result<Plan, RecordError>
    requires ran { HasRun run.now }
    ensures version { IfOk result (λ plan. plan.version ≡ run.now.case.trace.now.version) }
    ensures told { IfOk result (IsToldOf run.now) }
    ensures timings { IfOk result (λ plan. AreTimingsOf run.now.case.trace.now.messages plan.timings) }
    ensures timely { IfOk result IsTimely }
{
    let mut plan = Plan::unstarted(alloc, run.case.trace)?;
    let count = plan.len();
    let began = by_begin(alloc, run.turns)?;
    let mut table = Table::new(alloc, run.case.tree, run.case.assigned)?;
    let mut free = no_seats(alloc, run.workers)?;
    for place in 0..count {
        let m = number_at(&began, place);
        let turn = turn_at(run.turns, m);
        let issue = plan.issue(m);
        let rest = free_from(&free, turn.worker);
        let latest = table.latest(m);
        let Some(told) = told_of(turn, run.tick, issue, rest, latest) else {
            return Err(RecordError::Tick(m));
        };
        plan.set_turn(m, told.start, told.cost);
        free[turn.worker as usize - 1] = told.finish;
        let finish = told.finish;
        table.note(Latest { finish, number: m });
    }
    Ok(plan)
}

/// The messages in the order in which they began.
fn by_begin(alloc: Global, turns: &[Turn]) -> Result<Vec<Started>, AllocError>
    requires few { length turns.now ≤ MAX_MESSAGES }
    ensures { IfOk result (IsBegun turns.now) }
{
    let starts = starts_of(alloc, turns)?;
    by_tick(alloc, starts.as_slice())
}

/// The starts of turns.
fn starts_of(alloc: Global, turns: &[Turn]) -> Result<Vec<u64>, AllocError>
    ensures { IfOk result (λ starts. starts.items ≡ map (λ turn. turn.start) turns.now) }
{
    turns.iter().map(|turn| turn.start).collect(alloc)
}

/// All workers are free from tick 0 on.
fn no_seats(alloc: Global, workers: u32) -> Result<Vec<u64>, AllocError>
    ensures { IfOk result (λ free. free.items ≡ replicate workers 0) }
{
    vec![in alloc; 0; workers as usize]
}

/// The number of the message at a place, from 0.
fn number_at(began: &Vec<Started>, place: u32) -> u32
    requires within { place < length began.now.items }
    ensures { result ≡ (started_at began.now.items place).number }
{
    began[place as usize].number
}

/// The turn of message `m`.
fn turn_at<'a>(turns: &'a [Turn], m: u32) -> &'a Turn
    requires number { IsAmongFirst (length turns.now) m }
    ensures { result.now ≡ turn_at turns.now m }
{
    &turns[m as usize - 1]
}

/// The tick from which on a worker is free.
fn free_from(free: &Vec<u64>, worker: u32) -> u64
    requires worker { IsAmongFirst (length free.now.items) worker }
    ensures { result ≡ slice_index free.now.items (worker - 1) }
{
    free[worker as usize - 1]
}

/// What is told of a turn of a message that is issued at this tick, whose worker is free from a tick on, after the latest of
/// those that exclude it and began before it. None where it finishes too late, or runs for too long.
fn told_of(
    turn: &Turn,
    tick: u32,
    issue: u64,
    free: u64,
    latest: Option<Latest>,
) -> Option<ToldTurn>
    requires tick { 1 ≤ tick }
    ensures start { IfSome result (λ told. MatchOption latest
        (told.start ≡ max (turn.now.start / tick) (max issue free))
        (λ l. told.start ≡ max (max (turn.now.start / tick) (max issue free)) l.finish)) }
    ensures finish { IfSome result (λ told.
        told.finish ≡ max (turn.now.finish / tick) (told.start + 1)) }
    ensures cost { IfSome result (λ told. told.start + told.cost ≡ told.finish) }
    ensures early { IfSome result (λ told. told.finish ≤ MAX_RUN) }
    ensures some { IfSome result (λ told. 1 ≤ told.cost) }
    ensures short { IfSome result (λ told. told.cost ≤ MAX_COST) }
{
    let begun = (turn.start / u64::from(tick)).max(issue.max(free));
    let start = match latest {
        Some(latest) => begun.max(latest.finish),
        None => begun,
    };
    if start >= MAX_RUN {
        return None;
    }
    let finish = (turn.finish / u64::from(tick)).max(start + 1);
    let cost = finish - start;
    if finish > MAX_RUN || cost > u64::from(MAX_COST) {
        return None;
    }
    Some(ToldTurn {
        start,
        finish,
        cost: cost as u32,
    })
}
