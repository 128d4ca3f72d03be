//! What is left of a run that was stopped: the messages that had ended by then.

ghost use Rattle.std.specs.Prelude.{◌≡◌, ◌<◌, ◌≤◌, ◌+◌, ◌-◌, ◌*◌, IfOk, IsTrue, Ok, OnOk, ◌↔◌, length};
ghost use Rattle.waff_inputs.specs.Known.{trace_of};
ghost use Rattle.waff_model.specs.Numbers.{IsAmongFirst};
ghost use Rattle.waff_model.specs.declared.limits.TheConstants.{MAX_COST, MAX_MESSAGES};
ghost use Rattle.waff_plan.specs.Bound.{IsWorkers};
ghost use Rattle.waff_read.specs.Hierarchies.{hierarchy_of};
ghost use Rattle.waff_record.specs.Left.{AreLeft, AreLeftOf, IsLeft, turns_kept};
ghost use Rattle.waff_record.specs.Turns.{turn_at};
ghost use Rattle.waff_record.specs.declared.rounding.TheConstants.{MAX_RUN};

use crate::rounding::MAX_RUN;
use std::alloc::{AllocError, Global};
use waff_inputs::Accepted;
use waff_line::Turn;
use waff_model::limits::MAX_COST;

/// A run of the messages of accepted files that was stopped: its turns, some of which have not ended.
#[derive(Clone, Copy)]
pub struct StoppedRun<'a> {
    /// The bytes of those files.
    pub hierarchy: &'a [u8],
    pub bytes: &'a [u8],
    pub whole: &'a Accepted,
    pub turns: &'a [Turn],
    pub workers: u32,
    pub tick: u32,
    pub ghost read: { hierarchy_of hierarchy.now ≡ Ok whole.now.layout },
    pub ghost spelled: { trace_of whole.now.layout.spaces bytes.now ≡ Ok whole.now.trace },
    pub ghost staffed: { IsWorkers workers },
    pub ghost lasting: { 1 ≤ tick },
}

/// The numbers of the messages that are left.
#[tactic(auto, using(crate::proofs::LeftOf::left_none))]
pub(crate) fn numbers_left(alloc: Global, turns: &[Turn], tick: u32) -> Result<Vec<u32>, AllocError>
    requires few { length turns.now ≤ MAX_MESSAGES }
    ensures { IfOk result (λ kept. AreLeft turns.now tick kept.items) }
{
    let mut kept = Vec::new(alloc);
    for at in 0..turns.len() as u32 {
        note_left(&mut kept, turns, at, tick)?;
    }
    Ok(kept)
}

/// Notes the message behind so many, where it is left, behind those that are left of these.
fn note_left(kept: &mut Vec<u32>, turns: &[Turn], at: u32, tick: u32) -> Result<(), AllocError>
    requires within { at < length turns.now }
    requires few { length turns.now ≤ MAX_MESSAGES }
    ensures { OnOk result (AreLeftOf turns.now tick at kept.old.items
        → AreLeftOf turns.now tick (at + 1) kept.new.items) }
{
    if is_left(turns, at + 1, tick) {
        kept.push(at + 1)?;
    }
    Ok(())
}

/// Whether message `n` is left.
fn is_left(turns: &[Turn], n: u32, tick: u32) -> bool
    requires number { IsAmongFirst (length turns.now) n }
    ensures { IsTrue result ↔ IsLeft turns.now tick n }
{
    let turn = turn_of(turns, n);
    turn.ended && is_brief(&turn, tick) && is_timely(&turn, tick)
}

/// Whether a message ran for no more ticks than a trace can tell.
fn is_brief(turn: &Turn, tick: u32) -> bool
    ensures { IsTrue result ↔ (turn.now.finish - turn.now.start ≤ MAX_COST * tick) }
{
    let ran = turn.finish.saturating_sub(turn.start);
    u128::from(ran) <= u128::from(MAX_COST) * u128::from(tick)
}

/// Whether it ended no later than a run may last.
fn is_timely(turn: &Turn, tick: u32) -> bool
    ensures { IsTrue result ↔ (turn.now.finish ≤ MAX_RUN * tick) }
{
    u128::from(turn.finish) <= u128::from(MAX_RUN) * u128::from(tick)
}

/// The turns of the messages with these numbers.
pub(crate) fn turns_kept(
    alloc: Global,
    turns: &[Turn],
    kept: &[u32],
) -> Result<Vec<Turn>, AllocError>
    ensures { IfOk result (λ found. found.items ≡ turns_kept turns.now kept.now) }
{
    kept.iter().map(|n| turn_of(turns, *n)).collect(alloc)
}

/// The turn of message `n`, and that of no message where there is none.
fn turn_of(turns: &[Turn], n: u32) -> Turn
    ensures { result ≡ turn_at turns.now n }
{
    match turns.get((n as usize).saturating_sub(1)) {
        Some(turn) => *turn,
        None => Turn {
            start: 0,
            finish: 0,
            worker: 0,
            after: 0,
            late: 0,
            ended: false,
        },
    }
}
