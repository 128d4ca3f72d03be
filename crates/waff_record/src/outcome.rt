//! What is told of a run, made of the turns of its messages.

ghost use Rattle.std.specs.Prelude.{◌≡◌, IfOk, string_bytes};
ghost use Rattle.waff_assign.specs.Case.{instance_of};
ghost use Rattle.waff_assign.specs.Lowest.{IsAssignment};
ghost use Rattle.waff_record.specs.Drift.{short_turns};
ghost use Rattle.waff_record.specs.Ran.{HasRun, IsToldRun};
ghost use Rattle.waff_record.specs.Runs.{AreRunTexts};

use crate::anew::measured_text;
use crate::drift::{drift_of, last_finish, short_turns};
use crate::fault::RecordError;
use crate::rounding::rounded;
use crate::told::plan_text;
use crate::told_run::ToldRun;
use crate::turns::RunTurns;
use std::alloc::{AllocError, Global};
use waff_line::Turn;
use waff_read::laws;

/// What a run tells.
#[derive(Drop)]
pub struct Recorded {
    /// The trace with the costs that are told.
    pub measured: Vec<u8>,
    /// The text of the plan that is told.
    pub text: String,
    /// By how many per cent what is told is longer than what was measured, where that is more than one.
    pub drift: Option<u128>,
    pub tally: Tally,
}

/// What is told of a run at a terminal.
#[derive(Clone, Copy)]
pub struct Tally {
    /// How long the run was, in ticks.
    pub length: u64,
    /// The median of how late messages began, in nanoseconds.
    pub late: u64,
    /// How many messages were shorter than a tick.
    pub short: usize,
}

/// What is told of a run of the messages of a trace, in ticks.
pub fn record_of(alloc: Global, run: &RunTurns<'_>) -> Result<Recorded, RecordError>
    requires ran { HasRun run.now }
    requires assigned { IsAssignment run.now.layout.now run.now.case.trace.now.messages
        run.now.case.assigned.now }
    ensures texts { IfOk result (λ ran. AreRunTexts run.now.hierarchy.now (instance_of run.now.case)
        run.now.workers run.now.tick run.now.turns.now
        ran.measured.items (string_bytes ran.text) ran.drift) }
    ensures short { IfOk result
        (λ ran. ran.tally.short ≡ short_turns run.now.tick run.now.turns.now) }
{
    let plan = rounded(alloc, run)?;
    let told = ToldRun {
        run: *run,
        plan: &plan,
    };
    let recorded = record_told(alloc, &told);
    drop(plan);
    Ok(recorded?)
}

/// The same, where the plan that is told is known.
fn record_told(alloc: Global, told: &ToldRun<'_>) -> Result<Recorded, AllocError>
    requires told { IsToldRun told.now }
    requires assigned { IsAssignment told.now.run.layout.now told.now.run.case.trace.now.messages
        told.now.run.case.assigned.now }
    ensures texts { IfOk result (λ ran. AreRunTexts told.now.run.hierarchy.now
        (instance_of told.now.run.case) told.now.run.workers told.now.run.tick
        told.now.run.turns.now ran.measured.items (string_bytes ran.text) ran.drift) }
    ensures short { IfOk result
        (λ ran. ran.tally.short ≡ short_turns told.now.run.tick told.now.run.turns.now) }
{
    laws::trace_anew_is_read();
    let _planned = told.plan.len();
    let tally = tally_of(alloc, told)?;
    let drift = drift_of(
        told.plan.length(),
        told.run.tick,
        last_finish(told.run.turns),
    );
    let text = plan_text(alloc, told)?;
    match measured_text(alloc, told) {
        Ok(measured) => Ok(Recorded {
            measured,
            text,
            drift,
            tally,
        }),
        Err(error) => {
            drop(text);
            Err(error)
        }
    }
}

/// How long the run was, how late its messages began, and how many were shorter than a tick.
fn tally_of(alloc: Global, told: &ToldRun<'_>) -> Result<Tally, AllocError>
    ensures { IfOk result
        (λ tally. tally.short ≡ short_turns told.now.run.tick told.now.run.turns.now) }
{
    let turns = told.run.turns;
    let late = median_late(alloc, turns)?;
    Ok(Tally {
        length: told.plan.length(),
        late,
        short: short_turns(turns, told.run.tick),
    })
}

/// The median of how late messages began.
fn median_late(alloc: Global, turns: &[Turn]) -> Result<u64, AllocError> {
    let mut lates: Vec<u64> = turns.iter().map(|turn| turn.late).collect(alloc)?;
    lates.sort_unstable();
    match lates.get(lates.len().saturating_sub(1) / 2) {
        Some(late) => Ok(*late),
        None => Ok(0),
    }
}
