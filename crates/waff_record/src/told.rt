//! The text of the plan that is told of a run.

ghost use Rattle.std.specs.Prelude.{◌≡◌, IfOk, length, map, string_bytes};
ghost use Rattle.waff_assign.specs.Case.{instance_of};
ghost use Rattle.waff_plan.specs.Chain.{IsChain, IsListed};
ghost use Rattle.waff_plan.specs.Serving.{started_in};
ghost use Rattle.waff_plan.specs.Timetable.{work_in};
ghost use Rattle.waff_record.specs.Ran.{IsToldRun, drift_told, instance_told};
ghost use Rattle.waff_record.specs.Runs.{IsPlanFor};

use crate::told_run::ToldRun;
use std::alloc::{AllocError, Global};
use waff_line::Turn;
use waff_plan::printed::started_chain;
use waff_plan_text::{Timed, timed_text};
use waff_read::laws;

/// The text of the plan that is told of a run, with its printed chain.
pub(crate) fn plan_text(alloc: Global, told: &ToldRun<'_>) -> Result<String, AllocError>
    requires told { IsToldRun told.now }
    ensures { IfOk result (λ text. IsPlanFor (instance_of told.now.run.case)
        (instance_told told.now) told.now.run.workers told.now.run.tick
        told.now.run.turns.now (string_bytes text) (drift_told told.now)) }
{
    laws::trace_anew_is_read();
    let _planned = told.plan.len();
    let _affinities = told.run.case.tree.len();
    let timed = Timed {
        case: told.run.case,
        plan: told.plan,
    };
    let chain = chain_of(alloc, told)?;
    let seats = seats_of(alloc, told.run.turns)?;
    timed_text(
        alloc,
        &timed,
        told.run.workers,
        seats.as_slice(),
        chain.as_slice(),
    )
}

/// The printed chain of the plan that is told.
fn chain_of(alloc: Global, told: &ToldRun<'_>) -> Result<Vec<u32>, AllocError>
    requires told { IsToldRun told.now }
    ensures chain { IfOk result (λ chain. IsChain
        (started_in told.now.run.case.tree.now told.now.run.case.assigned.now told.now.plan.now)
        (work_in told.now.plan.now) chain.items) }
    ensures listed { IfOk result (λ chain. IsListed (length told.now.plan.now.timings) chain.items) }
{
    let _messages = told.plan.len();
    let case = &told.run.case;
    started_chain(alloc, case.tree, case.assigned, told.plan)
}

/// The workers of turns.
fn seats_of(alloc: Global, turns: &[Turn]) -> Result<Vec<u32>, AllocError>
    ensures { IfOk result (λ seats. seats.items ≡ map (λ turn. turn.worker) turns.now) }
{
    turns.iter().map(|turn| turn.worker).collect(alloc)
}
