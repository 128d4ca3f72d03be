//! The sweep over numbers of workers.
ghost use Rattle.std.specs.Prelude.{◌<◌, IfOk};
ghost use Rattle.std.specs.Prelude.{length, string_bytes};
ghost use Rattle.waff_assign.specs.Case.{instance_of};
ghost use Rattle.waff_figures.specs.Sweep.{sweep_workers};
ghost use Rattle.waff_tool.specs.Figures.{TellsSweep};
ghost use Rattle.waff_tool.specs.Told.{numbers_or};

use crate::told::numbers_or;
use std::alloc::{AllocError, Global};
use std::thread::Threads;
use waff_assign::Case;
use waff_figures::figures::least_is_lower_bound;
use waff_figures::{figures_of, figures_text, list_figures, sweep_workers};
use waff_list::Rule;
use waff_plan::unlimited::plan;
use waff_plan::{Planned, Workers};

/// The text of a sweep of a case: how long it takes for each of these numbers of workers, or else for
/// the usual ones, and with no limit on them, in the plans by this rule, how busy the workers are, and
/// how long the messages wait.
pub(crate) fn swept_text<R: Threads + Sync>(
    rt: &R,
    alloc: Global,
    case: &Case<'_>,
    given: &Option<Vec<Workers>>,
    rule: Rule,
) -> Result<String, AllocError>
    ensures { IfOk result (λ text. TellsSweep rule (numbers_or given.now sweep_workers)
        (instance_of case.now) (string_bytes text)) }
{
    let usual = sweep_workers(alloc)?;
    let text = text_for(rt, alloc, case, numbers_or(given, usual.as_slice()), rule);
    drop(usual);
    text
}

/// The text for these numbers of workers.
fn text_for<R: Threads + Sync>(
    rt: &R,
    alloc: Global,
    case: &Case<'_>,
    workers: &[Workers],
    rule: Rule,
) -> Result<String, AllocError>
    ensures { IfOk result (λ text.
        TellsSweep rule workers.now (instance_of case.now) (string_bytes text)) }
{
    let plan = plan(alloc, case.tree, case.assigned, case.trace)?;
    let _affinities = case.tree.len();
    let _messages = case.trace.len();
    let planned = Planned {
        case: *case,
        plan: &plan,
    };
    let unlimited = figures_of(alloc, &planned, None, plan.length())?;
    least_is_lower_bound();
    let listed = list_figures(rt, alloc, &planned, rule, workers)?;
    let text = figures_text(alloc, listed.as_slice(), &unlimited);
    drop(listed);
    drop(plan);
    text
}
