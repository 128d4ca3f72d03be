//! A run, with the plan that is told of it.

ghost use Rattle.std.specs.Prelude.{◌≡◌};

use crate::turns::RunTurns;
use waff_plan::Plan;

/// A run with the plan that is told of it, in ticks.
#[derive(Clone, Copy)]
pub(crate) struct ToldRun<'a> {
    pub run: RunTurns<'a>,
    pub plan: &'a Plan,
    pub ghost version: { plan.now.version ≡ run.case.trace.now.version },
}
