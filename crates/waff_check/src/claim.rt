//! A plan that a text gives, for a trace under a tree of affinities.

ghost use Rattle.std.specs.Prelude.{◌≡◌, ◌≤◌, length};
ghost use Rattle.waff_model.specs.declared.limits.TheConstants.{MAX_MESSAGES};
ghost use Rattle.waff_check.specs.Verdicts.{starts_of};

use waff_plan::Planned;
use waff_plan_text::GivenPlan;

/// A plan that a text gives for the messages of a case, with the plan of the starts that it tells.
#[derive(Clone, Copy)]
pub(crate) struct Claim<'a> {
    pub planned: Planned<'a>,
    pub given: &'a GivenPlan,
    pub ghost rows: { length given.now.rows ≡ length planned.plan.now.timings },
    pub ghost starts: { planned.plan.now.starts ≡ starts_of given.now },
    pub ghost few: { length planned.plan.now.timings ≤ MAX_MESSAGES },
}
