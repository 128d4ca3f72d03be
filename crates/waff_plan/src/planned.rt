//! A trace under a tree of affinities, with a plan of its messages.

ghost use Rattle.std.specs.Prelude.{◌≡◌, length};
ghost use Rattle.waff_plan.specs.Timetable.{timings_of};

use crate::Plan;
use waff_assign::Case;

/// A trace under a tree of affinities, with a plan of its messages, which need not obey.
#[derive(Clone, Copy)]
pub struct Planned<'a> {
    pub case: Case<'a>,
    pub plan: &'a Plan,
    pub ghost version: { plan.now.version ≡ case.trace.now.version },
    pub ghost timings: { plan.now.timings ≡ timings_of case.trace.now.messages },
    pub ghost lengths: { length plan.now.timings ≡ length case.assigned.now },
}
