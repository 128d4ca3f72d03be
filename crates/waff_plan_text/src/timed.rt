//! A trace under a tree of affinities, with a plan of as many messages.

ghost use Rattle.std.specs.Prelude.{◌≡◌, length};

use waff_assign::Case;
use waff_plan::{Plan, Planned};

/// A trace under a tree of affinities, with a plan of as many messages. Their timings may be others than those of the trace:
/// in the plan of a run they have the costs that were measured.
#[derive(Clone, Copy)]
pub struct Timed<'a> {
    pub case: Case<'a>,
    pub plan: &'a Plan,
    pub ghost version: { plan.now.version ≡ case.trace.now.version },
    pub ghost lengths: { length plan.now.timings ≡ length case.assigned.now },
}

impl<'a> Timed<'a> {
    /// A plan of the messages of the trace itself.
    pub(crate) fn of(planned: &Planned<'a>) -> Timed<'a>
        ensures case { result.case ≡ planned.now.case }
        ensures plan { result.plan ≡ planned.now.plan }
    {
        Timed {
            case: planned.case,
            plan: planned.plan,
        }
    }
}
