//! A run whose messages have all ended.

ghost use Rattle.std.specs.Prelude.{◌≡◌, ◌≤◌, Ok};
ghost use Rattle.waff_inputs.specs.Known.{trace_of};
ghost use Rattle.waff_plan.specs.Bound.{IsWorkers};
ghost use Rattle.waff_read.specs.Hierarchies.{hierarchy_of};

use waff_assign::Case;
use waff_line::Turn;
use waff_model::Layout;

/// Turns of the messages of a case, when they have run on so many workers. Their times are nanoseconds, and a tick of the
/// trace is so many of them.
#[derive(Clone, Copy)]
pub struct RunTurns<'a> {
    /// The bytes of the hierarchy, and what they are read as.
    pub hierarchy: &'a [u8],
    pub layout: &'a Layout,
    pub case: Case<'a>,
    /// The bytes of the trace.
    pub bytes: &'a [u8],
    pub turns: &'a [Turn],
    pub workers: u32,
    pub tick: u32,
    pub ghost read: { hierarchy_of hierarchy.now ≡ Ok layout.now },
    pub ghost tree: { case.tree.now ≡ layout.now.tree },
    pub ghost spelled: { trace_of layout.now.spaces bytes.now ≡ Ok case.trace.now },
    pub ghost staffed: { IsWorkers workers },
    pub ghost lasting: { 1 ≤ tick },
}
