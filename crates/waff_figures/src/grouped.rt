//! The messages of a plan in groups.

ghost use Rattle.std.specs.Prelude.{◌≡◌, ◌<◌, All, length};

use waff_plan::Plan;

/// The messages of a plan in groups, which are numbered from 0: message n is in the group
/// `groups[n - 1]`.
#[derive(Clone, Copy)]
pub(crate) struct Grouped<'a> {
    pub plan: &'a Plan,
    pub groups: &'a [u32],
    /// How many groups there are.
    pub count: usize,
    pub ghost lengths: { length groups.now ≡ length plan.now.timings },
    pub ghost known: { All (λ group. group < count) groups.now },
}
