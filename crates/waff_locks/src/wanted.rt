//! What is asked about locks.

ghost use Rattle.std.specs.Prelude.{◌≡◌};
ghost use Rattle.waff_model.specs.Messages.{sizes_of};

use waff_list::Rule;
use waff_model::{Layout, Locking, Trace};
use waff_plan::Workers;

/// What is asked about locks: for how many workers or for none, by which rule, of which kind the new locks are, and how many steps at most.
#[derive(Clone, Copy)]
pub struct Wanted {
    pub workers: Option<Workers>,
    pub rule: Rule,
    pub kind: Locking,
    pub steps: u32,
}

/// The trace and the hierarchy of which it is asked.
#[derive(Clone, Copy)]
pub struct Asked<'a> {
    pub layout: &'a Layout,
    pub trace: &'a Trace,
    pub wanted: &'a Wanted,
    pub ghost fits: { trace.now.sizes ≡ sizes_of layout.now.spaces },
}
