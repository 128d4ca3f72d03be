//! The files of a run, which were accepted.

ghost use Rattle.std.specs.Prelude.{◌≡◌, Ok};
ghost use Rattle.waff_inputs.specs.Known.{trace_of};
ghost use Rattle.waff_read.specs.Hierarchies.{hierarchy_of};

use waff_inputs::Accepted;

/// A hierarchy and a trace by their bytes, and what they were accepted as.
#[derive(Clone, Copy)]
pub struct RunFiles<'a> {
    pub hierarchy: &'a [u8],
    pub trace: &'a [u8],
    pub accepted: &'a Accepted,
    pub ghost read: { hierarchy_of hierarchy.now ≡ Ok accepted.now.layout },
    pub ghost spelled: { trace_of accepted.now.layout.spaces trace.now ≡ Ok accepted.now.trace },
}
