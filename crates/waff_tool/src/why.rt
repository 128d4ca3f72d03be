//! Why messages run so high.
ghost use Rattle.std.specs.Prelude.{◌≡◌, IfOk, string_bytes};
ghost use Rattle.waff_assign.specs.Lowest.{IsAssignment};
ghost use Rattle.waff_inputs.specs.Inputs.{instance_under};
ghost use Rattle.waff_tool.specs.WhyText.{TellsWhy};

use std::alloc::{AllocError, Global};
use waff_figures::Grouping;
use waff_inputs::Accepted;
use waff_limits::lifted_laws::lifts_add_up;
use waff_limits::{Laid, lifting_text};

/// The text of why messages run high in the tree: for each affinity, or for each
/// affinity and name, the owners of two cells that lift messages to it, how many and what they cost, and
/// the two cells of the first of them.
pub(crate) fn lifted_text(
    alloc: Global,
    accepted: &Accepted,
    grouping: Grouping,
) -> Result<String, AllocError>
    requires assignment { IsAssignment accepted.now.layout accepted.now.trace.messages
        accepted.now.assigned }
    ensures { IfOk result (λ text. TellsWhy grouping accepted.now.layout
        (instance_under accepted.now.layout accepted.now.assigned accepted.now.trace)
        (string_bytes text)) }
{
    let laid = Laid {
        case: accepted.case(),
        layout: &accepted.layout,
    };
    lifts_add_up();
    lifting_text(alloc, &laid, grouping)
}
