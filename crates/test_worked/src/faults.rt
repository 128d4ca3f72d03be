//! The lines that tell of faults, and their exit statuses.

use crate::same::is_same;
use waff_inputs::{ToolError, fault_status, fault_text};
use waff_model::{AffinityId, LayoutError, TreeError};
use waff_plan_text::PlanTextError;
use waff_read::{HierError, Key, TraceError};

const SECOND_ROOT: ToolError = ToolError::Hier {
    file: 1,
    fault: HierError::Tree(TreeError::SecondRoot),
};

const THIRD_LEVEL: ToolError = ToolError::Hier {
    file: 1,
    fault: HierError::NotClassical {
        affinity: AffinityId(3),
    },
};

const NO_SIZE: ToolError = ToolError::Hier {
    file: 1,
    fault: HierError::Shape { key: Key::Size },
};

const NO_OWNER: ToolError = ToolError::Hier {
    file: 2,
    fault: HierError::Layout(LayoutError::To),
};

/// Faults with their lines and their exit statuses.
const FAULTS: &[(ToolError, &str, u8)] = &[
    (SECOND_ROOT, "waff: Hier.Tree.SecondRoot 1", 3),
    (THIRD_LEVEL, "waff: Hier.NotClassical 1 3", 3),
    (NO_SIZE, "waff: Hier.Shape 1 Size", 3),
    (NO_OWNER, "waff: Hier.Layout.To 2", 3),
    (
        ToolError::PlanText(PlanTextError::Missing { message: 3 }),
        "waff: PlanText.Missing 3",
        3,
    ),
    (
        ToolError::PlanText(PlanTextError::TooLarge { at: 9 }),
        "waff: PlanText.TooLarge 9",
        3,
    ),
    (
        ToolError::Trace(TraceError::Cost { at: 2 }),
        "waff: Trace.Cost 2",
        3,
    ),
    (ToolError::SpacesDiffer, "waff: SpacesDiffer", 3),
    (ToolError::ModelsSame, "waff: ModelsSame", 3),
    (ToolError::Write, "waff: Write", 4),
    (ToolError::Memory, "waff: Memory", 4),
    (ToolError::TooManyCells, "waff: TooManyCells", 3),
];

#[test]
fn are_told(rt: HostRuntime) {
    for (error, line, status) in FAULTS {
        let told = fault_text(rt.alloc(), error).expect(&rt, "a line");
        is_same(&rt, told.as_str(), line);
        let found = fault_status(error);
        assert!(rt; found == *status, "{line}: {found}");
    }
}
