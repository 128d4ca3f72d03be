//! The names of faults, as fault lines have them.
ghost use Rattle.std.specs.Prelude.{◌≡◌, ◌++◌, codes};
ghost use Rattle.waff_inputs.specs.Fault.{and_number, hierarchy_fault, key_name, layout_error_name};
ghost use Rattle.waff_inputs.specs.Fault.{plan_text_fault, trace_fault, tree_error_name};
ghost use Rattle.waff_inputs.specs.Told.{told_text};

use waff_model::{LayoutError, TreeError};
use waff_plan_text::PlanTextError;
use waff_read::{HierError, Key, TraceError};

/// What stands behind the name of a fault: numbers, and the name of a key.
#[derive(Clone, Copy)]
pub(crate) enum Behind {
    Nothing,
    Number(u64),
    Numbers(u64, u64),
    Key(u64, &'static str),
}

/// What is said of a fault: its name, and what stands behind it.
#[derive(Clone, Copy)]
pub(crate) struct Told {
    pub(crate) name: &'static str,
    pub(crate) behind: Behind,
}

/// What is said of a fault of the hierarchy of this number.
pub(crate) fn told_hierarchy(file: u8, fault: HierError) -> Told
    ensures { told_text result ≡ hierarchy_fault file fault }
{
    let file = u64::from(file);
    match fault {
        HierError::Toml => numbered("Toml", file),
        HierError::Model => numbered("Model", file),
        HierError::Shape { key } => Told {
            name: "Shape",
            behind: Behind::Key(file, key_name(key)),
        },
        HierError::Tree(error) => numbered(tree_fault_name(error), file),
        HierError::NotClassical { affinity } => Told {
            name: "NotClassical",
            behind: Behind::Numbers(file, u64::from(affinity.0)),
        },
        HierError::Layout(error) => numbered(layout_fault_name(error), file),
        HierError::Memory => numbered("Memory", file),
    }
}

fn key_name(key: Key) -> &'static str
    ensures { result.now ≡ key_name key }
{
    match key {
        Key::Affinities => "Affinities",
        Key::Spaces => "Spaces",
        Key::Maps => "Maps",
        Key::Name => "Name",
        Key::Parent => "Parent",
        Key::Size => "Size",
        Key::Space => "Space",
        Key::Unit => "Unit",
        Key::To => "To",
        Key::Locks => "Locks",
    }
}

fn tree_fault_name(error: TreeError) -> &'static str
    ensures { result.now ≡ codes "Tree." ++ tree_error_name error }
{
    match error {
        TreeError::Name => "Tree.Name",
        TreeError::Twice => "Tree.Twice",
        TreeError::SecondRoot => "Tree.SecondRoot",
        TreeError::NoRoot => "Tree.NoRoot",
        TreeError::ParentUnknown => "Tree.ParentUnknown",
        TreeError::TooMany => "Tree.TooMany",
        TreeError::Memory => "Tree.Memory",
    }
}

fn layout_fault_name(error: LayoutError) -> &'static str
    ensures { result.now ≡ codes "Layout." ++ layout_error_name error }
{
    match error {
        LayoutError::Space => "Layout.Space",
        LayoutError::Size => "Layout.Size",
        LayoutError::SpaceTwice => "Layout.SpaceTwice",
        LayoutError::NoMap => "Layout.NoMap",
        LayoutError::MapTwice => "Layout.MapTwice",
        LayoutError::Unit => "Layout.Unit",
        LayoutError::To => "Layout.To",
        LayoutError::TooManyCells => "Layout.TooManyCells",
        LayoutError::Memory => "Layout.Memory",
    }
}

/// What is said of a fault of the trace.
pub(crate) fn told_trace(fault: TraceError) -> Told
    ensures { told_text result ≡ trace_fault fault }
{
    match fault {
        TraceError::Csv { at } => numbered("Csv", at),
        TraceError::Header { at } => numbered("Header", at),
        TraceError::Fields { at } => numbered("Fields", at),
        TraceError::Name { at } => numbered("Name", at),
        TraceError::Cost { at } => numbered("Cost", at),
        TraceError::NoOps { at } => numbered("NoOps", at),
        TraceError::Op { at } => numbered("Op", at),
        TraceError::SpaceUnknown { at } => numbered("SpaceUnknown", at),
        TraceError::IndexTooLarge { at } => numbered("IndexTooLarge", at),
        TraceError::TooManyOps { at } => numbered("TooManyOps", at),
        TraceError::TooManyMessages { at } => numbered("TooManyMessages", at),
        TraceError::Memory => named("Memory"),
        TraceError::Release { at } => numbered("Release", at),
        TraceError::Client { at } => numbered("Client", at),
        TraceError::Think { at } => numbered("Think", at),
        TraceError::After { at } => numbered("After", at),
        TraceError::TooManyAfter { at } => numbered("TooManyAfter", at),
    }
}

/// What is said of a fault of the text of a plan.
pub(crate) fn told_plan_text(fault: PlanTextError) -> Told
    ensures { told_text result ≡ plan_text_fault fault }
{
    match fault {
        PlanTextError::Csv { at } => numbered("Csv", at),
        PlanTextError::Header { at } => numbered("Header", at),
        PlanTextError::Row { at } => numbered("Row", at),
        PlanTextError::Missing { message } => numbered("Missing", u64::from(message)),
        PlanTextError::Twice { at } => numbered("Twice", at),
        PlanTextError::Summary { at } => numbered("Summary", at),
        PlanTextError::TooLarge { at } => numbered("TooLarge", at),
        PlanTextError::Memory => named("Memory"),
    }
}

/// A name, and behind it a number.
fn numbered(name: &'static str, number: u64) -> Told
    ensures { told_text result ≡ name.now ++ and_number number }
{
    Told {
        name,
        behind: Behind::Number(number),
    }
}

/// A name, and nothing behind it.
pub(crate) fn named(name: &'static str) -> Told
    ensures { told_text result ≡ name.now }
{
    Told {
        name,
        behind: Behind::Nothing,
    }
}
