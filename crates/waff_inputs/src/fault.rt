//! Why a command gave no text, and how that is told.
ghost use Rattle.std.specs.Prelude.{◌≡◌, ◌++◌, IfOk, OnOk, string_bytes};
ghost use Rattle.waff_io.specs.Writing.{WritesOrFails};
ghost use Rattle.waff_inputs.specs.Fault.{fault_line, fault_message, status_of};
ghost use Rattle.waff_inputs.specs.Told.{behind_text, told_text};
ghost use Rattle.waff_inputs.specs.ToolErrors.{hierarchy_error, plan_text_error, trace_error};
ghost use Rattle.waff_inputs.specs.declared.fault.ToolError.TheVariants.{Memory};

use crate::fault_names::{Behind, Told, named, told_hierarchy, told_plan_text, told_trace};
use itoa::Buffer;
use std::alloc::{AllocError, Global};
use thiserror::Error;
use waff_io::{ErrorStream, WriteFault, write_pieces};
use waff_model::Text;
use waff_plan_text::PlanTextError;
use waff_read::{HierError, TraceError};

/// Why a command gave no text, or not all of it.
#[derive(Clone, Copy, Debug, PartialEq, Error)]
pub enum ToolError {
    /// A hierarchy is refused; hierarchies are numbered from 1 in the order in which they are
    /// given. The fault is never an allocation failure.
    #[error("hierarchy {file}")]
    Hier { file: u8, fault: HierError },
    /// The trace is refused. The fault is never an allocation failure.
    #[error("trace")]
    Trace(TraceError),
    /// The text of a plan is refused. The fault is never an allocation failure.
    #[error("plan text")]
    PlanText(PlanTextError),
    /// The hierarchies that are compared have other spaces.
    #[error("the hierarchies have other spaces")]
    SpacesDiffer,
    /// The hierarchies that are compared are of one model.
    #[error("the hierarchies are of one model")]
    ModelsSame,
    /// The writer gave an error, or took no byte.
    #[error("the text could not be written")]
    Write,
    #[error("out of memory")]
    Memory,
    /// A trace is to be replayed over more cells than a replay keeps.
    #[error("too many cells for a replay")]
    TooManyCells,
}

impl From<AllocError> for ToolError {
    ghost from_gives = { λ _ error. error ≡ Memory };

    fn from(_error: AllocError) -> ToolError {
        ToolError::Memory
    }
}

impl From<TraceError> for ToolError {
    ghost from_gives = { λ fault error. error ≡ trace_error fault };

    fn from(fault: TraceError) -> ToolError {
        match fault {
            TraceError::Memory => ToolError::Memory,
            _ => ToolError::Trace(fault),
        }
    }
}

impl From<PlanTextError> for ToolError {
    ghost from_gives = { λ fault error. error ≡ plan_text_error fault };

    fn from(fault: PlanTextError) -> ToolError {
        match fault {
            PlanTextError::Memory => ToolError::Memory,
            _ => ToolError::PlanText(fault),
        }
    }
}

impl ToolError {
    /// The error of a fault of the hierarchy of this number.
    pub(crate) fn of_hierarchy(file: u8, fault: HierError) -> ToolError
        ensures { result ≡ hierarchy_error file fault }
    {
        match fault {
            HierError::Memory => ToolError::Memory,
            _ => ToolError::Hier { file, fault },
        }
    }
}

/// The line that tells of an error, without its line feed.
pub fn fault_text(alloc: Global, error: &ToolError) -> Result<Text, AllocError>
    ensures { IfOk result (λ text. text ≡ fault_line error.now) }
{
    let mut line = String::new(alloc);
    push_error(&mut line, *error)?;
    Text::of(alloc, line.as_str())
}

/// Writes the line that tells of an error, with its line feed, also where memory is refused.
pub fn write_fault<S: ErrorStream>(
    alloc: Global,
    stream: &mut S,
    error: &ToolError,
) -> Result<(), WriteFault>
    ensures { WritesOrFails (S.holds stream.old) (S.holds stream.new) (S.failed stream.new)
        (fault_message error.now) result }
{
    let (group, told) = told_error(*error);
    let mut first = Buffer::new();
    let mut second = Buffer::new();
    match told.behind {
        Behind::Nothing => write_pieces(alloc, stream, &[group, told.name, "\n"]),
        Behind::Number(n) => {
            let n = first.format(n);
            write_pieces(alloc, stream, &[group, told.name, " ", n, "\n"])
        }
        Behind::Numbers(n, m) => {
            let (n, m) = (first.format(n), second.format(m));
            write_pieces(alloc, stream, &[group, told.name, " ", n, " ", m, "\n"])
        }
        Behind::Key(n, key) => {
            let n = first.format(n);
            write_pieces(alloc, stream, &[group, told.name, " ", n, " ", key, "\n"])
        }
    }
}

/// Appends the line that tells of an error.
fn push_error(line: &mut String, error: ToolError) -> Result<(), AllocError>
    ensures { OnOk result
        (string_bytes line.new ≡ string_bytes line.old ++ fault_line error) }
{
    let (group, told) = told_error(error);
    line.push_str(group)?;
    line.push_str(told.name)?;
    push_behind(line, told.behind)
}

/// Appends what stands behind the name of a fault.
fn push_behind(line: &mut String, behind: Behind) -> Result<(), AllocError>
    ensures { OnOk result
        (string_bytes line.new ≡ string_bytes line.old ++ behind_text behind) }
{
    match behind {
        Behind::Nothing => Ok(()),
        Behind::Number(n) => write!(line, " {n}"),
        Behind::Numbers(n, m) => write!(line, " {n} {m}"),
        Behind::Key(n, key) => write!(line, " {n} {key}"),
    }
}

/// What is said of an error: which files it is of, and then what of them.
fn told_error(error: ToolError) -> (&'static str, Told)
    ensures { result.0.now ++ told_text result.1 ≡ fault_line error }
{
    match error {
        ToolError::Hier { file, fault } => ("waff: Hier.", told_hierarchy(file, fault)),
        ToolError::Trace(fault) => ("waff: Trace.", told_trace(fault)),
        ToolError::PlanText(fault) => ("waff: PlanText.", told_plan_text(fault)),
        ToolError::SpacesDiffer => ("waff: ", named("SpacesDiffer")),
        ToolError::ModelsSame => ("waff: ", named("ModelsSame")),
        ToolError::Write => ("waff: ", named("Write")),
        ToolError::Memory => ("waff: ", named("Memory")),
        ToolError::TooManyCells => ("waff: ", named("TooManyCells")),
    }
}

/// The exit status of the program after an error.
pub fn fault_status(error: &ToolError) -> u8
    ensures { result ≡ status_of error.now }
{
    match error {
        ToolError::Hier { .. }
        | ToolError::Trace(_)
        | ToolError::PlanText(_)
        | ToolError::SpacesDiffer
        | ToolError::ModelsSame
        | ToolError::TooManyCells => 3,
        ToolError::Write | ToolError::Memory => 4,
    }
}
