//! The explanation of the first fault, or of the verdict.
ghost use Rattle.std.specs.Prelude.{◌≡◌, ℕ, List, Option, Some, IfOk, Ok};
ghost use Rattle.std.specs.Prelude.{length, option_copied, string_bytes};
ghost use Rattle.waff_model.specs.Layout.{Hierarchy};
ghost use Rattle.waff_model.specs.Messages.{sizes_of};
ghost use Rattle.waff_read.specs.HierRefusals.{Tells};
ghost use Rattle.waff_read.specs.Hierarchies.{hierarchy_of};
ghost use Rattle.waff_read.specs.Traces as traces;
ghost use Rattle.waff_assign.specs.Case.{instance_of};
ghost use Rattle.waff_plan_text.specs.PlanTexts as texts;
ghost use Rattle.waff_explain.specs.Lines.{AreHeadedLines};
ghost use Rattle.waff_inputs.specs.Deliveries.{Delivers};
ghost use Rattle.waff_inputs.specs.Inputs.{Accepts};
ghost use Rattle.waff_inputs.specs.Known as known;
ghost use Rattle.waff_tool.specs.Explanations.{IsExplained, IsExplanation, LinesAreNoFirstLines};
ghost use Rattle.waff_tool.specs.Explanations.{RefusesWork};
ghost use Rattle.waff_tool.specs.Explanations.{first_line, status_explained};

use crate::checks::{made_line, verdict_of, verdict_status};
use std::alloc::{AllocError, Global};
use std::io::Write;
use std::thread::Threads;
use waff_assign::{Case, assign};
use waff_check::{GivenPlan, PlanTextError, Verdict, read_plan};
use waff_explain::{
    hierarchy_words, near_words, plan_text_words, sizes_words, trace_words, verdict_words,
};
use waff_inputs::{ToolError, deliver, fault_status, fault_text, newest, read_trace};
use waff_model::{Layout, Trace};
use waff_read::{HierError, TraceError, read_hierarchy};

/// What was explained.
#[derive(Clone, Copy)]
pub enum Explained {
    /// The files are accepted, and there is no plan.
    Well,
    /// The first file that is refused is refused for this fault, which is neither an allocation failure
    /// nor a failed write.
    Fault(ToolError),
    /// The verdict on the plan.
    Verdict(Verdict),
}

/// The exit status of the program after an explanation: that of the fault or the verdict.
pub fn explained_status(explained: &Explained) -> u8
    ensures { result ≡ status_explained explained.now }
{
    match explained {
        Explained::Well => 0,
        Explained::Fault(fault) => fault_status(fault),
        Explained::Verdict(verdict) => verdict_status(verdict),
    }
}

/// What was explained, and the text that tells it.
#[derive(Drop)]
struct Explanation {
    explained: Explained,
    text: String,
}

/// Writes in plain words where the first fault of the files is, what was found and what is wanted,
/// or what the verdict on the plan tells, and which keys of the format the hierarchy nearly has;
/// answers which fault or verdict that is. The text begins with the line that the other commands
/// print, and each further line with a head (`Head`). A plan without a trace is not looked at.
/// Nothing is written before the whole text is made.
pub fn explain_text<R: Threads + Sync, W: Write>(
    rt: &R,
    alloc: Global,
    hierarchy: &[u8],
    trace: Option<&[u8]>,
    plan: Option<&[u8]>,
    writer: &mut W,
) -> Result<Explained, ToolError>
    ensures { Delivers (λ explained text. IsExplanation hierarchy.now (option_copied trace.entry)
        (option_copied plan.entry) explained text)
        RefusesWork (W.contents writer.old) (W.contents writer.new) result }
{
    let Explanation { explained, text } = explain(rt, alloc, hierarchy, trace, plan)?;
    deliver(writer, Ok(text))?;
    Ok(explained)
}

/// The explanation of the files, and below it which keys of the format the hierarchy nearly has.
fn explain<R: Threads + Sync>(
    rt: &R,
    alloc: Global,
    hierarchy: &[u8],
    trace: Option<&[u8]>,
    plan: Option<&[u8]>,
) -> Result<Explanation, AllocError>
    ensures { IfOk result (λ made. IsExplanation hierarchy.now (option_copied trace.entry)
        (option_copied plan.entry) made.explained (string_bytes made.text)) }
{
    let made = explain_files(rt, alloc, hierarchy, trace, plan)?;
    tell_near(alloc, hierarchy, made)
}

/// The explanation of the files, of which the hierarchy is read first.
fn explain_files<R: Threads + Sync>(
    rt: &R,
    alloc: Global,
    hierarchy: &[u8],
    trace: Option<&[u8]>,
    plan: Option<&[u8]>,
) -> Result<Explanation, AllocError>
    ensures { IfOk result (λ made. IsExplanation hierarchy.now (option_copied trace.entry)
        (option_copied plan.entry) made.explained (string_bytes made.text)) }
{
    match read_hierarchy(alloc, hierarchy) {
        Ok(layout) => {
            let made = explain_under(rt, alloc, &layout, trace, plan);
            drop(layout);
            made
        }
        Err(fault) => refuse_hierarchy(alloc, hierarchy, fault),
    }
}

/// The explanation of a hierarchy that is refused.
fn refuse_hierarchy(
    alloc: Global,
    hierarchy: &[u8],
    fault: HierError,
) -> Result<Explanation, AllocError>
    requires { Tells fault (hierarchy_of hierarchy.now) }
    ensures { IfOk result (λ made. (trace plan : Option (List ℕ))
        → IsExplanation hierarchy.now trace plan made.explained (string_bytes made.text)) }
{
    let error = match fault {
        HierError::Memory => return Err(AllocError),
        _ => ToolError::Hier { file: 1, fault },
    };
    let words = hierarchy_words(alloc, hierarchy, fault);
    tell(alloc, Explained::Fault(error), words)
}

/// The explanation under a hierarchy: of it alone, or of a trace and a plan.
fn explain_under<R: Threads + Sync>(
    rt: &R,
    alloc: Global,
    layout: &Layout,
    trace: Option<&[u8]>,
    plan: Option<&[u8]>,
) -> Result<Explanation, AllocError>
    ensures { IfOk result (λ made. (hierarchy : List ℕ)
        → hierarchy_of hierarchy ≡ Ok layout.now
        → IsExplanation hierarchy (option_copied trace.entry) (option_copied plan.entry)
        made.explained (string_bytes made.text)) }
{
    match trace {
        Some(trace) => explain_trace(rt, alloc, layout, trace, plan),
        None => tell(alloc, Explained::Well, sizes_words(alloc, layout, None)),
    }
}

/// The explanation of a trace under a hierarchy, and of a plan.
fn explain_trace<R: Threads + Sync>(
    rt: &R,
    alloc: Global,
    layout: &Layout,
    trace: &[u8],
    plan: Option<&[u8]>,
) -> Result<Explanation, AllocError>
    ensures { IfOk result (λ made. (hierarchy : List ℕ)
        → hierarchy_of hierarchy ≡ Ok layout.now
        → IsExplanation hierarchy (Some trace.now) (option_copied plan.entry)
        made.explained (string_bytes made.text)) }
{
    match read_trace(alloc, layout, trace) {
        Ok(read) => {
            let made = explain_read(rt, alloc, layout, &read, plan);
            drop(read);
            made
        }
        Err(fault) => refuse_trace(alloc, layout, trace, fault),
    }
}

/// The explanation of a trace that is refused under a hierarchy.
fn refuse_trace(
    alloc: Global,
    layout: &Layout,
    trace: &[u8],
    fault: TraceError,
) -> Result<Explanation, AllocError>
    requires { traces.Tells fault (known.trace_of layout.now.spaces trace.now) }
    ensures { IfOk result (λ made. (hierarchy : List ℕ) (plan : Option (List ℕ))
        → hierarchy_of hierarchy ≡ Ok layout.now
        → IsExplanation hierarchy (Some trace.now) plan
        made.explained (string_bytes made.text)) }
{
    let error = match fault {
        TraceError::Memory => return Err(AllocError),
        _ => ToolError::Trace(fault),
    };
    let words = trace_words(alloc, layout, newest(), trace, fault);
    tell(alloc, Explained::Fault(error), words)
}

/// The explanation of a trace that was read: of it alone, or of a plan.
fn explain_read<R: Threads + Sync>(
    rt: &R,
    alloc: Global,
    layout: &Layout,
    trace: &Trace,
    plan: Option<&[u8]>,
) -> Result<Explanation, AllocError>
    requires fits { trace.now.sizes ≡ sizes_of layout.now.spaces }
    ensures { IfOk result (λ made. (hierarchy trace_file : List ℕ)
        → hierarchy_of hierarchy ≡ Ok layout.now
        → known.trace_of layout.now.spaces trace_file ≡ Ok trace.now
        → IsExplanation hierarchy (Some trace_file) (option_copied plan.entry)
        made.explained (string_bytes made.text)) }
{
    match plan {
        Some(plan) => explain_plan(rt, alloc, layout, trace, plan),
        None => tell(
            alloc,
            Explained::Well,
            sizes_words(alloc, layout, Some(trace)),
        ),
    }
}

/// The explanation of a plan of a trace that was read.
fn explain_plan<R: Threads + Sync>(
    rt: &R,
    alloc: Global,
    layout: &Layout,
    trace: &Trace,
    plan: &[u8],
) -> Result<Explanation, AllocError>
    requires fits { trace.now.sizes ≡ sizes_of layout.now.spaces }
    ensures { IfOk result (λ made. (hierarchy trace_file : List ℕ)
        → hierarchy_of hierarchy ≡ Ok layout.now
        → known.trace_of layout.now.spaces trace_file ≡ Ok trace.now
        → IsExplanation hierarchy (Some trace_file) (Some plan.now)
        made.explained (string_bytes made.text)) }
{
    let assigned = assign(alloc, layout, trace)?;
    let case = Case {
        tree: layout.tree(),
        assigned: &assigned,
        trace,
    };
    let made = explain_case(rt, alloc, layout, &case, plan);
    drop(assigned);
    made
}

/// The explanation of a plan for a case under a hierarchy.
fn explain_case<R: Threads + Sync>(
    rt: &R,
    alloc: Global,
    layout: &Layout,
    case: &Case<'_>,
    plan: &[u8],
) -> Result<Explanation, AllocError>
    ensures { IfOk result (λ made. (hierarchy trace_file : List ℕ)
        → Accepts hierarchy trace_file (instance_of case.now)
        → IsExplanation hierarchy (Some trace_file) (Some plan.now)
        made.explained (string_bytes made.text)) }
{
    let trace = case.trace;
    match read_plan(alloc, trace.version(), trace.len(), plan) {
        Ok(given) => {
            let made = explain_verdict(rt, alloc, layout, case, &given, plan);
            drop(given);
            made
        }
        Err(fault) => refuse_plan(alloc, trace, plan, fault),
    }
}

/// The explanation of a plan of a trace that is refused.
fn refuse_plan(
    alloc: Global,
    trace: &Trace,
    plan: &[u8],
    fault: PlanTextError,
) -> Result<Explanation, AllocError>
    requires { texts.Tells fault
        (texts.plan_of trace.now.version (length trace.now.messages) plan.now) }
    ensures { IfOk result (λ made. (hierarchy trace_file : List ℕ) (layout : Hierarchy)
        → hierarchy_of hierarchy ≡ Ok layout
        → known.trace_of layout.spaces trace_file ≡ Ok trace.now
        → IsExplanation hierarchy (Some trace_file) (Some plan.now)
        made.explained (string_bytes made.text)) }
{
    let error = match fault {
        PlanTextError::Memory => return Err(AllocError),
        _ => ToolError::PlanText(fault),
    };
    let words = plan_text_words(alloc, trace, plan, fault);
    tell(alloc, Explained::Fault(error), words)
}

/// The explanation of a plan that was read: the verdict.
fn explain_verdict<R: Threads + Sync>(
    rt: &R,
    alloc: Global,
    layout: &Layout,
    case: &Case<'_>,
    given: &GivenPlan,
    plan: &[u8],
) -> Result<Explanation, AllocError>
    requires rows { length given.now.rows ≡ length case.now.trace.now.messages }
    requires version { given.now.version ≡ case.now.trace.now.version }
    requires plan { texts.plan_of case.now.trace.now.version
        (length case.now.trace.now.messages) plan.now ≡ Ok given.now }
    ensures { IfOk result (λ made. (hierarchy trace_file : List ℕ)
        → Accepts hierarchy trace_file (instance_of case.now)
        → IsExplanation hierarchy (Some trace_file) (Some plan.now)
        made.explained (string_bytes made.text)) }
{
    let verdict = verdict_of(rt, alloc, case, given)?;
    let words = verdict_words(alloc, layout, case, given, plan, verdict);
    tell(alloc, Explained::Verdict(verdict), words)
}

/// The explanation whose text is the line that tells what is explained, and then these words, if
/// they could be made.
fn tell(
    alloc: Global,
    explained: Explained,
    words: Result<String, AllocError>,
) -> Result<Explanation, AllocError>
    requires { IfOk words (λ words. AreHeadedLines (string_bytes words)) }
    ensures { IfOk result (λ made. (hierarchy : List ℕ) (trace plan : Option (List ℕ))
        → IsExplained hierarchy trace plan explained
        → IsExplanation hierarchy trace plan made.explained (string_bytes made.text)) }
{
    let words = words?;
    let mut text = made_first_line(alloc, explained)?;
    text.push_str(words.as_str())?;
    drop(words);
    Ok(Explanation { explained, text })
}

/// The explanation, and below it which keys of the format the hierarchy nearly has.
fn tell_near(alloc: Global, hierarchy: &[u8], made: Explanation) -> Result<Explanation, AllocError>
    ensures { IfOk result (λ more. (file : List ℕ) (trace plan : Option (List ℕ))
        → IsExplanation file trace plan made.explained (string_bytes made.text)
        → IsExplanation file trace plan more.explained (string_bytes more.text)) }
{
    let Explanation {
        explained,
        mut text,
    } = made;
    let near = near_words(alloc, hierarchy)?;
    text.push_str(near.as_str())?;
    drop(near);
    Ok(Explanation { explained, text })
}

/// The line that the other commands print.
fn made_first_line(alloc: Global, explained: Explained) -> Result<String, AllocError>
    ensures { IfOk result (λ text. string_bytes text ≡ first_line explained) }
{
    match explained {
        Explained::Well => String::from_str(alloc, "nothing is wrong\n"),
        Explained::Fault(fault) => {
            let line = fault_text(alloc, &fault)?;
            format!(in alloc; "{}\n", line.as_str())
        }
        Explained::Verdict(verdict) => made_line(alloc, verdict),
    }
}

/// No further line of an explanation is the line of a fault or a verdict: a function that does
/// nothing and whose contract is the law.
pub fn lines_are_no_first_lines()
    ensures { LinesAreNoFirstLines }
{}
