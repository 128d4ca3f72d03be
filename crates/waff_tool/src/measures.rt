//! What is told of a trace under one hierarchy, and the text that tells it of two.
ghost use Rattle.std.specs.Prelude.{◌≡◌, ◌∷◌, IfOk, OnOk, string_bytes};
ghost use Rattle.std.specs.List.{join_with_byte};
ghost use Rattle.waff_assign.specs.Case.{instance_of};
ghost use Rattle.waff_plan_text.specs.Lines.{Adds, line_text, text_of};
ghost use Rattle.waff_tool.specs.Comparison.{AreCertifiedTotals, AreListTotals, IsMeasured};
ghost use Rattle.waff_tool.specs.Comparison.{compare_lines, kind_field, measured_line};
ghost use Rattle.waff_tool.specs.Comparison.{measures_header, plan_fields};

use crate::certificates::{bounded_plan, certified_plan};
use std::alloc::{AllocError, Global};
use std::thread;
use std::thread::Threads;
use waff_assign::Case;
use waff_list::Rule;
use waff_model::{Kind, Layout, Version};
use waff_plan::{Totals, Workers};

/// What is told of a trace under one hierarchy: of its unlimited plan and of its list plan.
#[derive(Clone, Copy)]
pub struct Measured {
    pub kind: Kind,
    pub unlimited: Totals,
    pub listed: Totals,
}

/// What is told of the trace with its affinities under the tree of a hierarchy, for k workers.
pub fn measure(
    alloc: Global,
    layout: &Layout,
    case: &Case<'_>,
    k: Workers,
) -> Result<Measured, AllocError>
    requires tree { case.now.tree.now ≡ layout.now.tree }
    ensures { IfOk result (IsMeasured layout.now case.now.assigned.now
        case.now.trace.now k) }
{
    Ok(Measured {
        kind: layout.kind(),
        unlimited: unlimited_totals(alloc, case)?,
        listed: list_totals(alloc, case, k)?,
    })
}

/// What `measure` tells. Each of the two plans is made in a thread of its own.
pub fn measure_side_by_side<R: Threads + Sync>(
    rt: &R,
    alloc: Global,
    layout: &Layout,
    case: &Case<'_>,
    k: Workers,
) -> Result<Measured, AllocError>
    requires tree { case.now.tree.now ≡ layout.now.tree }
    ensures { IfOk result (IsMeasured layout.now case.now.assigned.now
        case.now.trace.now k) }
{
    let k = &k;
    let without_workers = move || -> Result<Totals, AllocError>
        ensures { IfOk result (AreCertifiedTotals (instance_of case.entry.now)) }
    { unlimited_totals(alloc, case) };
    let for_workers = move || -> Result<Totals, AllocError>
        ensures { IfOk result (AreListTotals (instance_of case.entry.now) k.entry.now) }
    { list_totals(alloc, case, *k) };
    let (unlimited, listed) = thread::join(rt, without_workers, for_workers);
    Ok(Measured {
        kind: layout.kind(),
        unlimited: unlimited?,
        listed: listed?,
    })
}

/// What is told of the unlimited plan.
fn unlimited_totals(alloc: Global, case: &Case<'_>) -> Result<Totals, AllocError>
    ensures { IfOk result (AreCertifiedTotals (instance_of case.now)) }
{
    let certified = certified_plan(alloc, case)?;
    let totals = certified.plan.totals(None, certified.chain.messages());
    drop(certified);
    Ok(totals)
}

/// What is told of the list plan for k workers.
fn list_totals(alloc: Global, case: &Case<'_>, k: Workers) -> Result<Totals, AllocError>
    ensures { IfOk result (AreListTotals (instance_of case.now) k) }
{
    let bounded = bounded_plan(alloc, case, Rule::Arrival, k)?;
    let listed = bounded.made.plan();
    let totals = listed.totals(Some(k.number()), bounded.chain.messages());
    drop(bounded);
    Ok(totals)
}

/// The lines of a comparison for k workers.
pub fn comparison_text(
    alloc: Global,
    version: Version,
    k: u32,
    classical: &Measured,
    hierarchical: &Measured,
    refined: Option<bool>,
) -> Result<String, AllocError>
    ensures { IfOk result (λ text. string_bytes text
        ≡ text_of (compare_lines version k classical.now.unlimited.total
        classical.now hierarchical.now refined)) }
{
    let total = classical.unlimited.total;
    let answer = match refined {
        Some(true) => "yes",
        Some(false) => "no",
        None => "-",
    };
    let mut text = String::new(alloc);
    writeln!(text, "workers,{k}\ntotal,{total}")?;
    push_header(&mut text, version)?;
    push_measured(&mut text, version, classical)?;
    push_measured(&mut text, version, hierarchical)?;
    writeln!(text, "refines,{answer}")?;
    Ok(text)
}

/// Appends the line that names what the lines of hierarchies tell.
fn push_header(text: &mut String, version: Version) -> Result<(), AllocError>
    ensures { OnOk result (Adds text.old text.new
        (line_text (measures_header version))) }
{
    text.push_str(if version.has_releases() {
        "model,length,release,chain,list,listrelease,listchain,left,right\n"
    } else {
        "model,length,chain,list,listchain,left,right\n"
    })
}

/// Appends the line of one hierarchy.
fn push_measured(text: &mut String, version: Version, measured: &Measured) -> Result<(), AllocError>
    ensures { OnOk result (Adds text.old text.new
        (line_text (measured_line version measured.now))) }
{
    text.push_str(kind_name(measured.kind))?;
    push_plan(text, version, &measured.unlimited)?;
    push_plan(text, version, &measured.listed)?;
    writeln!(text, ",{},{}", measured.listed.left, measured.listed.right)
}

/// Appends what is told of one plan, with a comma before each field.
fn push_plan(text: &mut String, version: Version, plan: &Totals) -> Result<(), AllocError>
    ensures { OnOk result (Adds text.old text.new
        (44 ∷ join_with_byte 44 (plan_fields version plan.now))) }
{
    if version.has_releases() {
        write!(text, ",{},{},{}", plan.length, plan.release, plan.cost)
    } else {
        write!(text, ",{},{}", plan.length, plan.cost)
    }
}

/// The name of a model.
pub fn kind_name(kind: Kind) -> &'static str
    ensures { result.now ≡ kind_field kind }
{
    match kind {
        Kind::Classical => "classical",
        Kind::Hierarchical => "hierarchical",
    }
}
