//! Where the time goes.
ghost use Rattle.std.specs.Prelude.{◌<◌, ℕ, List, None, Option, Some, IfOk};
ghost use Rattle.std.specs.Prelude.{length, string_bytes};
ghost use Rattle.waff_assign.specs.Case.{instance_of};
ghost use Rattle.waff_plan.specs.Chain.{IsListed};
ghost use Rattle.waff_plan.specs.Planned.{planned_starts, planned_work};
ghost use Rattle.waff_tool.specs.WhereText.{FiguresAreSwept, TellsAffinities};
ghost use Rattle.waff_tool.specs.WhereText.{TellsNames, TellsSpent, TellsWhere};

use crate::certificates::{bounded_plan, certified_plan};
use std::alloc::{AllocError, Global};
use waff_assign::Case;
use waff_figures::laws::{chain_adds_up, costs_add_up, names_add_up};
use waff_figures::part_laws::{affinity_waits_add_up, label_waits_add_up};
use waff_figures::{Columns, Label, affinities_text, names_text};
use waff_list::Rule;
use waff_plan::{Planned, Workers};

/// The text of where the time of a case goes in its plan for this number of workers by this rule, or with
/// no limit on them, where the rule changes nothing: for each affinity, or for each name or client of
/// messages, how many messages there are and what they cost, and how much of that is on the chain of the
/// plan; with figures also how many of them run at once, and how long they wait and take. Under a hierarchy with locks the
/// last line by affinity tells of the messages that have none.
pub(crate) fn spent_text(
    alloc: Global,
    case: &Case<'_>,
    workers: Option<Workers>,
    rule: Rule,
    label: Option<Label>,
    columns: Columns,
    locks: bool,
) -> Result<String, AllocError>
    ensures { IfOk result (λ text.
        TellsWhere locks rule workers label columns (instance_of case.now) (string_bytes text)) }
{
    match workers {
        None => unlimited_text(alloc, case, label, columns, locks),
        Some(k) => worker_text(alloc, case, k, rule, label, columns, locks),
    }
}

/// The text of the unlimited plan.
fn unlimited_text(
    alloc: Global,
    case: &Case<'_>,
    label: Option<Label>,
    columns: Columns,
    locks: bool,
) -> Result<String, AllocError>
    ensures { IfOk result (λ text. (rule : Rule)
        → TellsWhere locks rule None label columns (instance_of case.now) (string_bytes text)) }
{
    let certified = certified_plan(alloc, case)?;
    let planned = Planned {
        case: *case,
        plan: &certified.plan,
    };
    let text = planned_text(
        alloc,
        &planned,
        certified.chain.messages(),
        label,
        columns,
        locks,
    );
    drop(certified);
    text
}

/// The text of the list plan by this rule for k workers.
fn worker_text(
    alloc: Global,
    case: &Case<'_>,
    k: Workers,
    rule: Rule,
    label: Option<Label>,
    columns: Columns,
    locks: bool,
) -> Result<String, AllocError>
    ensures { IfOk result (λ text.
        TellsWhere locks rule (Some k) label columns (instance_of case.now) (string_bytes text)) }
{
    let bounded = bounded_plan(alloc, case, rule, k)?;
    let plan = bounded.made.plan();
    let planned = Planned { case: *case, plan };
    let text = planned_text(
        alloc,
        &planned,
        bounded.chain.messages(),
        label,
        columns,
        locks,
    );
    drop(bounded);
    text
}

/// The text of a plan with a chain.
fn planned_text(
    alloc: Global,
    planned: &Planned<'_>,
    chain: &[u32],
    label: Option<Label>,
    columns: Columns,
    locks: bool,
) -> Result<String, AllocError>
    requires chain { IsListed (planned_work planned.now).count chain.now }
    ensures { IfOk result (λ text. TellsSpent locks label columns (instance_of planned.now.case)
        (planned_starts planned.now) chain.now (string_bytes text)) }
{
    match label {
        None => text_by_affinity(alloc, planned, chain, columns, locks),
        Some(label) => text_by_label(alloc, planned, chain, label, columns),
    }
}

/// The text by affinity.
fn text_by_affinity(
    alloc: Global,
    planned: &Planned<'_>,
    chain: &[u32],
    columns: Columns,
    locks: bool,
) -> Result<String, AllocError>
    requires chain { IsListed (planned_work planned.now).count chain.now }
    ensures { IfOk result (λ text. TellsAffinities locks columns (instance_of planned.now.case)
        (planned_starts planned.now) chain.now (string_bytes text)) }
{
    let _affinities = planned.case.tree.len();
    costs_add_up();
    chain_adds_up();
    affinity_waits_add_up();
    affinities_text(alloc, planned, chain, columns, locks)
}

/// The text by a label of messages.
fn text_by_label(
    alloc: Global,
    planned: &Planned<'_>,
    chain: &[u32],
    label: Label,
    columns: Columns,
) -> Result<String, AllocError>
    requires chain { IsListed (planned_work planned.now).count chain.now }
    ensures { IfOk result (λ text. TellsNames label columns (instance_of planned.now.case)
        (planned_starts planned.now) chain.now (string_bytes text)) }
{
    names_add_up();
    label_waits_add_up();
    names_text(alloc, planned, chain, label, columns)
}

/// With figures the waits that it tells add up to the `waits` of each line of a sweep by the same rule
/// for as many workers.
pub fn figures_are_swept()
    ensures equal { (rule : Rule) (hierarchy_file trace_file : List ℕ) (workers : Option ℕ)
        (label : Option Label) → FiguresAreSwept rule hierarchy_file trace_file workers label }
{}
