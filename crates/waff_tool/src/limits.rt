//! What limits a workload.
ghost use Rattle.std.specs.Prelude.{◌≡◌, ◌<◌, ℕ, List, IfOk, Option};
ghost use Rattle.std.specs.Prelude.{length, string_bytes};
ghost use Rattle.waff_model.specs.Messages.{sizes_of};
ghost use Rattle.waff_assign.specs.Case.{instance_of};
ghost use Rattle.waff_assign.specs.Lowest.{IsAssignment};
ghost use Rattle.waff_model.specs.declared.locking.Locking.{Locking};
ghost use Rattle.waff_tool.specs.LocksText.{LocksAreOfLimits};
ghost use Rattle.waff_tool.specs.LimitsText.{AfterIsBetweenInText, DataBoundsTexts};
ghost use Rattle.waff_tool.specs.LimitsText.{LimitsAreSwept, NoneIsBelowText};
ghost use Rattle.waff_tool.specs.LimitsText.{OrderIsBetweenInText, OrderIsShortestInText};
ghost use Rattle.waff_tool.specs.LimitsText.{TellsLimits, TreeIsReachedInText};

use std::alloc::{AllocError, Global};
use std::thread::Threads;
use waff_assign::Case;
use waff_figures::list_figures;
use waff_limits::laws::{after_is_not_below, no_lists_add_nothing, path_is_reached};
use waff_limits::{limits_of, limits_text};
use waff_list::Rule;
use waff_model::Layout;
use waff_plan::unlimited::plan;
use waff_plan::{Planned, Workers};

/// The text of what limits a case over this layout: for each of these numbers of workers their share of
/// the costs, then what the clients, the lists of messages that are awaited, the cells, the tree of affinities, the
/// locks and the order of service allow, and the length of the plan by this rule for each number of workers.
pub(crate) fn limited_text<R: Threads + Sync>(
    rt: &R,
    alloc: Global,
    layout: &Layout,
    case: &Case<'_>,
    workers: &[Workers],
    rule: Rule,
) -> Result<String, AllocError>
    requires fits { case.now.trace.now.sizes ≡ sizes_of layout.now.spaces }
    requires assignment { IsAssignment layout.now case.now.trace.now.messages case.now.assigned.now }
    ensures { IfOk result (λ text. TellsLimits rule workers.now layout.now.spaces
        (instance_of case.now) (string_bytes text)) }
{
    let plan = plan(alloc, case.tree, case.assigned, case.trace)?;
    let planned = Planned {
        case: *case,
        plan: &plan,
    };
    let limits = limits_of(alloc, layout, &planned)?;
    let listed = list_figures(rt, alloc, &planned, rule, workers)?;
    let text = limits_text(alloc, layout, &planned, workers, &limits, listed.as_slice());
    drop(listed);
    drop(plan);
    text
}

/// No plan for as many workers that obeys, in whatever order it serves, is shorter than the greatest of what it tells of workers, clients,
/// lists, cells, the tree and the locks.
pub fn none_is_below_text()
    ensures { (rule : Rule) (hierarchy_file trace_file : List ℕ)
        → NoneIsBelowText rule hierarchy_file trace_file }
{}

/// That greatest is the `least` of a sweep, where messages have clients.
pub fn limits_are_swept()
    ensures { (rule sweep_rule : Rule) (hierarchy_file trace_file : List ℕ)
        → LimitsAreSwept rule sweep_rule hierarchy_file trace_file }
{}

/// No plan that keeps the order of the unlimited plan is shorter than what it tells of the order.
pub fn order_is_shortest_in_text()
    ensures { (rule : Rule) (hierarchy_file trace_file : List ℕ)
        → OrderIsShortestInText rule hierarchy_file trace_file }
{}

/// What it tells of the order is no less than what it tells of clients, lists, cells, the tree and the locks, and without clients no more than it
/// tells of the plans.
pub fn order_is_between()
    ensures { (rule : Rule) (hierarchy_file trace_file : List ℕ)
        → OrderIsBetweenInText rule hierarchy_file trace_file }
{}

/// What it tells of lists is no less than what it tells of clients, and no more than what it tells of the order. Where no message has a
/// list it is what it tells of clients.
pub fn after_is_between()
    ensures { (rule : Rule) (hierarchy_file trace_file : List ℕ)
        → AfterIsBetweenInText rule hierarchy_file trace_file }
{
    after_is_not_below();
    no_lists_add_nothing();
}

/// Where no message has a release, a think time, a client or a list, and no space has locks, a plan that obeys in some order is as long as what it tells of the tree.
pub fn tree_is_reached_in_text()
    ensures { (rule : Rule) (hierarchy_file trace_file : List ℕ)
        → TreeIsReachedInText rule hierarchy_file trace_file }
{
    path_is_reached();
}

/// What it tells of the writes is the same under every hierarchy of the same spaces, whatever their locks, and there what it tells of the
/// data is no less. Where no more spaces have shared locks, the greater of what it tells there of the tree and of the locks is no less than
/// the data; where the same have, the data are the same.
pub fn data_bounds_texts()
    ensures { (rule other_rule : Rule) (hierarchy_file other_file trace_file : List ℕ)
        → DataBoundsTexts rule other_rule hierarchy_file other_file trace_file }
{}

/// What `locks` tells in a line is what it tells under the hierarchy that the line names: of the tree, the locks and the order, and of the
/// plan for as many workers by the same rule.
pub fn locks_are_of_limits()
    ensures { (workers : Option ℕ) (rule : Rule) (kind : Locking) (steps : ℕ) (hierarchy_file trace_file : List ℕ)
        → LocksAreOfLimits workers rule kind steps hierarchy_file trace_file }
{}
