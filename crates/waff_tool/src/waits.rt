//! Who waits for whom, and the messages that take longest.
ghost use Rattle.std.specs.Prelude.{◌≡◌, ◌<◌, ℕ, List, Option, IfOk};
ghost use Rattle.std.specs.Prelude.{None, Some, length, string_bytes};
ghost use Rattle.waff_model.specs.Messages.{sizes_of};
ghost use Rattle.waff_assign.specs.Case.{instance_of};
ghost use Rattle.waff_assign.specs.Lowest.{ListsLocks};
ghost use Rattle.waff_plan.specs.Obeys.{Obeys};
ghost use Rattle.waff_plan.specs.Planned.{planned_order, planned_starts, planned_work};
ghost use Rattle.waff_tool.specs.WaitsText.{IsPlanFor, WaitsAreSwept};
ghost use Rattle.waff_tool.specs.WorstText.{TellsWaiting, WorstIsSwept};

use std::alloc::{AllocError, Global};
use waff_assign::{Case, lock_cells};
use waff_figures::wait_laws::ticks_add_up;
use waff_figures::{Grouping, LockCells, waiting_text, worst_messages_text};
use waff_list::{Rule, list_plan_of};
use waff_model::{Cell, Layout, Trace};
use waff_plan::unlimited::plan;
use waff_plan::{Planned, Workers};

/// What is told of the waits of a plan.
#[derive(Clone, Copy)]
pub enum Waiting {
    /// For each pair of affinities, or for each pair of names and affinities, how many messages of the one
    /// wait for messages of the other or for a worker, and how long; where there are locks, by the space of the lock.
    Rows(Grouping),
    /// At most so many messages, those of greatest latency: when each is issued, is ready, starts and has
    /// finished, which message it waited for, and by the lock of which cell.
    Worst(u32),
}

/// The text of who waits in the plan of a case for this number of workers by this rule, or with no limit
/// on them, where the rule changes nothing.
pub(crate) fn waited_text(
    alloc: Global,
    layout: &Layout,
    case: &Case<'_>,
    workers: Option<Workers>,
    rule: Rule,
    what: Waiting,
) -> Result<String, AllocError>
    requires fits { case.now.trace.now.sizes ≡ sizes_of layout.now.spaces }
    ensures { IfOk result (λ text. TellsWaiting what rule workers layout.now (instance_of case.now)
        (string_bytes text)) }
{
    let cells = cells_with_locks(alloc, layout, case.trace)?;
    let locks = LockCells {
        layout,
        cells: cells.as_slice(),
        are_some: layout.has_locks(),
    };
    let text = text_by(alloc, case, &locks, workers, rule, what);
    drop(cells);
    text
}

/// The cells with locks that messages name, which number these: found without a look at the messages where there are
/// none.
fn cells_with_locks(alloc: Global, layout: &Layout, trace: &Trace) -> Result<Vec<Cell>, AllocError>
    requires fits { trace.now.sizes ≡ sizes_of layout.now.spaces }
    ensures { IfOk result (λ cells. ListsLocks layout.now trace.now.messages cells.items) }
{
    if layout.has_locks() {
        lock_cells(alloc, layout, trace)
    } else {
        Ok(Vec::new(alloc))
    }
}

/// The text by these locks.
fn text_by(
    alloc: Global,
    case: &Case<'_>,
    locks: &LockCells<'_>,
    workers: Option<Workers>,
    rule: Rule,
    what: Waiting,
) -> Result<String, AllocError>
    requires listed { ListsLocks locks.now.layout.now case.now.trace.now.messages locks.now.cells.now }
    ensures { IfOk result (λ text. TellsWaiting what rule workers locks.now.layout.now
        (instance_of case.now) (string_bytes text)) }
{
    match workers {
        None => unlimited_waits(alloc, case, locks, what),
        Some(k) => worker_waits(alloc, case, locks, k, rule, what),
    }
}

/// The text of the unlimited plan.
fn unlimited_waits(
    alloc: Global,
    case: &Case<'_>,
    locks: &LockCells<'_>,
    what: Waiting,
) -> Result<String, AllocError>
    requires listed { ListsLocks locks.now.layout.now case.now.trace.now.messages locks.now.cells.now }
    ensures { IfOk result (λ text. (rule : Rule) → TellsWaiting what rule None locks.now.layout.now
        (instance_of case.now) (string_bytes text)) }
{
    let plan = plan(alloc, case.tree, case.assigned, case.trace)?;
    let planned = Planned {
        case: *case,
        plan: &plan,
    };
    let text = planned_waits(alloc, &planned, locks, what);
    drop(plan);
    text
}

/// The text of the list plan by this rule for k workers.
fn worker_waits(
    alloc: Global,
    case: &Case<'_>,
    locks: &LockCells<'_>,
    k: Workers,
    rule: Rule,
    what: Waiting,
) -> Result<String, AllocError>
    requires listed { ListsLocks locks.now.layout.now case.now.trace.now.messages locks.now.cells.now }
    ensures { IfOk result (λ text. TellsWaiting what rule (Some k) locks.now.layout.now
        (instance_of case.now) (string_bytes text)) }
{
    let made = list_plan_of(alloc, *case, rule, k.number())?;
    let plan = made.plan();
    let planned = Planned { case: *case, plan };
    let text = planned_waits(alloc, &planned, locks, what);
    drop(made);
    text
}

/// The text of a plan that obeys.
fn planned_waits(
    alloc: Global,
    planned: &Planned<'_>,
    locks: &LockCells<'_>,
    what: Waiting,
) -> Result<String, AllocError>
    requires obeys { Obeys (planned_order planned.now) (planned_work planned.now)
        (planned_starts planned.now) }
    requires listed { ListsLocks locks.now.layout.now planned.now.case.trace.now.messages
        locks.now.cells.now }
    ensures { IfOk result (λ text. (rule : Rule) (workers : Option ℕ)
        → IsPlanFor rule (instance_of planned.now.case) workers (planned_starts planned.now)
        → TellsWaiting what rule workers locks.now.layout.now (instance_of planned.now.case)
        (string_bytes text)) }
{
    let _messages = planned.plan.len();
    ticks_add_up();
    match what {
        Waiting::Rows(grouping) => waiting_text(alloc, planned, grouping, locks),
        Waiting::Worst(most) => worst_messages_text(alloc, planned, most, locks),
    }
}

/// The ticks that it tells add up to the `waits` of each line of a sweep by the same rule for as many
/// workers.
pub fn waits_are_swept()
    ensures equal { (rule : Rule) (hierarchy_file trace_file : List ℕ) (workers : Option ℕ)
        (grouping : Grouping) → WaitsAreSwept rule hierarchy_file trace_file workers grouping }
{}

/// The latency of its first line is the greatest that a sweep tells of the same plan.
pub fn worst_is_swept()
    ensures equal { (rule : Rule) (hierarchy_file trace_file : List ℕ) (limit : Option ℕ)
        (most : ℕ) → WorstIsSwept rule hierarchy_file trace_file limit most }
{}
