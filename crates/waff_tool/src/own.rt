//! The plans that are printed pass the check. Each law is a function that does nothing and whose
//! contract is the law.

ghost use Rattle.std.specs.Prelude.{ℕ, List};
ghost use Rattle.waff_list.specs.declared.rule.Rule.{Rule};
ghost use Rattle.waff_tool.specs.OwnPlans.{OwnPlanPasses, OwnWorkerPlanPasses};

/// The text of a plan without workers is read, and its verdict is Shortest, or in a trace with clients
/// Tight.
pub fn own_plan_passes()
    ensures passes { (hierarchy_file trace_file text : List ℕ)
        → OwnPlanPasses hierarchy_file trace_file text }
{}

/// The text of a plan for k workers, by whichever rule, is read, and its verdict is one of these or
/// `WithinBound`.
pub fn own_worker_plan_passes()
    ensures passes { (rule : Rule) (hierarchy_file trace_file : List ℕ) (k : ℕ) (text : List ℕ)
        → OwnWorkerPlanPasses rule hierarchy_file trace_file k text }
{}
