//! What holds of list plans in the order of issue, where messages await others, as those of a client the
//! one before. Each law is a function that does nothing and whose contract is the law, for a tree of
//! affinities and what the messages hold.

ghost use Rattle.std.specs.Prelude.{ℕ, List};
ghost use Rattle.waff_model.specs.Tree.{Node};
ghost use Rattle.waff_plan.specs.Obeys.{AwaitsEarlier};
ghost use Rattle.waff_plan.specs.Work.{Work};
ghost use Rattle.waff_list.specs.ByIssue.{ByIssueIsByArrival, ClientTailsAreOne};
ghost use Rattle.waff_list.specs.ByIssue.{ListPlanByIssueIsOne, ListPlansByIssueAreBounded};
ghost use Rattle.waff_list.specs.ByIssue.{PlanByIssueIsOne};
ghost use Rattle.waff_list.specs.Unique.{EachRuns};
ghost use Rattle.waff_assign.specs.Held.{Held};

/// There is one list plan for a number of workers in the order of issue, by any priority and by each of
/// the rules.
pub fn list_plan_by_issue_is_one()
    ensures priorities { (tree : List Node) (assigned : List Held) (work : Work)
        → AwaitsEarlier work → EachRuns work → ListPlanByIssueIsOne tree assigned work }
    ensures rules { (tree : List Node) (assigned : List Held) (work : Work)
        → AwaitsEarlier work → EachRuns work → PlanByIssueIsOne tree assigned work }
{}

/// The list bound holds in the order of issue, and the plan is at most twice as long as any other for as
/// many workers that serves as it does.
pub fn list_plans_by_issue_are_bounded()
    ensures { (tree : List Node) (assigned : List Held) (work : Work) → AwaitsEarlier work
        → ListPlansByIssueAreBounded tree assigned work }
{}

/// The tail of each message over those that await it, in ticks, is one.
pub fn client_tails_are_one()
    ensures { (work : Work) → AwaitsEarlier work → ClientTailsAreOne work }
{}

/// Without clients and with releases that do not fall the list plan by arrival in the order of issue is
/// that in the order of the trace.
pub fn by_issue_is_by_arrival()
    ensures { (tree : List Node) (assigned : List Held) (work : Work)
        → ByIssueIsByArrival tree assigned work }
{}
