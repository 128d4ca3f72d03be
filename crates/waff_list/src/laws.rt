//! What holds of the plans that follow the list rule, whoever made them, and whatever the priority
//! of the messages. Each law is a function that does nothing and whose contract is the law, for the
//! ordered pairs of a tree of affinities and what the messages hold.

ghost use Rattle.std.specs.Prelude.{◌≡◌, ℕ, List, length};
ghost use Rattle.waff_model.specs.Tree.{Node};
ghost use Rattle.waff_assign.specs.Order.{IsOrdered, Path};
ghost use Rattle.waff_plan.specs.Obeys.{AwaitsEarlier};
ghost use Rattle.waff_plan.specs.Work.{Work};
ghost use Rattle.waff_order.specs.Needs.{IsNeed, AreNeeds};
ghost use Rattle.waff_list.specs.Rules.{IsPlanBy};
ghost use Rattle.waff_list.specs.Bound.{BusyPlansAreWithinBound};
ghost use Rattle.waff_list.specs.declared.rule.Rule.{Rule};
ghost use Rattle.waff_assign.specs.Held.{Held};

/// The list bound: k times the length of a list plan, or of any other plan in which no worker idles
/// while a message is ready, is at most the total, k times the release of
/// its printed chain, and k - 1 times the cost of that chain.
pub fn list_plans_are_within_bound()
    ensures { (tree : List Node) (assigned : List Held) (work : Work) → length assigned ≡ work.count
        → AwaitsEarlier work → BusyPlansAreWithinBound (IsOrdered tree assigned) work }
{}

/// The plan by a rule over the paths through the needs of messages is the plan by that rule over
/// their ordered pairs.
pub fn needs_make_the_same_plans()
    ensures { (tree : List Node) (assigned : List Held)
        (needs : List (List ℕ)) (work : Work) (rule : Rule) (k : ℕ) (start : ℕ → ℕ)
        → AreNeeds tree assigned needs → IsPlanBy rule (Path (IsNeed needs)) work k start
        → IsPlanBy rule (IsOrdered tree assigned) work k start }
{}
