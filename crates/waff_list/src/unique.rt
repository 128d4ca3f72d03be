//! That the definitions leave no choice. Each law is a function that does nothing and whose
//! contract is the law.

ghost use Rattle.std.specs.Prelude.{◌≡◌, ℕ, ◌<◌, ◌↔◌, List, length};
ghost use Rattle.waff_model.specs.Tree.{Node};
ghost use Rattle.waff_assign.specs.Order.{IsOrdered, Path};
ghost use Rattle.waff_plan.specs.Obeys.{AwaitsEarlier};
ghost use Rattle.waff_plan.specs.Work.{Work};
ghost use Rattle.waff_order.specs.Needs.{IsNeed, AreNeeds};
ghost use Rattle.waff_list.specs.ListRule.{IsTakenFirst, IsListPlan, arrival};
ghost use Rattle.waff_list.specs.Unique.{EachRuns, IsTotalOrder, ListPlanIsOne, RulePlanIsOne};
ghost use Rattle.waff_list.specs.Unique.{ListPlansAreShared, SeatsAreOne, OrderIsOne};
ghost use Rattle.waff_assign.specs.Held.{Held};

/// Of two messages one is taken first, whatever their priority; by arrival it is the one that arrived
/// first.
pub fn one_is_taken_first()
    ensures order { (priority : ℕ → ℕ) → IsTotalOrder (IsTakenFirst priority) }
    ensures arrival { (i j : ℕ) → IsTakenFirst arrival i j ↔ (i < j) }
{}

/// The list plan for a number of workers is one: over the ordered pairs, over the paths through
/// needs, whichever needs they are, and by each of the rules.
pub fn list_plan_is_one()
    ensures pairs { (tree : List Node) (assigned : List Held) (work : Work)
        (priority other : ℕ → ℕ) → length assigned ≡ work.count → AwaitsEarlier work
        → EachRuns work → ListPlanIsOne
        (IsOrdered tree assigned) (IsTakenFirst priority) (IsTakenFirst other) work }
    ensures needs { (tree : List Node) (assigned : List Held) (needs : List (List ℕ)) (work : Work)
        (priority other : ℕ → ℕ) → length assigned ≡ work.count → AwaitsEarlier work
        → EachRuns work → AreNeeds tree assigned needs → ListPlanIsOne
        (Path (IsNeed needs)) (IsTakenFirst priority) (IsTakenFirst other) work }
    ensures rules { (tree : List Node) (assigned : List Held) (work : Work)
        → length assigned ≡ work.count → AwaitsEarlier work
        → EachRuns work → RulePlanIsOne (IsOrdered tree assigned) work }
{}

/// Pairs with the same paths have the same list plans: any two sets of pairs, each given as lists
/// of needs; those of two hierarchies; and the needs and the ordered pairs of one.
pub fn same_paths_have_the_same_plans()
    ensures sets { (needs others : List (List ℕ)) (work : Work) (priority : ℕ → ℕ)
        → ListPlansAreShared (IsNeed needs) (IsNeed others) (IsTakenFirst priority) work }
    ensures hierarchies { (tree other_tree : List Node)
        (assigned other_assigned : List Held) (work : Work) (priority : ℕ → ℕ)
        → ListPlansAreShared (IsOrdered tree assigned) (IsOrdered other_tree other_assigned)
        (IsTakenFirst priority) work }
    ensures needs { (tree : List Node) (assigned : List Held) (needs : List (List ℕ)) (work : Work)
        (priority : ℕ → ℕ) (k : ℕ) (start : ℕ → ℕ) → AreNeeds tree assigned needs
        → IsListPlan (Path (IsNeed needs)) (IsTakenFirst priority) work k start
        ↔ IsListPlan (IsOrdered tree assigned) (IsTakenFirst priority) work k start }
{}

/// The workers of the messages of a plan are one.
pub fn seats_are_one()
    ensures same { (work : Work) → SeatsAreOne work }
{}

/// The order of the messages of a plan is one.
pub fn order_is_one()
    ensures equal { (work : Work) → OrderIsOne work }
{}
