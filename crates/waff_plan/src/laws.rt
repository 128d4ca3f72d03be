//! What holds of all plans, whoever made them. Each law is a function that does nothing and whose
//! contract is the law, for the ordered pairs of a tree of affinities and of what messages hold under
//! it. The lemmas behind them are of any order in which the messages have places.

ghost use Rattle.std.specs.Prelude.{◌≡◌, ℕ, List, length};
ghost use Rattle.waff_model.specs.Tree.{Node};
ghost use Rattle.waff_assign.specs.Order.{IsOrdered, Refines};
ghost use Rattle.waff_plan.specs.Work.{Work};
ghost use Rattle.waff_plan.specs.Obeys.{AwaitsEarlier};
ghost use Rattle.waff_plan.specs.Laws.{ChainsAreWithinLength, LeastIsShortest, PrintedIsChain};
ghost use Rattle.waff_plan.specs.Laws.{PrintedIsAsLong, TotalIsWithinWorkers, NoneIsShorter};
ghost use Rattle.waff_plan.specs.Laws.{LeastIsNoLonger};
ghost use Rattle.waff_plan.specs.Bound.{BoundIsWithinTwice, BoundIsWithinRatio};
ghost use Rattle.waff_assign.specs.Held.{Held};

/// The certificate: no obeying plan is shorter than the release plus the cost of any chain.
pub fn chains_are_within_length()
    ensures { (tree : List Node) (assigned : List Held) (work : Work)
        → ChainsAreWithinLength (IsOrdered tree assigned) work }
{}

/// The least plan is shortest.
pub fn least_is_shortest()
    ensures { (tree : List Node) (assigned : List Held) (work : Work)
        → LeastIsShortest (IsOrdered tree assigned) work }
{}

/// The printed chain of a plan is a chain.
pub fn printed_is_chain()
    ensures { (tree : List Node) (assigned : List Held) (work : Work) → length assigned ≡ work.count
        → AwaitsEarlier work → PrintedIsChain (IsOrdered tree assigned) work }
{}

/// The printed chain of the least plan certifies its length.
pub fn printed_is_as_long()
    ensures { (tree : List Node) (assigned : List Held) (work : Work) → length assigned ≡ work.count
        → AwaitsEarlier work → PrintedIsAsLong (IsOrdered tree assigned) work }
{}

/// In every worker plan for k the total is at most k times the length.
pub fn total_is_within_workers()
    ensures { (tree : List Node) (assigned : List Held) (work : Work)
        → TotalIsWithinWorkers (IsOrdered tree assigned) work }
{}

/// No worker plan for k is shorter than the least plan, nor than the total over k, rounded up.
pub fn none_is_shorter()
    ensures { (tree : List Node) (assigned : List Held) (work : Work)
        → NoneIsShorter (IsOrdered tree assigned) work }
{}

/// What is within the bound of a chain is at most twice as long as any worker plan for as many
/// workers.
pub fn bound_is_within_twice()
    ensures { (tree : List Node) (assigned : List Held) (work : Work)
        → BoundIsWithinTwice (IsOrdered tree assigned) work }
{}

/// Where no message has a release or a think time, it is at most 2 - 1/k times as long.
pub fn bound_is_within_ratio()
    ensures { (tree : List Node) (assigned : List Held) (work : Work)
        → BoundIsWithinRatio (IsOrdered tree assigned) work }
{}

/// Where one hierarchy refines another on a trace, its least plan is no longer than that of the
/// other.
pub fn refined_is_no_longer()
    ensures { (tree coarse_tree : List Node) (assigned coarse_assigned : List Held) (work : Work)
        → Refines tree assigned coarse_tree coarse_assigned
        → LeastIsNoLonger (IsOrdered tree assigned) (IsOrdered coarse_tree coarse_assigned) work }
{}
