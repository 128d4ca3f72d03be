//! What holds of plans in the order in which they start messages that exclude each other, where the
//! messages of a client follow one another. Each law is a function that does nothing and whose contract
//! is the law, for a tree of affinities and the affinities assigned to messages that each run.

ghost use Rattle.std.specs.Prelude.{◌≡◌, ℕ, ◌↔◌, List, length};
ghost use Rattle.waff_model.specs.Tree.{Node};
ghost use Rattle.waff_assign.specs.Order.{IsOrdered};
ghost use Rattle.waff_plan.specs.Work.{Work};
ghost use Rattle.waff_plan.specs.Apart.{AreApart};
ghost use Rattle.waff_plan.specs.Issues.{IsServedBefore};
ghost use Rattle.waff_plan.specs.IssueLaws.{IsLawful};
ghost use Rattle.waff_plan.specs.Obeys.{EachRuns, AwaitsEarlier, IsForward, Obeys, StartsIssued};
ghost use Rattle.waff_plan.specs.ServesAs.{ObeysApart, ServesAs};
ghost use Rattle.waff_plan.specs.Serving.{IsStartedBefore};
ghost use Rattle.waff_assign.specs.Held.{Held};

/// Messages have places in the order of the starts of a plan.
pub fn started_pairs_are_forward()
    ensures { (tree : List Node) (assigned : List Held) (work : Work) (start : ℕ → ℕ)
        → length assigned ≡ work.count → EachRuns work → AwaitsEarlier work
        → StartsIssued work start → IsForward (IsStartedBefore tree assigned start) work }
{}

/// The laws of plans hold in the order of the starts of a plan: of its chains, and of all plans that
/// obey that order.
pub fn start_is_lawful()
    ensures { (tree : List Node) (assigned : List Held) (work : Work) (start : ℕ → ℕ)
        → length assigned ≡ work.count → EachRuns work → AwaitsEarlier work
        → StartsIssued work start → IsLawful (IsStartedBefore tree assigned start) work }
{}

/// A plan that obeys in whatever order obeys the order of its starts.
pub fn plans_obey_their_starts()
    ensures { (tree : List Node) (assigned : List Held) (work : Work) (start : ℕ → ℕ)
        → length assigned ≡ work.count → EachRuns work → ObeysApart tree assigned work start
        → Obeys (IsStartedBefore tree assigned start) work start }
{}

/// So does a plan that serves as it does.
pub fn serving_plans_obey()
    ensures { (tree : List Node) (assigned : List Held) (work : Work) (start other : ℕ → ℕ)
        → length assigned ≡ work.count → EachRuns work → ServesAs tree assigned work start other
        → Obeys (IsStartedBefore tree assigned start) work other }
{}

/// In a plan that obeys the order in which it issues messages no two that exclude each other run at a
/// common tick.
pub fn served_plans_are_apart()
    ensures { (tree : List Node) (assigned : List Held) (work : Work) (start : ℕ → ℕ)
        → length assigned ≡ work.count → EachRuns work
        → Obeys (IsServedBefore tree assigned work start) work start
        → AreApart (IsOrdered tree assigned) work start }
{}

/// It starts first what it issues first.
pub fn served_is_started()
    ensures { (tree : List Node) (assigned : List Held) (work : Work) (start : ℕ → ℕ)
        → length assigned ≡ work.count → EachRuns work
        → Obeys (IsServedBefore tree assigned work start) work start
        → (i j : ℕ) → IsServedBefore tree assigned work start i j
        ↔ IsStartedBefore tree assigned start i j }
{}
