//! The verdicts on plans that tell what they are. Each law is a function that does nothing and
//! whose contract is the law.

ghost use Rattle.std.specs.Prelude.{ℕ, List, Option};
ghost use Rattle.waff_assign.specs.Instance.{Instance};
ghost use Rattle.waff_check.specs.OwnPlans.{OwnPlanIsAccepted, OwnPlanIsShortest, OwnPlanIsWithinBound};

/// A plan that obeys the order of its version and tells a chain as long as itself is found shortest, or
/// where messages have clients tight.
pub fn own_plan_is_shortest()
    ensures verdict { (instance : Instance) (start : ℕ → ℕ) (chain : List ℕ)
        → OwnPlanIsShortest instance start chain }
{}

/// A worker plan within the bound of the chain that it tells is found shortest, where messages have clients
/// tight, or within the bound.
pub fn own_plan_is_within_bound()
    ensures verdict { (instance : Instance) (k : ℕ)
        (start : ℕ → ℕ) (worker : ℕ → Option ℕ) (chain : List ℕ)
        → OwnPlanIsWithinBound instance k start worker chain }
{}

/// A worker plan that obeys in the order in which it starts messages, whichever it issues first, and that tells a chain, is
/// found without fault.
pub fn own_plan_is_accepted()
    ensures verdict { (instance : Instance) (k : ℕ)
        (start : ℕ → ℕ) (worker : ℕ → Option ℕ) (chain : List ℕ)
        → OwnPlanIsAccepted instance k start worker chain }
{}
