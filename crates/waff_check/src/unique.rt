//! That the definitions leave no choice. The law is a function that does nothing and whose contract
//! is the law.

ghost use Rattle.waff_check.specs.Unique.{VerdictIsOne};
ghost use Rattle.waff_check.specs.Verdicts.{Claim};

/// A given plan has one verdict.
pub fn verdict_is_one()
    ensures equal { (claim : Claim) → VerdictIsOne claim }
{}
