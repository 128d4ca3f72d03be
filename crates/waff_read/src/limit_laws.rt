//! That what is read is within the limits. Each law is a function that does nothing and whose
//! contract is the law.

ghost use Rattle.std.specs.Prelude.{ℕ, List};
ghost use Rattle.waff_model.specs.Layout.{Space, Hierarchy};
ghost use Rattle.waff_model.specs.Messages.{Arrivals};
ghost use Rattle.waff_model.specs.declared.message.Version.{Version};
ghost use Rattle.waff_read.specs.Limits.{LayoutIsWithinLimits, TraceIsWithinLimits};

/// A layout that is read is within the limits.
pub fn layout_is_within_limits()
    ensures limits { (bytes : List ℕ) (layout : Hierarchy) → LayoutIsWithinLimits bytes layout }
{}

/// A trace that is read is within the limits.
pub fn trace_is_within_limits()
    ensures limits { (newest : Version) (spaces : List Space) (bytes : List ℕ) (trace : Arrivals)
        → TraceIsWithinLimits newest spaces bytes trace }
{}
