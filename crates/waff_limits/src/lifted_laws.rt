//! What holds of messages that run high, and of the cells that lift them. Each law is a function that does nothing and whose contract
//! is the law.

ghost use Rattle.std.specs.Prelude.{◌≡◌, ℕ, Bool, List};
ghost use Rattle.std.specs.Cmp.{IsEquivalence};
ghost use Rattle.waff_model.specs.Layout.{Hierarchy};
ghost use Rattle.waff_model.specs.Tree.{IsTree};
ghost use Rattle.waff_model.specs.Unique.{AtMostOne};
ghost use Rattle.waff_model.specs.declared.cell.Cell.{Cell};
ghost use Rattle.waff_model.specs.declared.message.Message.{Message};
ghost use Rattle.waff_limits.specs.Lifted.{AreLifts};
ghost use Rattle.waff_limits.specs.LiftedLaws.{AloneIsOwner, AreTold, LiftingIsOne, SomeLift};
ghost use Rattle.waff_limits.specs.WhyRows.{AreRows};
ghost use Rattle.waff_limits.specs.declared.lifted.Lift.{Lift};
ghost use Rattle.waff_limits.specs.declared.why_rows.Row.{Row};
ghost use Rattle.waff_assign.specs.Held.{Held};

/// Whatever a message uses, two of its cells lift it to its affinity: the affinity is the lowest at or above their owners.
pub fn some_cells_lift()
    ensures { (layout : Hierarchy) (cells : List Cell) → SomeLift layout cells }
{}

/// These two are the only ones.
pub fn lifting_is_one()
    ensures equal { (layout : Hierarchy) (cells : List Cell) → LiftingIsOne layout cells }
{}

/// The first cell lifts alone exactly where its owner is the affinity.
pub fn alone_is_owner()
    ensures { (layout : Hierarchy) (cells : List Cell) → AloneIsOwner layout cells }
{}

/// What is told of the messages of a trace that run high is one list.
pub fn lifts_are_one()
    ensures equal { (layout : Hierarchy) (messages : List Message) (assigned : List Held)
        → AtMostOne (AreLifts layout messages assigned) }
{}

/// The rows of such messages are one list.
pub fn rows_are_one()
    ensures equal { (alike : Lift → Lift → Bool) (lifts : List Lift) → AtMostOne (AreRows alike lifts) }
{}

/// Each of them is told of in one row: the messages of the rows add up to all of them, and their costs to those of all.
pub fn lifts_add_up()
    ensures { (alike : Lift → Lift → Bool) (lifts : List Lift) (rows : List Row)
        → IsEquivalence alike → AreRows alike lifts rows → AreTold alike lifts rows }
{}
