//! That the definitions leave no choice. Each law is a function that does nothing and whose
//! contract is the law.

ghost use Rattle.std.specs.Prelude.{List};
ghost use Rattle.waff_model.specs.Layout.{Hierarchy};
ghost use Rattle.waff_model.specs.Tree.{IsTree};
ghost use Rattle.waff_model.specs.declared.cell.Cell.{Cell};
ghost use Rattle.waff_model.specs.declared.message.Message.{Message};
ghost use Rattle.waff_assign.specs.Unique.{AssignmentIsOne, FirstOfContendedIsOne, LowestIsOne};

/// The lowest affinity that covers a footprint is one.
pub fn lowest_is_one()
    ensures equal { (layout : Hierarchy) (cells : List Cell) → IsTree layout.tree
        → LowestIsOne layout cells }
{}

/// The assignment of a trace is one.
pub fn assignment_is_one()
    ensures equal { (layout : Hierarchy) (messages : List Message) → IsTree layout.tree
        → AssignmentIsOne layout messages }
{}

/// The first lock for which two messages contend is one.
pub fn first_of_contended_is_one()
    ensures equal { FirstOfContendedIsOne }
{}
