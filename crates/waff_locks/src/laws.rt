//! Laws of what is told of locks. Each law is a function that does nothing and whose contract is the law.

ghost use Rattle.waff_model.specs.Layout.{Hierarchy};
ghost use Rattle.waff_model.specs.Messages.{Arrivals};
ghost use Rattle.waff_locks.specs.Laws.{FiguresAreOne, TextIsOne};
ghost use Rattle.waff_locks.specs.declared.wanted.Wanted.{Wanted};

/// The figures of a trace under a hierarchy are one.
pub fn figures_are_one()
    ensures equal { (wanted : Wanted) (layout : Hierarchy) (trace : Arrivals) → FiguresAreOne wanted layout trace }
{}

/// What is told of locks is one text.
pub fn locks_text_is_one()
    ensures equal { (wanted : Wanted) (layout : Hierarchy) (trace : Arrivals) → TextIsOne wanted layout trace }
{}
