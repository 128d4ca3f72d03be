//! What holds of the meaning of messages and of states, whoever runs them. Each law is a function
//! that does nothing and whose contract is the law.

ghost use Rattle.std.specs.Prelude.{ℕ, List};
ghost use Rattle.waff_model.specs.Tree.{Node};
ghost use Rattle.waff_model.specs.Layout.{Hierarchy, Space};
ghost use Rattle.waff_model.specs.declared.op.Op.{Op};
ghost use Rattle.waff_cells.specs.Meaning.{Cells};
ghost use Rattle.waff_cells.specs.Laws.{OtherCellsStay, NamedCellsDecide, ThoseAboveExclude};
ghost use Rattle.waff_cells.specs.Laws.{OthersLeaveParcel, StateIsOne, ParcelIsOne};

/// A cell that operations do not name stays as it was.
pub fn other_cells_stay()
    ensures { (ops : List Op) → OtherCellsStay ops }
{}

/// What operations leave in the cells that they name depends on those cells alone.
pub fn named_cells_decide()
    ensures { (ops : List Op) → NamedCellsDecide ops }
{}

/// Messages whose affinities are at or above one affinity exclude each other.
pub fn those_above_exclude()
    ensures { (tree : List Node) → ThoseAboveExclude tree }
{}

/// Any other message leaves the parcel of that affinity as it was.
pub fn others_leave_parcel()
    ensures { (layout : Hierarchy) (ops : List Op) → OthersLeaveParcel layout ops }
{}

/// The state that holds given numbers is one, so the state that messages leave is one.
pub fn state_is_one()
    ensures { (sizes : List ℕ) (cells : Cells) → StateIsOne sizes cells }
{}

/// The parcel that holds given numbers is one.
pub fn parcel_is_one()
    ensures { (spaces : List Space) (a : ℕ) (cells : Cells) → ParcelIsOne spaces a cells }
{}
