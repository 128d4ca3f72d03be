//! What holds of the places of cells and of what is listed of them. Each law is a function that does nothing and whose contract is the law.

ghost use Rattle.std.specs.Prelude.{ℕ, List, Option};
ghost use Rattle.waff_model.specs.Layout.{Hierarchy};
ghost use Rattle.waff_model.specs.Unique.{AtMostOne};
ghost use Rattle.waff_model.specs.declared.cell.Cell.{Cell};
ghost use Rattle.waff_model.specs.declared.op.Op.{Op};
ghost use Rattle.waff_run.specs.Calls.{AreOneCall};
ghost use Rattle.waff_run.specs.Named.{AreEnds, ListsSpots};
ghost use Rattle.waff_run.specs.PlaceLaws.{CellsAreApart, CellsLieInFiles, CommonCellsAreRead, FilesAreApart};
ghost use Rattle.waff_run.specs.PlaceLaws.{FilesHaveOneOwner, MessagesAreApart, PlacesAreFound};
ghost use Rattle.waff_run.specs.Places.{Placing};
ghost use Rattle.waff_run.specs.Same.{IsFirstOfTwo};
ghost use Rattle.waff_run.specs.Syncing.{ListsOnce};
ghost use Rattle.waff_run.specs.declared.same.Identity.{Identity};

/// Two cells of a layout have no byte in common.
pub fn cells_are_apart()
    ensures { (layout : Hierarchy) (bytes : ℕ) → CellsAreApart layout bytes }
{}

/// Cells that lie in one file have one owner.
pub fn files_have_one_owner()
    ensures { (layout : Hierarchy) (bytes : ℕ) → FilesHaveOneOwner layout bytes }
{}

/// Messages that do not exclude each other, by their affinities or at all, have no file of a space without locks in
/// common.
pub fn files_are_apart()
    ensures affinities { (layout : Hierarchy) (bytes : ℕ) → FilesAreApart layout bytes }
    ensures messages { (layout : Hierarchy) (bytes : ℕ) → MessagesAreApart layout bytes }
{}

/// A cell that messages have in common which do not exclude each other is one of a space with shared locks, and both only
/// read it.
pub fn common_cells_are_read()
    ensures { (layout : Hierarchy) → CommonCellsAreRead layout }
{}

/// Each cell of a layout lies in one of its files.
pub fn cells_lie_in_files()
    ensures { (layout : Hierarchy) (bytes : ℕ) → CellsLieInFiles layout bytes }
{}

/// The file for a place of the list of a space's map is told as that one.
pub fn places_are_found()
    ensures { (layout : Hierarchy) (bytes : ℕ) → PlacesAreFound layout bytes }
{}

/// The ends of cells in files are one list.
pub fn ends_are_one()
    ensures { (placing : Placing) (cells : List Cell) → AtMostOne (AreEnds placing cells) }
{}

/// The places of cells, each once, in order, are one list.
pub fn spots_are_one()
    ensures { (placing : Placing) (cells : List Cell) → AtMostOne (ListsSpots placing cells) }
{}

/// Numbers, each once, in order, are one list.
pub fn listed_is_one()
    ensures { (numbers : List ℕ) → AtMostOne (ListsOnce numbers) }
{}

/// How many operations from one on are one call is one number.
pub fn call_is_one()
    ensures { (placing : Placing) (ops : List Op) (from : ℕ) → AtMostOne (AreOneCall placing ops from) }
{}

/// The first of files that is another of them too is one, where there is one.
pub fn first_of_two_is_one()
    ensures { (files : List (Option Identity)) → AtMostOne (IsFirstOfTwo files) }
{}
