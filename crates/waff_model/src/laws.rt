//! What holds of the parcels of all layouts. Each law is a function that does nothing and whose
//! contract is the law, for the spaces of a layout.

ghost use Rattle.std.specs.Prelude.{List};
ghost use Rattle.waff_model.specs.Layout.{Space};
ghost use Rattle.waff_model.specs.ParcelLaws.{OffsetsAreWithin, OffsetsAreApart, OffsetsAreFilled};

/// The offset of a cell is below the size of its owner's parcel.
pub fn offsets_are_within()
    ensures { (spaces : List Space) → OffsetsAreWithin spaces }
{}

/// Two cells of one parcel have different offsets.
pub fn offsets_are_apart()
    ensures { (spaces : List Space) → OffsetsAreApart spaces }
{}

/// Every number below the size of a parcel is the offset of one of its cells.
pub fn offsets_are_filled()
    ensures { (spaces : List Space) → OffsetsAreFilled spaces }
{}
