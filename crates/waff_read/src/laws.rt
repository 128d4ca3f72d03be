//! What is known of all files that the readers accept or refuse. Each law is a function that does
//! nothing and whose contract is the law.

ghost use Rattle.std.specs.Prelude.{ℕ, List};
ghost use Rattle.toml.specs.Data.{Data};
ghost use Rattle.waff_model.specs.Layout.{Space, Hierarchy};
ghost use Rattle.waff_model.specs.Messages.{Arrivals};
ghost use Rattle.waff_model.specs.declared.format.Format.{Format};
ghost use Rattle.waff_model.specs.declared.message.Message.{Message};
ghost use Rattle.waff_model.specs.declared.message.Version.{Version};
ghost use Rattle.waff_parse.specs.Rows.{Record};
ghost use Rattle.waff_read.specs.Laws.{RecordIsExact, PiecesAreSingle, SpelledIsRead};
ghost use Rattle.waff_read.specs.Laws.{SpelledTraceIsRead, LeastCheckDecides, TraceIsExact};
ghost use Rattle.waff_read.specs.Laws.{RowsAreText, TraceAnewIsRead, CutTraceIsRead};
ghost use Rattle.waff_read.specs.Laws.{FirstFaultDecides, HierarchyIsExact, ClassicalHasTwoLevels};
ghost use Rattle.waff_read.specs.Laws.{LocksAreOfFormat3, HyphenIsNoAffinity};
ghost use Rattle.waff_read.specs.Messages.{Columns};
ghost use Rattle.waff_read.specs.Refused.{TreeIsExact, FirstAffinityDecides, FirstCheckDecides};
ghost use Rattle.waff_read.specs.declared.place.Place.{Place};

/// A record is accepted as a message exactly where it has the fields of its version and no check
/// holds, and the message has the values that they write.
pub fn record_is_exact()
    ensures { (version : Version) (spaces : List Space) (place : Place) (row : Record)
        → RecordIsExact version spaces place row }
{}

/// Of the checks that hold of a record, the one of least number is told.
pub fn least_check_decides()
    ensures { (version : Version) (spaces : List Space) (place : Place) (columns : Columns)
        → LeastCheckDecides version spaces place columns }
{}

/// Before the third version no piece is a range.
pub fn pieces_are_single()
    ensures { (version : Version) (spaces : List Space) (piece : List ℕ)
        → PiecesAreSingle version spaces piece }
{}

/// A message is read from the record that spells it.
pub fn spelled_is_read()
    ensures { (layout : Hierarchy) (version : Version) (place : Place) (message : Message)
        → SpelledIsRead layout version place message }
{}

/// A trace is read from the text that spells it: what is written as a trace is read as the same
/// trace.
pub fn spelled_trace_is_read()
    ensures { (newest : Version) (layout : Hierarchy) (trace : Arrivals)
        → SpelledTraceIsRead newest layout trace }
{}

/// The records of a trace that is accepted are text: its header, and a record for each message,
/// which has the fields of the version.
pub fn rows_are_text()
    ensures { (newest : Version) (spaces : List Space) (bytes : List ℕ) (trace : Arrivals)
        → RowsAreText newest spaces bytes trace }
{}

/// A trace that is told anew with other costs is read as the same messages with these costs:
/// nothing else of them changes, and the text is accepted.
pub fn trace_anew_is_read()
    ensures { (newest : Version) (spaces : List Space) (bytes : List ℕ) (trace : Arrivals)
        (told : List Message) → TraceAnewIsRead newest spaces bytes trace told }
{}

/// A trace that is cut down to some of its records, told anew, is read as the messages that they
/// tell. Their lists have to name earlier ones by their new numbers; that there are not too many
/// messages and operations follows.
pub fn cut_trace_is_read()
    ensures { (newest : Version) (spaces : List Space) (bytes : List ℕ) (trace : Arrivals)
        (numbers : List ℕ) (told : List Message)
        → CutTraceIsRead newest spaces bytes trace numbers told }
{}

/// A trace is accepted exactly where its header and each record after it is, and has their messages
/// in order.
pub fn trace_is_exact()
    ensures { (newest : Version) (spaces : List Space) (bytes : List ℕ) (trace : Arrivals)
        → TraceIsExact newest spaces bytes trace }
{}

/// The first faulty record decides.
pub fn first_fault_decides()
    ensures { (newest : Version) (spaces : List Space) (bytes : List ℕ)
        → FirstFaultDecides newest spaces bytes }
{}

/// A hierarchy is accepted exactly where no check holds.
pub fn hierarchy_is_exact()
    ensures { (bytes : List ℕ) (layout : Hierarchy) → HierarchyIsExact bytes layout }
{}

/// A classical hierarchy has two levels at most.
pub fn classical_has_two_levels()
    ensures { (bytes : List ℕ) (layout : Hierarchy) → ClassicalHasTwoLevels bytes layout }
{}

/// What a hierarchy of format 1 or 2 names as locks counts for nothing.
pub fn locks_are_of_format_3()
    ensures { (bytes : List ℕ) (layout : Hierarchy) → LocksAreOfFormat3 bytes layout }
{}

/// In a hierarchy of format 3 a hyphen names no affinity.
pub fn hyphen_is_no_affinity()
    ensures { (bytes : List ℕ) (layout : Hierarchy) → HyphenIsNoAffinity bytes layout }
{}

/// Rows are read as a tree exactly where there is one and each is an affinity, whose parent is one
/// of those before it; and the affinities of the tree are theirs.
pub fn tree_is_exact()
    ensures { (format : Format) (rows : List Data) → TreeIsExact format rows }
{}

/// The first row that is no affinity decides, and of the checks that hold of it the one of least
/// number.
pub fn first_affinity_decides()
    ensures { (format : Format) (rows : List Data) → FirstAffinityDecides format rows }
{}

/// A hierarchy is refused for an error exactly where its check holds and none before it.
pub fn first_check_decides()
    ensures { (bytes : List ℕ) → FirstCheckDecides bytes }
{}
