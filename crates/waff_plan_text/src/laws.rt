//! What is known of all plan texts that are read or refused, and of those that are written. Each
//! law is a function that does nothing and whose contract is the law.

ghost use Rattle.std.specs.Prelude.{ℕ, List, Option};
ghost use Rattle.waff_model.specs.Tree.{Node};
ghost use Rattle.waff_model.specs.declared.message.Version.{Version};
ghost use Rattle.waff_parse.specs.Rows.{Record};
ghost use Rattle.waff_plan.specs.Work.{Work};
ghost use Rattle.waff_plan_text.specs.Exact.{PlanIsExact};
ghost use Rattle.waff_plan_text.specs.Given.{Given, SummaryLines};
ghost use Rattle.waff_plan_text.specs.Headers.{HeaderIsExact};
ghost use Rattle.waff_plan_text.specs.Laws.{WrittenIsRead};
ghost use Rattle.waff_plan_text.specs.Ratio.{HundredthsAreOne, RatioUpIsUpperBound};
ghost use Rattle.waff_plan_text.specs.Refused.{FirstFaultDecides};
ghost use Rattle.waff_plan_text.specs.SpelledLines.{LinesAreExact};
ghost use Rattle.waff_plan_text.specs.SpelledSummaries.{SummaryIsExact};
ghost use Rattle.waff_plan_text.specs.declared.table.Line.{Line};
ghost use Rattle.waff_assign.specs.Held.{Held};

/// A plan is read from the text that is written of it.
pub fn written_is_read()
    ensures read { (version : Version) (tree : List Node)
        (assigned : List Held) (work : Work) (workers : Option ℕ)
        (start : ℕ → ℕ) (worker : ℕ → Option ℕ) (chain : List ℕ)
        → WrittenIsRead version tree assigned work workers start worker chain }
{}

/// A text is refused for an error exactly where the first record with a fault has it, and no fault
/// of a lower number. The end of the text counts as one more record.
pub fn first_fault_decides()
    ensures decides { (version : Version) (messages : ℕ) (bytes : List ℕ)
        → FirstFaultDecides version messages bytes }
{}

/// A text is read as a plan exactly where its first record is the header, each record before the
/// summary is a row, each message has exactly one, and the lines of the summary follow; and the
/// plan has their values.
pub fn plan_is_exact()
    ensures exact { (version : Version) (messages : ℕ) (bytes : List ℕ) (plan : Given)
        → PlanIsExact version messages bytes plan }
{}

/// Records of text are read as a summary exactly where they are its lines in their order, and the
/// summary has the values that they write.
pub fn summary_is_exact()
    ensures exact { (version : Version) (messages : ℕ)
        (at : ℕ) (records : List Record) (summary : SummaryLines)
        → SummaryIsExact version messages at records summary }
{}

/// A record is accepted as a line of a summary where it is that line, is refused for a number where
/// that is above the limit, and is refused as no line where it is none.
pub fn lines_are_exact()
    ensures exact { (messages : ℕ) (line : Line) (fields : Record)
        → LinesAreExact messages line fields }
{}

/// The first record is accepted where it is the header, and is refused where it is no text, where
/// it is another record, and where there is none.
pub fn header_is_exact()
    ensures exact { (records : List Record) → HeaderIsExact records }
{}

/// A printed number of hundredths is one number.
pub fn hundredths_are_one()
    ensures one { HundredthsAreOne }
{}

/// A ratio that is printed rounded up is at most what is printed.
pub fn ratio_up_is_upper_bound()
    ensures bound { RatioUpIsUpperBound }
{}
