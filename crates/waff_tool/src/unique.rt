//! One text, one verdict or one fault for each input. Each law is a function that does nothing, and
//! its contract is the law.

ghost use Rattle.std.specs.Prelude.{ℕ, List, Option};
ghost use Rattle.waff_model.specs.Unique.{AtMostOne};
ghost use Rattle.waff_inputs.specs.Inputs.{TellsOfFiles};
ghost use Rattle.waff_tool.specs.Comparison.{IsCompareText, RefusesComparison};
ghost use Rattle.waff_tool.specs.CheckText.{IsCheckText, RefusesCheck};
ghost use Rattle.waff_tool.specs.ReplayText.{IsReplayText, RefusesReplay};
ghost use Rattle.waff_tool.specs.Explanations.{IsExplained};
ghost use Rattle.waff_tool.specs.Unique.{CheckedIsNotRefused, ComparedIsNotRefused};
ghost use Rattle.waff_tool.specs.Unique.{ReplayedIsNotRefused};

pub use waff_inputs::unique::{accepted_is_not_refused, refusal_is_one};

/// The text of the comparison of two hierarchies on a trace is one.
pub fn compare_text_is_one()
    ensures equal { (first_file second_file trace_file : List ℕ) (k : ℕ)
        → AtMostOne (IsCompareText first_file second_file trace_file k) }
{}

/// The error that tells why two hierarchies and a trace are refused is one.
pub fn comparison_refusal_is_one()
    ensures equal { (first_file second_file trace_file : List ℕ)
        → AtMostOne
        (λ e. TellsOfFiles e × RefusesComparison first_file second_file trace_file e) }
{}

/// Files that are compared are not refused, but for an allocation failure or a writer's fault.
pub fn compared_is_not_refused()
    ensures none { (first_file second_file trace_file : List ℕ)
        → ComparedIsNotRefused first_file second_file trace_file }
{}

/// The verdict on a plan text is one.
pub fn check_text_is_one()
    ensures equal { (hierarchy_file trace_file plan_file : List ℕ)
        → AtMostOne (IsCheckText hierarchy_file trace_file plan_file) }
{}

/// The error that tells why a hierarchy, a trace and a plan text are refused is one.
pub fn check_refusal_is_one()
    ensures equal { (hierarchy_file trace_file plan_file : List ℕ)
        → AtMostOne
        (λ e. TellsOfFiles e × RefusesCheck hierarchy_file trace_file plan_file e) }
{}

/// Files on which there is a verdict are not refused, but for an allocation failure or a writer's fault.
pub fn checked_is_not_refused()
    ensures none { (hierarchy_file trace_file plan_file : List ℕ)
        → CheckedIsNotRefused hierarchy_file trace_file plan_file }
{}

/// The text of the state that a trace leaves under a hierarchy is one, whoever replays the trace.
pub fn replay_text_is_one()
    ensures equal { (hierarchy_file trace_file : List ℕ)
        → AtMostOne (IsReplayText hierarchy_file trace_file) }
{}

/// The error that tells why a replay refuses a hierarchy and a trace is one.
pub fn replay_refusal_is_one()
    ensures equal { (hierarchy_file trace_file : List ℕ)
        → AtMostOne
        (λ e. TellsOfFiles e × RefusesReplay hierarchy_file trace_file e) }
{}

/// Files that are replayed are not refused, but for an allocation failure or a writer's fault.
pub fn replayed_is_not_refused()
    ensures none { (hierarchy_file trace_file : List ℕ)
        → ReplayedIsNotRefused hierarchy_file trace_file }
{}

/// The fault or the verdict that is explained is one: a function that does nothing and whose
/// contract is the law.
pub fn explained_is_one()
    ensures equal { (hierarchy_file : List ℕ) (trace_file plan_file : Option (List ℕ))
        → AtMostOne (IsExplained hierarchy_file trace_file plan_file) }
{}
