//! What a trace has of the fourth version where it uses nothing of it.

ghost use Rattle.std.specs.Prelude.{ℕ, List};
ghost use Rattle.waff_model.specs.Layout.{Space};
ghost use Rattle.waff_list.specs.declared.rule.Rule.{Rule};
ghost use Rattle.waff_figures.specs.declared.told.Told.{Told};
ghost use Rattle.waff_tool.specs.Earlier.{CheckedAlike, ComparedAlike, DrawnAlike, HaveNoLists};
ghost use Rattle.waff_tool.specs.Earlier.{LimitsAlike, RankedAlike, RatedAlike, ReplayedAlike};
ghost use Rattle.waff_tool.specs.Earlier.{ToldAlike};

/// A trace of version 4 in which no message has a list has every text of the same trace of version 3, but
/// one more line of `limits`. A law: a function that does nothing and whose contract is the law.
pub fn version_3_is_version_4()
    ensures lists { (spaces : List Space) (trace_file earlier_file : List ℕ)
        → HaveNoLists spaces trace_file earlier_file }
    ensures told { (told : Told) (hierarchy_file trace_file earlier_file : List ℕ)
        → ToldAlike told hierarchy_file trace_file earlier_file }
    ensures limits { (rule : Rule) (hierarchy_file trace_file earlier_file : List ℕ)
        → LimitsAlike rule hierarchy_file trace_file earlier_file }
    ensures compared { (first_file second_file trace_file earlier_file : List ℕ)
        → ComparedAlike first_file second_file trace_file earlier_file }
    ensures ranked { (rule : Rule) (files : List (List ℕ)) (trace_file earlier_file : List ℕ)
        → RankedAlike rule files trace_file earlier_file }
    ensures checked { (hierarchy_file trace_file earlier_file plan_file : List ℕ)
        → CheckedAlike hierarchy_file trace_file earlier_file plan_file }
    ensures rated { (hierarchy_file trace_file earlier_file plan_file : List ℕ)
        → RatedAlike hierarchy_file trace_file earlier_file plan_file }
    ensures drawn { (hierarchy_file trace_file earlier_file plan_file : List ℕ)
        → DrawnAlike hierarchy_file trace_file earlier_file plan_file }
    ensures replayed { (hierarchy_file trace_file earlier_file : List ℕ)
        → ReplayedAlike hierarchy_file trace_file earlier_file }
{}
