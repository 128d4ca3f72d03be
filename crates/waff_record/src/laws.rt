//! What holds of the turns of a run, whatever they are, and of their rounding. Each law is a function that does nothing and whose
//! contract is the law.

ghost use Rattle.std.specs.Prelude.{ℕ, List};
ghost use Rattle.waff_assign.specs.Instance.{Instance};
ghost use Rattle.waff_plan.specs.Obeys.{AwaitsEarlier};
ghost use Rattle.waff_plan.specs.Timetable.{work_of_messages};
ghost use Rattle.waff_plan.specs.Work.{Work};
ghost use Rattle.waff_line.specs.Machine.{Course};
ghost use Rattle.waff_line.specs.declared.turn.Turn.{Turn};
ghost use Rattle.waff_record.specs.Laws.{RoundingIsOne, RoundingTells};
ghost use Rattle.waff_record.specs.Left.{LeftIsRun};

/// What is told of the turns of a run is a plan that obeys, for the workers of the run, each on its own. Of messages that
/// exclude each other the one that was served first has finished when the other starts.
pub fn rounding_tells()
    ensures { (course : Course) (ticks : Work) (tick : ℕ) (turns : List Turn)
        → RoundingTells course ticks tick turns }
{}

/// The rounding of turns is one.
pub fn rounding_is_one()
    ensures { (course : Course) (ticks : Work) (tick : ℕ) (turns : List Turn)
        → RoundingIsOne course ticks tick turns }
{}

/// The turns of the messages that are left of a run that was stopped are those of a run of them alone, of the trace that is cut
/// down to them.
pub fn left_is_run()
    ensures { (instance : Instance) (k tick : ℕ) (turns : List Turn) (kept : List ℕ) (cut : Instance)
        → AwaitsEarlier (work_of_messages cut.trace.messages) → LeftIsRun instance k tick turns kept cut }
{}
