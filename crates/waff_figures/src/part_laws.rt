//! That the figures of the lines add up, and that those of all messages are the plan's. Each law is a
//! function that does nothing and whose contract is the law.

ghost use Rattle.std.specs.Prelude.{◌≡◌, ℕ, List, length};
ghost use Rattle.waff_model.specs.Tree.{Node};
ghost use Rattle.waff_assign.specs.Held.{AreKnown, Held};
ghost use Rattle.waff_plan.specs.Work.{Work};
ghost use Rattle.waff_figures.specs.PartLaws.{AffinityWaitsAddUp, AllAreWhole, LabelWaitsAddUp};
ghost use Rattle.waff_figures.specs.PartLaws.{PartsAreOne};

/// The part of all messages has the figures of the plan.
pub fn all_are_whole()
    ensures { (work : Work) → AllAreWhole work }
{}

/// The waits of the affinities and of none add up to those of all messages.
pub fn affinity_waits_add_up()
    ensures { (tree : List Node) (assigned : List Held) (work : Work)
        → AreKnown tree assigned → AffinityWaitsAddUp tree assigned work }
{}

/// The waits of the distinct labels of messages do too.
pub fn label_waits_add_up()
    ensures { (labels : List (List ℕ)) (work : Work) → length labels ≡ work.count
        → LabelWaitsAddUp labels work }
{}

/// Where two plans start each message at the same tick, the figures of their parts are equal.
pub fn parts_are_one()
    ensures { (work : Work) → PartsAreOne work }
{}
