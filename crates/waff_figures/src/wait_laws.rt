//! What holds of the waits of all plans. Each law is a function that does nothing and whose
//! contract is the law, for a tree of affinities and the affinities assigned to the messages, in the
//! order of a plan's chains.

ghost use Rattle.std.specs.Prelude.{ℕ, List};
ghost use Rattle.waff_model.specs.Tree.{Node};
ghost use Rattle.waff_model.specs.declared.message.Version.{Version};
ghost use Rattle.waff_assign.specs.Held.{Held};
ghost use Rattle.waff_plan.specs.Serving.{started_before};
ghost use Rattle.waff_plan.specs.Work.{Work};
ghost use Rattle.waff_figures.specs.WaitLaws.{AwaitingIsNoWait, ReadyIsGreatest, RowsAreOne};
ghost use Rattle.waff_figures.specs.WaitLaws.{TicksAddUp, WaitsAddUp, WaitsAreOnce};

/// A message waits for another one until the greatest of its issue and the finishes of the messages
/// that exclude it and are served before it.
pub fn ready_is_greatest()
    ensures { (version : Version) (tree : List Node) (assigned : List Held) (work : Work)
        (start : ℕ → ℕ) → ReadyIsGreatest (started_before version tree assigned start) work start }
{}

/// In a plan that obeys, the waits of a message add up to the time from its issue to its start.
pub fn waits_add_up()
    ensures { (version : Version) (tree : List Node) (assigned : List Held) (work : Work)
        (start : ℕ → ℕ) → WaitsAddUp tree assigned (started_before version tree assigned start) work start }
{}

/// In a plan that obeys, a message that starts as soon as one that it awaits holds it back no longer waits for
/// nobody.
pub fn awaiting_is_no_wait()
    ensures { (version : Version) (tree : List Node) (assigned : List Held) (work : Work)
        (start : ℕ → ℕ) → AwaitingIsNoWait tree assigned (started_before version tree assigned start) work start }
{}

/// Each wait is told of in one row.
pub fn waits_are_once()
    ensures once { WaitsAreOnce }
{}

/// In a plan that obeys, the ticks of all rows add up to how long all messages wait.
pub fn ticks_add_up()
    ensures { (version : Version) (tree : List Node) (assigned : List Held) (work : Work)
        (start : ℕ → ℕ) → TicksAddUp tree assigned (started_before version tree assigned start) work start }
{}

/// The rows of a plan are one list.
pub fn rows_are_one()
    ensures equal { (version : Version) (tree : List Node) (assigned : List Held) (work : Work)
        → RowsAreOne version tree assigned work }
{}
