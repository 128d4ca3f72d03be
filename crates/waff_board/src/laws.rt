//! What holds between any two atomic steps of a board, whichever threads make them. Each law is a
//! function that does nothing and whose contract is the law.

ghost use Rattle.waff_board.specs.Laws.{ActorsDiffer, NumbersDiffer, NumbersAreDrawn};
ghost use Rattle.waff_board.specs.Laws.{HandedOutOnce, RunByOne, RunningExcludeNobody, FewRun};
ghost use Rattle.waff_board.specs.Laws.{RunOnce, DoneIsRun};
ghost use Rattle.waff_board.specs.Laws.{SeenIsDone, DrawsAreFew, OpensUntouched};
ghost use Rattle.waff_board.specs.Laws.{ShowsOneState, DrawIsOneEvent, BeginIsOneEvent};
ghost use Rattle.waff_board.specs.Laws.{FinishIsOneEvent, LookIsNoEvent, MakingIsNoEvent};
ghost use Rattle.waff_board.specs.declared.view.Setup.{Setup};

/// No two seats are one actor.
pub fn actors_differ()
    ensures { (setup : Setup) → ActorsDiffer setup }
{}

/// No number is drawn twice, and each is below the number of draws.
pub fn numbers_differ()
    ensures { (setup : Setup) → NumbersDiffer setup }
{}

/// Each number below that of the draws was drawn by a seat.
pub fn numbers_are_drawn()
    ensures { (setup : Setup) → NumbersAreDrawn setup }
{}

/// No message is handed out twice.
pub fn handed_out_once()
    ensures { (setup : Setup) → HandedOutOnce setup }
{}

/// No two seats hold or run one message.
pub fn run_by_one()
    ensures { (setup : Setup) → RunByOne setup }
{}

/// Messages that two seats run at once do not exclude each other.
pub fn running_exclude_nobody()
    ensures { (setup : Setup) → RunningExcludeNobody setup }
{}

/// At most as many messages run at once as there are seats.
pub fn few_run()
    ensures { (setup : Setup) → FewRun setup }
{}

/// No message is run twice.
pub fn run_once()
    ensures { (setup : Setup) → RunOnce setup }
{}

/// A message is done exactly where a seat has run it.
pub fn done_is_run()
    ensures { (setup : Setup) → DoneIsRun setup }
{}

/// What a seat has seen is done.
pub fn seen_is_done()
    ensures { (setup : Setup) → SeenIsDone setup }
{}

/// There are no more draws than messages and seats.
pub fn draws_are_few()
    ensures { (setup : Setup) → DrawsAreFew setup }
{}

/// Where no seat has drawn, nothing is drawn or done, and every cell is 0.
pub fn opens_untouched()
    ensures { (setup : Setup) → OpensUntouched setup }
{}

/// Words, slots and views show one state of the core machine. So a step that changes none of them,
/// as one that takes a parcel out of a slot or puts one in, leaves the state.
pub fn shows_one_state()
    ensures { (setup : Setup) → ShowsOneState setup }
{}

/// A draw is one draw of the core machine.
pub fn draw_is_one_event()
    ensures { (setup : Setup) → DrawIsOneEvent setup }
{}

/// A begin is one begin of the core machine.
pub fn begin_is_one_event()
    ensures { (setup : Setup) → BeginIsOneEvent setup }
{}

/// A finish is one end of the core machine.
pub fn finish_is_one_event()
    ensures { (setup : Setup) → FinishIsOneEvent setup }
{}

/// A look and the making of a seat leave the state of the core machine.
pub fn others_are_no_event()
    ensures look { (setup : Setup) → LookIsNoEvent setup }
    ensures making { (setup : Setup) → MakingIsNoEvent setup }
{}
