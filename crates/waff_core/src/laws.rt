//! What holds of the core machine, whoever runs it. Each law is a function that does nothing and
//! whose contract is the law.

ghost use Rattle.waff_core.specs.Job.{JobValue, IsJob};
ghost use Rattle.waff_core.specs.Laws.{RunsOnce, FailsOnce, RunsOrFails, NeverBoth, StaysAccepted};
ghost use Rattle.waff_core.specs.Laws.{OneActorEnds, DrawsAreFew, EachHasOneStatus, ShowsWhatItHas};
ghost use Rattle.waff_core.specs.Laws.{NeedsAreEnough, RunningDoNotExclude, AwayWithOne};
ghost use Rattle.waff_core.specs.Laws.{BeginsAtHome, LastIsOne, AlwaysSerial, EachCellIsSerial};
ghost use Rattle.waff_core.specs.Laws.{AllDoneIsSerial, BeginsSettled, NeverStuck, CellsFollow};

/// The machine is deterministic: a list of events leads from a state to no more than one.
pub fn runs_once()
    ensures { (job : JobValue) → RunsOnce job }
{}

/// A list of events has no more than one first fault.
pub fn fails_once()
    ensures { (job : JobValue) → FailsOnce job }
{}

/// Every list of events is accepted or has a first fault.
pub fn runs_or_fails()
    ensures { (job : JobValue) → IsJob job → RunsOrFails job }
{}

/// No list of events is accepted and has a fault.
pub fn never_both()
    ensures { (job : JobValue) → NeverBoth job }
{}

/// A list of events that is accepted stays accepted when cut short.
pub fn stays_accepted()
    ensures { (job : JobValue) → StaysAccepted job }
{}

/// Any one actor can run the whole order, and then all messages are done.
pub fn one_actor_ends()
    ensures { (job : JobValue) → IsJob job → OneActorEnds job }
{}

/// No state that some actors reach is stuck: all messages are done, or some actor may do something.
pub fn never_stuck()
    ensures { (job : JobValue) → IsJob job → NeverStuck job }
{}

/// The number of draws is at most that of the messages and of the actors.
pub fn draws_are_few()
    ensures { (job : JobValue) → IsJob job → DrawsAreFew job }
{}

/// Each message waits, or is held by one actor, or is run by one actor, or is done.
pub fn each_has_one_status()
    ensures one { (job : JobValue) → IsJob job → EachHasOneStatus job }
    ensures shown { (job : JobValue) → IsJob job → ShowsWhatItHas job }
{}

/// Looking at the needs of a message is enough.
pub fn needs_are_enough()
    ensures { (job : JobValue) → IsJob job → NeedsAreEnough job }
{}

/// Messages that run at once do not exclude each other.
pub fn running_do_not_exclude()
    ensures { (job : JobValue) → IsJob job → RunningDoNotExclude job }
{}

/// A parcel that is away is with one running message, and when a message may begin the parcels of
/// its footprint's owners are home.
pub fn parcels_are_with_one()
    ensures away { (job : JobValue) → IsJob job → AwayWithOne job }
    ensures home { (job : JobValue) → IsJob job → BeginsAtHome job }
{}

/// There is no more than one last message at or above an affinity.
pub fn last_is_one()
    ensures { (job : JobValue) → LastIsOne job }
{}

/// In every interleaving, at every moment, each parcel is that of arrival order after the last
/// message that is done and could touch it.
pub fn cells_are_serial()
    ensures parcels { (job : JobValue) → IsJob job → AlwaysSerial job }
    ensures cells { (job : JobValue) → IsJob job → EachCellIsSerial job }
{}

/// A state is decided by its draws, by what the actors do and by which messages are done.
pub fn cells_follow()
    ensures { (job : JobValue) → IsJob job → CellsFollow job }
{}

/// Where all messages are done the cells are those of arrival order.
pub fn all_done_is_serial()
    ensures { (job : JobValue) → IsJob job → AllDoneIsSerial job }
{}

/// From when a message may begin until its end, the parcels of its footprint's owners are those of
/// arrival order before it, and its meaning makes them those after it.
pub fn begins_settled()
    ensures { (job : JobValue) → IsJob job → BeginsSettled job }
{}
