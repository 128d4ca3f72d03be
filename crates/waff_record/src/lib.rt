//! What is told of a run: the trace with the costs that are told, and the plan of what happened.
//!
//! The turns of a run are measured in nanoseconds. What is told of them is their rounding to ticks (`IsRounded`): one pass
//! over the messages in the order in which they began. The rounding of a run is a plan that obeys, by laws. The trace with
//! its costs is told anew, record by record, and by a law of its reader (`TraceAnewIsRead`) it is read as the messages that were
//! run, with the costs that are told. So nothing that is told is read again. What messages hold goes by their operations.
//! - `outcome`: the two texts; `fault`: why there are none; `turns`, `told_run`: what they are made of.
//! - `rounding`: turns in ticks; `laws`: what holds of that; `drift`: how much longer it is than the run was.
//! - `anew`: the text of the trace; `told`: that of the plan.
//! - `partial`: what is told of a run that was stopped; `left`: which messages are left of it; `cut`: the trace cut down to
//!   them.
//!
//! What is told of turns of messages is the text of a trace that has the messages of the given one but for their costs, and
//! the text of a plan of it (`IsPlanOf`): its starts and costs are the rounding of the turns, and each message is on the
//! worker of its turn. It is a plan of that trace for as many workers, in which the check finds no fault. Of messages that
//! exclude each other the one that the run served first has finished when the other starts: the one issued first by the
//! clock of the run, before the third version that of the trace. At each tick at most as many messages run as there are
//! workers, each on a worker of its own, and no two that exclude each other. All that follows from laws, and neither the text
//! of the plan is read nor the plan checked: what is written of a plan is read as it (`WrittenIsRead`), and one that obeys in
//! the order in which it starts messages is accepted (`OwnPlanIsAccepted`). What is told of a run that was stopped (`TellLeft`)
//! is that of a run of the messages that had ended, each of them, but for one for which it was stopped. The trace is cut down
//! to these (`IsCutTo`), and their turns are those of a run of it, by a law (`LeftIsRun`). The trace that was cut down is read,
//! and compared with the whole one. That it is read so is promised by no clause: `tests/runs/run` and `test_threads` show it.
#![tactic(auto)]

mod anew;
mod cut;
mod drift;
mod fault;
pub mod laws;
mod left;
mod outcome;
mod partial;
mod rounding;
mod told;
mod told_run;
mod turns;

pub use fault::RecordError;
pub use left::StoppedRun;
pub use outcome::{Recorded, Tally, record_of};
pub use partial::record_left;
pub use turns::RunTurns;
