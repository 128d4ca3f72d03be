//! The messages of a trace run on files, and the plan of what happened.
//!
//! The cells lie in files of a folder; threads do the operations of messages, each when the line of the run
//! lets it begin. What they noted is a plan that obeys, whoever ran when. It is told by `waff_record`.
//! - `running`: a run, from the accepted files (`run_files`) to the two texts; `fault`: why there are none.
//! - `workers`: the threads, over one lock round the line; `locked`: what is behind the lock; `shared`: what they share, and
//!   how they look, sleep and wake; `threads`: where they wait until all are there; `pace`: how many they are; `going`: the
//!   line, whose type says of which run it is, and the tokens of its messages.
//! - `perform`: the operations of a message; `calls`: how many of them are one call; `syncing`: which files are synced
//!   at its end.
//! - `store`: files, or what a test has in their place; `places`: in which file a cell lies, and where; `laws`: what
//!   holds of that; `spots`: the cells that a trace names.
//! - `opening`: what is opened and made before the run; `same`: which files are one; `part`: the file of the measured
//!   trace before it is whole.
//!
//! What `run` answers of a store and a clock, whatever they do and however its threads take turns,
//! are turns that events of the machine of `waff_line` leave, and so a plan (`AreRunTurns`). What
//! `run_on` answers are the texts that tell such turns (`TellRun`): the plan in them is the one
//! that the machine accepted. Each message asks the store by a hand of its own, by which all that it asks for
//! was asked once, in order, its syncs behind its writes, and nothing else (`AreAsked`), as far as the store
//! tells what it is asked. Where a cell lies is an equation (`spot_of`). Laws say what follows:
//! no two cells have a byte in common (`CellsAreApart`), and the cells of one file have one owner
//! (`FilesHaveOneOwner`), so messages that may run at once have no file of a space without locks in
//! common (`FilesAreApart`, `MessagesAreApart`). They may use one file of a space with locks at
//! once, but no cell of it, unless both only read it and its lock is shared
//! (`CommonCellsAreRead`). Calls of the crate's own promise to which length a file is brought at least
//! (`AreEnds`), which cells are filled (`ListsSpots`), which files are synced (`ListsOnce`), and
//! which file of a run is told as another of them too (`IsFirstOfTwo`). An error tells why the files
//! were not opened (`IsOfOpening`), or why what was begun did not come to its end (`IsOfRunning`):
//! which message, how many workers, and which file, one in which the messages name a cell. Where
//! files were opened, no two are one by what was found of them (`AreTold`). That a call returns is
//! not promised, nor that what is found is what is there, nor that files do what they are asked.
//! `tests/runs/run` shows the rest.
#![tactic(auto)]

mod calls;
mod fault;
mod going;
pub mod laws;
mod locked;
mod opening;
mod pace;
mod part;
mod perform;
mod places;
mod run_files;
mod running;
mod same;
mod shared;
mod spots;
mod store;
mod syncing;
mod threads;
mod workers;

pub use fault::{RunError, Stopped};
pub use opening::{Entry, How, Opened, Opens, Site};
pub use pace::Pace;
pub use part::Part;
pub use places::{Places, Spot};
pub use run_files::RunFiles;
pub use running::{Broken, RanOn, Settings, planned_length, run_on};
pub use same::Identity;
pub use store::{Folder, Store, StoreFault, silent_hands};
pub use syncing::Syncs;
pub use workers::{Halted, Ran, run};
