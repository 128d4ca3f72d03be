//! The commands, from the bytes of files to the bytes of a text: each has one record in `specs/` that
//! says what its text is.
//!
//! The files are accepted, the text is made of them, and then it is written: the whole text is made
//! before the first byte is written, so a refusal leaves nothing written, and a writer that fails
//! has taken a prefix of it. A plan is told with its printed chain as its *certificate*.
//! - `told`: all commands that tell of one trace under one hierarchy, over a function of a case for each:
//!   `assigns` (assign), `plans` (plan), `needs` (needs), `sweeps` (sweep), `limits` (limits), `wheres`
//!   (where), `waits` (waits), `why` (why). Plans for k workers are by a rule;
//!   `certificates`: plans with their printed chains.
//! - `comparison` (compare, over `measures`), `ranks` (rank): commands that tell of a trace under several
//!   hierarchies.
//! - `checks` (check, over `verdict_line`), `rates` (rate), `draws` (draw): a plan that is handed in,
//!   tried; they read it beside the other files (`ahead`).
//! - `replays` (replay, over `state_text`): the state that threads leave.
//! - `explains` (explain): the fault or the verdict that the others find, in words.
//! - `unique`, and the laws of `told`, `rates`, `ranks` and `draws`: one text or one fault for each input;
//!   those of `limits`, `wheres` and `waits`: what texts say of each other; `own`: plans that are
//!   printed pass the check; `earlier`: without lists a trace of version 4 has the texts of version 3.
//!
//! Where a call answers Ok, what it wrote is the text of these bytes and nothing else; `Delivers`
//! (waff_inputs) says what it wrote elsewhere. Of the same bytes each text is unique, and so are
//! the verdict and the refusal, an allocation failure and a writer's fault apart. Plans that are
//! printed pass the check, so whoever distrusts the planner needs the check alone. The clauses hold
//! for every writer that reports its bytes: they speak of `W.contents`.
//!
//! Tests: `tests/commands`; the stored run of the program; `test_worked/src/faults.rt`, and
//! `writing.rt` for writers that fail.
#![tactic(auto)]

mod ahead;
mod assigns;
mod certificates;
mod checks;
mod comparison;
pub mod draws;
pub mod earlier;
mod explains;
pub mod limits;
mod measures;
mod needs;
pub mod own;
mod plans;
pub mod ranks;
pub mod rates;
mod replays;
mod state_text;
mod sweeps;
pub mod told;
pub mod unique;
mod verdict_line;
pub mod waits;
pub mod wheres;
mod why;

pub use assigns::assign_text;
pub use checks::{check_text, verdict_status};
pub use comparison::{compare_text, compare_text_by_threads};
pub use draws::draw_text;
pub use explains::{Explained, explain_text, explained_status, lines_are_no_first_lines};
pub use plans::plan_text;
pub use ranks::rank_text;
pub use rates::rate_text;
pub use replays::replay_text;
pub use told::{told_text, told_text_is_one};
pub use waff_draw::Part;
pub use waff_figures::{Columns, Grouping, Label, Told};
pub use waff_inputs::{MAX_RANKED, ToolError, fault_status, fault_text};
pub use waff_io::{ReadFault, read_whole, split_input};
pub use waff_list::Rule;
pub use waff_plan::Workers;
