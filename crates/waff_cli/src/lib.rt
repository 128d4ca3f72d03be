//! What the program is asked: the words of the command line, and the files that they name.
//!
//! - `question`: the words and then the files are read; `task`: a question, or messages to be run.
//! - `words`: what the words ask for that were found, as `requests`, without the files; `run_words`: the
//!   words of `run`, and `tick` its tick; `found`: what was found for an option or a file.
//! - `commands`: what a command has in the table: its name, files, options and help; `table`: the rows of that
//!   table; `parser`: its parser; `help`: what the help of the program ends with, made of it.
//! - `files`: files and standard input, read whole.
//! - `refusal`: why there is nothing to answer, and what is said then.
//! - `advice`: what helps at a terminal, below the line of a fault and behind a large picture; `tips`: below
//!   a fault of the words, and where an option is refused.
//! - `threads`: how many threads a replay has.
//!
//! The words are read before any file, so a request holds names of files and numbers within their
//! limits, and no more. A question holds the bytes of those files.
//!
//! What is to be done is what the words ask for that `clap` found (`IsTask`): each part of it is an
//! equation with the words of one option, and what was found asks for one thing (`asked_is_one`), or
//! says of one way how messages are to be run (`run_is_one`).
//! It has numbers of workers and threads within the limits, and as many files as it takes. Which
//! files are named, and what `clap` finds in the words, is tested in `tests/commands`.
#![tactic(auto)]

mod advice;
mod commands;
mod files;
mod found;
mod help;
mod parser;
mod question;
mod refusal;
mod requests;
mod run_words;
mod table;
mod task;
mod threads;
mod tick;
mod tips;
mod unique;
mod words;

pub use advice::{Advice, RunFault, advice_behind, advice_on, advice_on_run};
pub use parser::ProgramVersion;
pub use question::{Terminals, read_task, task_of, task_of_words};
pub use refusal::Refusal;
pub use run_words::RunWords;
pub use task::{Question, RunTask, Task};
pub use threads::thread_count;
pub use tick::Tick;
pub use unique::{asked_is_one, run_is_one};
pub use words::Asked;
