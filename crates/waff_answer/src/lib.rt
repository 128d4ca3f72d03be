//! What the program answers to a question, and how it ends.
//!
//! - `answers`: which command answers what is asked, of which files; what is written of it.
//! - `ending`: the answer on the output, or the line of an error on the error stream, and the exit
//!   status.
//! - `runs`: the messages run on files, and what is told of that.
//! - `unique`: what is asked of files has one answer, or is refused for one error.
//!
//! The words of a question and its files are read by `waff_cli`, the texts are those of `waff_tool`.
//! What is answered, and how the program ends, one clause says: that of `answer`. `end` is that for what
//! was read, which may be a refusal of the words or of a file.
//!
//! The program itself. To what is asked of files it writes the answer to the output and nothing to
//! the error stream, and ends with its status: 0, or the status of the verdict or of the fault that
//! is explained. Or it writes the line of an error to the error stream, or a part of it if a write
//! to it failed, and ends with the status of that error: where the output failed that has a prefix
//! of the text of an answer, else what is asked is refused for that error, and nothing was written
//! to the output. Where somebody reads the error stream, advice stands behind an answer or below
//! the line of an error (`Advises`). The answer is one, but for the words of an explanation below
//! its first line. A run that gives no text is refused for an error of its files, or for one of a
//! run of accepted files (`RefusesRun`).
#![tactic(auto)]

mod answers;
mod ending;
mod runs;
mod unique;

pub use ending::{answer, end};
pub use unique::{answer_is_one, answered_is_not_refused, asked_refusal_is_one};
