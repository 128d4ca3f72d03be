//! What is said of files and plans: the words for a fault, and for a verdict.
//!
//! Where a fault is, what was found there and what is wanted, or how good a plan is. Each is a line that
//! begins with one of the heads, and ends with its only line feed (`AreHeadedLines`), so no line feed of a
//! file begins another line.
//!
//! - `words`: the lines, and `say!`, which appends one; `said`: the values that stand in them; `walk`: goes
//!   over the records of CSV, and tells where each stands; `fields`: a field that is no name, no number or no
//!   text, and fields that commas do not part; `sizes`: how much there is where nothing is wrong.
//! - `hierarchy`: a hierarchy that is refused, over `document` (a document of the wrong shape),
//!   `affinities` (the tree) and `layouts` (spaces and maps), which find tables by `named`; `near`: keys of
//!   a hierarchy that count for nothing and are nearly those of its format.
//! - `traces`: a trace that is refused, over `operations` (the operations of a message) and `lists` (what it
//!   awaits).
//! - `plan_texts`: the text of a plan that is refused.
//! - `verdicts`: a verdict, with the messages that it names, over `hearing` (a case, and the plan that was
//!   given for it).
//!
//! What is refused or found is the matter of the readers and of the verdicts, which decide: these words
//! look at the same bytes again and tell what was seen. What was read is lent to them. That they are lines
//! with heads is promised; what they say is tested: `tests/commands` has the words of each refusal and
//! each verdict.
#![tactic(auto)]

mod affinities;
mod document;
mod fields;
mod hearing;
mod hierarchy;
mod layouts;
mod lists;
mod named;
mod near;
mod operations;
mod plan_texts;
mod said;
mod sizes;
mod traces;
mod verdicts;
mod walk;
mod words;

pub use hierarchy::hierarchy_words;
pub use near::near_words;
pub use plan_texts::plan_text_words;
pub use sizes::sizes_words;
pub use traces::trace_words;
pub use verdicts::verdict_words;
pub use words::{Head, lines_are_one};
