//! The format of plan texts, both ways.
//!
//! A plan text is CSV: a header, a row for each message, and a summary. What is written is one
//! spelling; what is read is any text of the format, its rows in any order, which need not be a
//! plan of anything.
//!
//! - `table`: the lines of a summary, in their order.
//!
//! Writing:
//! - `writing`: the text of a plan, with workers and without; `timed`: what it is made of; `numbers`:
//!   numbers in it; `ratio`: ratios as they are printed.
//!
//! Reading:
//! - `refusal`: why a text is refused.
//! - `records`: its records, one after the other; `field`, `row`, `lines`: by kind; `slots`: the
//!   rows so far.
//! - `summary`: the lines of the summary.
//! - `given`: the plan that a text gives.
//! - `reading`: the reader, over all records.
//!
//! `laws`: which texts are read, what the others are refused for, and that what is written is read.
//!
//! A plan text is read exactly where the format accepts it, with its values; else the refusal is
//! the one that the format names: of the first record with a fault, and no fault of a lower number.
//! The end of the text counts as one more record. What is written is read back.
//!
//! Tests: `test_worked/src/plan_texts.rt` (the sample plans as they are printed, rows in another
//! order).
#![tactic(auto)]

mod field;
mod given;
pub mod laws;
mod lines;
mod numbers;
mod ratio;
mod reading;
mod records;
mod refusal;
mod row;
mod slots;
mod summary;
mod table;
mod timed;
mod writing;

pub use given::GivenPlan;
pub use numbers::{WorkerField, push_field, push_number, push_numbers};
pub use ratio::{Mean, Ratio, RatioUp};
pub use reading::read_plan;
pub use refusal::PlanTextError;
pub use row::{COLUMNS, Row};
pub use summary::Summary;
pub use timed::Timed;
pub use writing::{timed_text, unlimited_text, worker_text};
