//! What the readers of traces, hierarchies and plan texts share.
//!
//! - `stop`: a reader stops for memory or for a fault.
//! - `refusals`: where several faults hold, the one of least rank is told.
//! - `text`: the parts of a text, and numbers.
//! - `rows`: records of CSV, one after the other, as text.
//! - `fields`: the fields of records, and of records of a known number of fields.
//!
//! The words that contracts cite stand in `specs/`: `Stopping` (what an answer says of a reading),
//! `Refusals` (readings one after the other and side by side), `Walks` (readings of lists),
//! `Texts`, `Rows` and `Fields`. Laws of these for proofs above stand in `proofs/`: `Laws`,
//! `TextLaws` and `RowLaws`.
//!
//! What the readers of traces, hierarchies and plan texts share: the first and the least fault
//! decide, numbers are of any length, and the records are those that CSV gives. Tests stand below
//! the calls.
#![tactic(auto)]

mod fields;
mod refusals;
mod rows;
mod stop;
mod text;

pub use fields::{field, five_fields, three_fields, two_fields};
pub use refusals::{Ranked, least, pair};
pub use rows::{NotText, next_text, text_rows};
pub use stop::Stop;
pub use text::{are_rising, cut, number, number_within, three_parts, two_parts};

#[cfg(test)]
mod tests;
