//! The readers of hierarchies and traces.
//!
//! - `hierarchy`: the reader of hierarchies, over `document` (the values of a TOML document),
//!   `shape` (the keys and their types), `affinities` (the tree), `spaces` (the rows of a layout)
//!   and `names` (affinities and spaces by name); `hier_error` has what it refuses.
//! - `trace`: the reader of traces, over `columns` (the fields of a record, and the header),
//!   `message` (one record), `place` (where it stands), `awaits` (the list of a message), `ops`
//!   (its operations), `op` (one operation), `range` (an operation on cells in a row) and
//!   `space_table` (the spaces by name); `trace_fault` has what it refuses. `halves`, over `lines`
//!   (a text cut between its records) and `plain` (records without quotes): the same for long
//!   traces, by several threads.
//! - `laws`: what holds of all files that are accepted or refused; `limit_laws`: that what is read
//!   is within the limits.
//!
//! What the files stand for is defined in `specs/`. Of a hierarchy: `Hierarchies` (whole files),
//! over `Documents`, `Formats`, `Shapes`, `Affinities` and `Spaces`. Of a trace: `Traces` (whole
//! texts), over `Messages` (records at their `Places`), `Awaits` (lists) and `Pieces`, which are
//! operations (`Ops`) or `Ranges` as they are spelled, with `TraceFaults` (the order of the
//! refusals) and `Plain` (records without quotes). `Spellings` has the text that spells a trace,
//! `Anew` the one that tells its records anew, with other costs and other lists.
//!
//! A file is read exactly where the format accepts it, as what is written there. Else the refusal
//! is the one that the format names: of the first record with a fault, and of its first check that
//! holds. An allocation failure apart. The laws say the same in words of their own, and that what
//! is spelled is read back, and what is told anew.
//!
//! Tests: `test_worked/src/hierarchies.rt` and `traces.rt` (tables of refusals in the order of the
//! checks, the sample with one change each, the ends of each limit, quoted fields, CR LF, blank
//! lines, a byte order mark, bytes that are no text); `test_worked/src/long_traces.rt`; the command
//! cases `refused-*`, and `explain` of each refusal.
#![tactic(auto)]

mod affinities;
mod awaits;
mod columns;
mod document;
mod halves;
mod hier_error;
mod hierarchy;
pub mod laws;
pub mod limit_laws;
mod lines;
mod message;
mod names;
mod op;
mod ops;
mod place;
mod plain;
mod range;
mod shape;
mod space_table;
mod spaces;
mod trace;
mod trace_fault;

pub use halves::read_trace_by_threads;
pub use hier_error::{HierError, Key};
pub use hierarchy::{read_format, read_hierarchy};
pub use trace::{read_trace, read_trace_up_to};
pub use trace_fault::TraceError;
