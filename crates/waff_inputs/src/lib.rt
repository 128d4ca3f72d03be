//! What every command begins and ends with: its files accepted or refused, and its text written.
//!
//! The nouns: a hierarchy and a trace over it are *accepted*, with what each message holds; a
//! *fault* (`ToolError`) tells why a command gave no text, and has a line and an exit status; a
//! *text* is written whole, or a part of it from its front.
//! The one step: the bytes of a hierarchy and of a trace are read in this order, and the first that
//! is refused decides.
//!
//! - `inputs`: a hierarchy by its number; a hierarchy and a trace with the assignment.
//! - `traces`: traces of the versions that the commands know.
//! - `fault`, `fault_names`: faults, their lines and statuses.
//! - `output`: a text written.
//! - `unique`: one fault for each input.
//!
//! What each text is, the commands say; plan texts are read by those that take one. The limits of
//! files are those of their readers, and an allocation failure is one fault wherever it comes from.
//!
//! What each text call delivers is one record, `Delivers` (`specs/Deliveries.antt`), over what its
//! text is: where it answers Ok the text was written, and nothing else; where the writer failed, a
//! prefix of the text; else nothing was, and the files are refused for the error. The refusal is
//! the hierarchy's, or else the trace's, exactly as the reader names it, and it is one.
#![tactic(auto)]

mod fault;
mod fault_names;
mod inputs;
mod output;
mod traces;
pub mod unique;

pub use fault::{ToolError, fault_status, fault_text, write_fault};
pub use inputs::{
    Accepted, MAX_RANKED, accept, accept_by_threads, accept_over_layout, read_numbered,
};
pub use output::{deliver, write_text};
pub use traces::{newest, read_trace, read_trace_by_threads};
