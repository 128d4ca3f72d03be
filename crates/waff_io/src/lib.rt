//! Input read whole, one input parted into two, and bytes written out.
//!
//! The readers of files and the commands work on bytes in memory; here is how the bytes come and
//! go.
//! - `reading`: all bytes of a reader, up to a limit.
//! - `split`: what stands before and after the line `---` of one input.
//! - `writing`: all bytes to a writer, one loop over `write`.
//! - `stream`: a stream for what went wrong, which knows whether a write to it failed.
//!
//! What is written is told by `W.contents`, so the clauses hold for every writer that reports its
//! bytes. They claim nothing of one that reports none, as the standard output and the standard
//! error of the program. `ErrorStream` keeps whether a write to it failed.
//!
//! Tests stand below the calls.
#![tactic(auto)]

mod reading;
mod split;
mod stream;
mod writing;

pub use reading::{ReadFault, read_whole};
pub use split::split_input;
pub use stream::{ErrorStream, Watched, write_pieces};
pub use writing::{WriteFault, write_whole};
