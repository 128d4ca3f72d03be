//! Texts with one part changed.

use std::alloc::Global;
use std::process::Abort;

/// The text with another part in place of the first part like this one, which has to be there.
pub fn changed(rt: &impl Abort, alloc: Global, text: &str, part: &str, other: &str) -> String {
    let (before, after) = text.split_once(part).expect(rt, "the part is not there");
    format!(in alloc; "{before}{other}{after}").expect(rt, "a text")
}
