//! What is told, beside what is wanted.

use std::process::Abort;

/// What is told has to be this.
pub fn is_same(rt: &impl Abort, told: &str, wanted: &str) {
    assert_eq!(rt; told, wanted);
}
