//! What is found of a random trace, beside what is wanted.

use std::process::Abort;

/// A number that is found has to be the wanted one.
pub fn is_same(rt: &impl Abort, trace: u32, what: &str, found: u64, wanted: u64) {
    assert_eq!(rt; found, wanted, "trace {trace}: {what}");
}

/// Ticks or sets that are found have to be the wanted ones.
pub fn are_same(rt: &impl Abort, trace: u32, what: &str, found: &[u64], wanted: &[u64]) {
    assert_eq!(rt; found, wanted, "trace {trace}: {what}");
}

/// Messages or workers that are found have to be the wanted ones.
pub fn are_same_numbers(rt: &impl Abort, trace: u32, what: &str, found: &[u32], wanted: &[u32]) {
    assert_eq!(rt; found, wanted, "trace {trace}: {what}");
}

/// A number has to be at most another.
pub fn is_at_most(rt: &impl Abort, trace: u32, what: &str, number: u64, most: u64) {
    assert!(rt;
        number <= most,
        "trace {trace}: {what}: {number}, at most {most}"
    );
}
