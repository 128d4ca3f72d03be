//! Numbers in words.

use std::alloc::AllocError;
use std::fmt::Write;

/// Appends the numbers, each after a space.
pub fn push_numbers(words: &mut String, numbers: &[u32]) -> Result<(), AllocError> {
    for number in numbers {
        write!(words, " {number}")?;
    }
    Ok(())
}
