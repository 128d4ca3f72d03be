//! What is made side by side.

ghost use Rattle.std.specs.Prelude.{◌≡◌, ◌≤◌, IfOk, Some, map};

use std::alloc::{AllocError, Global};
use std::thread::{Threads, available_parallelism};

/// At most so many plans are made at the same time, since each of them takes memory.
const MOST: usize = 8;

/// A trace of fewer messages is planned by one thread.
const LONG: u32 = 1_024;

/// How many plans of a trace of so many messages are made at the same time: as many as there are
/// processors, eight at most, and one of a short trace.
pub fn sides(rt: &impl Threads, messages: u32) -> usize
    ensures { 1 ≤ result }
{
    if messages < LONG {
        return 1;
    }
    match available_parallelism(rt) {
        Ok(processors) => processors.get().min(MOST),
        Err(_) => 1,
    }
}

/// All of these, where each was made.
pub fn all_made<T: Copy>(alloc: Global, slots: &[Option<T>]) -> Result<Vec<T>, AllocError>
    ensures { IfOk result (λ all. map Some all.items ≡ slots.now) }
{
    let mut all = Vec::with_capacity(alloc, slots.len())?;
    for slot in slots {
        match *slot {
            Some(made) => all.push_reserved(made),
            None => return Err(AllocError),
        }
    }
    Ok(all)
}
