//! Which files are one, whatever their names.

ghost use Rattle.std.specs.Prelude.{IfOk};
ghost use Rattle.waff_run.specs.Same.{IsFirstOfTwo};

use std::alloc::{AllocError, Global};
use std::collections::HashSet;

/// By what a file is told apart from all others.
#[derive(PartialEq, Eq, Hash, Drop)]
pub struct Identity {
    /// The device on which it lies.
    pub device: u64,
    /// Its number there, the inode. Of a file that is not there yet, that of the folder in which it would lie.
    pub inode: u64,
    /// The name in its folder of a file that is not there yet, and of one that is there empty.
    pub name: String,
}

/// The place of the first of these files that is another of them too. One whose identity is not known is none of the others.
pub(crate) fn first_of_two(
    alloc: Global,
    files: &[Option<Identity>],
) -> Result<Option<usize>, AllocError>
    ensures { IfOk result (IsFirstOfTwo files.now) }
{
    let mut behind = HashSet::new(alloc);
    let mut first = None;
    let mut at = files.len();
    while at > 0 {
        at -= 1;
        if let Some(file) = &files[at] {
            if !behind.insert(file)? {
                first = Some(at);
            }
        }
    }
    Ok(first)
}
