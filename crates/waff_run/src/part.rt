//! The file of the measured trace before it is whole.

use crate::opening::Entry;
use std::alloc::{AllocError, Global};
use std::fs::{File, OpenOptions};
use std::io::Write;
use std::rt::Files;
use std::{fs, io};

/// A file beside the one that is wanted, whose name it takes when it is whole.
#[derive(Drop)]
pub struct Part {
    file: File,
    /// Its own name.
    path: String,
    /// The name that it takes.
    name: String,
}

impl Part {
    /// The name of the file beside that of this name.
    pub(crate) fn path_of(alloc: Global, name: &str) -> Result<String, AllocError> {
        format!(in alloc; "{name}.part")
    }

    /// Makes the file beside that of this name; none where that cannot be, or where there is something of either name that
    /// is no regular file.
    pub(crate) fn make(
        rt: &HostRuntime,
        alloc: Global,
        name: &str,
    ) -> Result<Option<Part>, AllocError> {
        let path = Part::path_of(alloc, name)?;
        let name = name.to_string(alloc)?;
        match empty_file(rt, name.as_str(), path.as_str()) {
            Ok(file) => Ok(Some(Part { file, path, name })),
            Err(_) => Ok(None),
        }
    }

    /// Writes the text, and gives the file the name that is wanted. Where that fails the file goes.
    pub fn keep<R: Files>(self, rt: &R, text: &[u8]) -> io::Result<()> {
        let Part { file, path, name } = self;
        let mut file = file;
        let kept = match file.write_all(text) {
            Ok(()) => fs::rename(rt, path.as_str(), name.as_str()),
            Err(error) => Err(error),
        };
        if kept.is_err() {
            let _ = fs::remove_file(rt, path.as_str());
        }
        drop(file);
        drop(path);
        drop(name);
        kept
    }

    /// The file goes: there is nothing to be written.
    pub fn remove<R: Files>(self, rt: &R) {
        let _ = fs::remove_file(rt, self.path.as_str());
        drop(self);
    }
}

/// An empty file of this path, which nobody else holds, beside the one of this name.
fn empty_file(rt: &HostRuntime, name: &str, path: &str) -> io::Result<File> {
    let refused = io::Error::from(io::ErrorKind::InvalidInput);
    if Entry::of(rt, name) == Entry::Other {
        return Err(refused);
    }
    let mut options = OpenOptions::new();
    options.write(true);
    match Entry::of(rt, path) {
        Entry::Nothing => {
            options.create_new(true);
        }
        Entry::Regular => {}
        Entry::Other => return Err(refused),
    }
    let file = options.open(rt, path)?;
    if file.try_lock().is_err() {
        return Err(refused);
    }
    file.set_len(0)?;
    Ok(file)
}
