//! Where the bytes of cells are: files in a folder, or what a test has in their place.

ghost use Rattle.std.specs.Prelude.{◌≡◌, IfOk, None, map, option_map, string_bytes};
ghost use Rattle.waff_run.specs.Files.{file_name};
ghost use Rattle.waff_run.specs.Hands.{AreFresh};
ghost use Rattle.waff_run.specs.declared.store.Holder.TheVariants.{Own};

use crate::places::Places;
use std::alloc::{AllocError, Global};
use std::fs::File;
use std::io;
use std::marker::Send;
use std::os::unix::fs::FileExt;
use waff_model::Layout;

/// A file, by its number, in which something could not be done.
#[derive(Clone, Copy, Debug, PartialEq)]
pub struct StoreFault {
    pub file: usize,
}

/// Files, numbered from 0, whose bytes are read and written at a place. Who asks has a hand, and by each hand one thing is
/// asked after the other. Only the store itself makes hands, and notes what was asked by one: what a store does not tell
/// is not known of it.
pub trait Store {
    ghost use Rattle.std.specs.Prelude.{List, None, OnOk, Option};
    ghost use Rattle.waff_run.specs.Asked.{Access, GoesOnBy, was_read, was_synced, was_written};

    /// By what is asked.
    type Hand: Drop + Send;

    /// What was asked by a hand and done, in order, where that is known.
    ghost log: { Self.Hand → Option (List Access) } = { λ _. None };

    /// Reads as many bytes as there is room for.
    fn read(
        &self,
        hand: &mut Self::Hand,
        file: usize,
        at: u64,
        bytes: &mut [u8],
    ) -> Result<(), StoreFault>
        ensures { OnOk result (GoesOnBy (log hand.old) (log hand.new)
            (was_read (record { file = file; at = at }) bytes.new)) };

    /// Writes these bytes.
    fn write(
        &self,
        hand: &mut Self::Hand,
        file: usize,
        at: u64,
        bytes: &[u8],
    ) -> Result<(), StoreFault>
        ensures { OnOk result (GoesOnBy (log hand.old) (log hand.new)
            (was_written (record { file = file; at = at }) bytes.now)) };

    /// What was written is on the device when this has ended.
    fn sync(&self, hand: &mut Self::Hand, file: usize) -> Result<(), StoreFault>
        ensures { OnOk result (GoesOnBy (log hand.old) (log hand.new) (was_synced file)) };
}

/// A hand for each of so many messages, by which nothing was asked, for a store that does not tell what is asked of it.
pub fn silent_hands(alloc: Global, count: usize) -> Result<Vec<Option<()>>, AllocError>
    ensures { IfOk result (λ hands. AreFresh count (map (option_map (λ _. None)) hands.items)) }
{
    let mut hands = Vec::with_capacity(alloc, count)?;
    for at in 0..count {
        hands.push(Some(()))?;
    }
    Ok(hands)
}

/// Who holds a file.
#[derive(Clone, Copy)]
pub(crate) enum Holder {
    /// This run, until it is closed.
    Own,
    /// Another one, as far as can be told.
    Other,
}

impl Holder {
    /// Takes hold of the file, where nobody else holds it.
    fn of(file: &File) -> Holder {
        match file.try_lock() {
            Ok(()) => Holder::Own,
            Err(_) => Holder::Other,
        }
    }
}

/// A file that this run holds.
#[derive(Drop)]
pub(crate) struct OwnFile {
    file: File,
    holder: Holder,
    ghost own: { holder ≡ Own },
}

impl OwnFile {
    /// The file, where no other run holds it.
    pub(crate) fn of(file: File) -> Option<OwnFile> {
        let holder = Holder::of(&file);
        match holder {
            Holder::Own => Some(OwnFile { file, holder }),
            Holder::Other => None,
        }
    }

    /// Makes it so many bytes long, where it is shorter.
    pub(crate) fn lengthen(&self, bytes: u64) -> io::Result<()> {
        let long = self.file.metadata()?.len();
        if long < bytes {
            self.file.set_len(bytes)?;
        }
        Ok(())
    }
}

/// Files of a folder, all open.
#[derive(Drop)]
pub struct Folder {
    files: Vec<Option<OwnFile>>,
}

impl Folder {
    /// These files, by their numbers.
    pub(crate) fn of(files: Vec<Option<OwnFile>>) -> Folder {
        Folder { files }
    }

    fn file(&self, file: usize) -> Result<&File, StoreFault> {
        match self.files.get(file) {
            Some(Some(found)) => Ok(&found.file),
            _ => Err(StoreFault { file }),
        }
    }
}

impl Store for Folder {
    // What is asked of files nobody is told.
    type Hand = ();

    fn read(
        &self,
        _hand: &mut (),
        file: usize,
        at: u64,
        bytes: &mut [u8],
    ) -> Result<(), StoreFault> {
        match self.file(file)?.read_exact_at(bytes, at) {
            Ok(()) => Ok(()),
            Err(_) => Err(StoreFault { file }),
        }
    }

    fn write(&self, _hand: &mut (), file: usize, at: u64, bytes: &[u8]) -> Result<(), StoreFault> {
        match self.file(file)?.write_all_at(bytes, at) {
            Ok(()) => Ok(()),
            Err(_) => Err(StoreFault { file }),
        }
    }

    fn sync(&self, _hand: &mut (), file: usize) -> Result<(), StoreFault> {
        match self.file(file)?.sync_data() {
            Ok(()) => Ok(()),
            Err(_) => Err(StoreFault { file }),
        }
    }
}

/// The name of a file: that of its space, and its place in the list of the space's map.
pub(crate) fn file_name(
    alloc: Global,
    layout: &Layout,
    places: &Places,
    file: usize,
) -> Result<String, AllocError>
    ensures { IfOk result (λ name.
        string_bytes name ≡ file_name layout.now.spaces places.now file) }
{
    match places.place(file) {
        Some((space, place)) if space < layout.space_count() as usize => {
            let name = layout.space_name(space as u32);
            format!(in alloc; "{name}.{place}")
        }
        _ => format!(in alloc; "{file}"),
    }
}
