//! What a run opens, and what it makes, before the first message runs.
//!
//! The refusals come in this order: the folder is none; two of the files are one; a file of cells, in the order of spaces
//! and places; the file of the measured trace; the mark. Before that of two files that are one nothing is made or written.

ghost use Rattle.std.specs.Prelude.{◌≡◌, ◌⊎◌, ◌+◌, false, true, IfErr, IfOk, None, [], ◌∷◌, is_some, length, string_bytes};
ghost use Rattle.waff_inputs.specs.declared.fault.ToolError.TheVariants as tool;
ghost use Rattle.waff_run.specs.Faults.{AreTold, IsOfOpening};
ghost use Rattle.waff_run.specs.Files.{AreCellFiles, file_name, numbers_of, others_of};
ghost use Rattle.waff_run.specs.Named.{cells_named};
ghost use Rattle.waff_run.specs.Opening.{IsOfCell, IsOfTelling, how_opened, job_of, told_of};
ghost use Rattle.waff_run.specs.Same.{IsFirstOfTwo};
ghost use Rattle.waff_run.specs.declared.fault.RunError.TheVariants as run;

use crate::fault::RunError;
use crate::part::Part;
use crate::places::Places;
use crate::same::{Identity, first_of_two};
use crate::spots::ends;
use crate::store::{Folder, OwnFile, file_name};
use std::alloc::{AllocError, Global};
use std::fs::OpenOptions;
use std::os::unix::fs::MetadataExt;
use std::path::Path;
use std::{fs, io};
use waff_inputs::ToolError;
use waff_model::{Layout, Trace};

/// Where a run reads and writes, by the names that its words give.
#[derive(Clone, Copy)]
pub struct Site<'a> {
    /// The folder of the files of cells.
    pub folder: &'a str,
    /// Whether files that no run has made are written over.
    pub over: bool,
    /// The files that were read; the name `-` is standard input.
    pub inputs: &'a [String],
    /// The file for the measured trace, where it is wanted.
    pub measured: Option<&'a str>,
}

/// What is open for a run.
#[derive(Drop)]
pub struct Opened {
    pub store: Folder,
    /// The measured trace, where it is wanted.
    pub part: Option<Part>,
    /// What was found of the files of the run before one was made or written: of the files of cells in which the trace
    /// names some, in their order, and then of the others; none of a file that could not be told.
    pub found: Vec<Option<Identity>>,
}

/// What opens the files of a run.
pub trait Opens {
    /// Opens the files in which the trace names cells, and makes those that are not there, the file of the measured
    /// trace, and the mark.
    fn open_run(
        &self,
        alloc: Global,
        site: &Site<'_>,
        layout: &Layout,
        trace: &Trace,
        places: &Places,
    ) -> Result<Opened, RunError>
        ensures told { IfOk result (λ opened.
            AreTold (job_of layout.now places.now trace.now) (others_of site.now) opened.found.items) }
        ensures refused { IfErr result
            (IsOfOpening (job_of layout.now places.now trace.now) (told_of site.now)) };
}

impl Opens for HostRuntime {
    fn open_run(
        &self,
        alloc: Global,
        site: &Site<'_>,
        layout: &Layout,
        trace: &Trace,
        places: &Places,
    ) -> Result<Opened, RunError> {
        open_run(self, alloc, site, layout, trace, places)
    }
}

/// The name of the mark in a folder: an empty file that says that a run has made its files.
const MARK: &str = ".waff";

/// A file of cells in which the trace names some.
#[derive(Drop)]
struct CellFile {
    number: usize,
    path: String,
    /// How long it has to be.
    bytes: u64,
}

/// What is there under a name. A symbolic link is not followed.
#[derive(Clone, Copy, PartialEq)]
pub enum Entry {
    Nothing,
    Regular,
    Other,
}

impl Entry {
    /// What is there under this name.
    pub(crate) fn of(rt: &HostRuntime, path: &str) -> Entry {
        match fs::symlink_metadata(rt, path) {
            Ok(found) if found.is_file() => Entry::Regular,
            Ok(_) => Entry::Other,
            Err(error) if error.kind() == io::ErrorKind::NotFound => Entry::Nothing,
            Err(_) => Entry::Other,
        }
    }
}

/// Opens and makes all that a run reads and writes.
fn open_run(
    rt: &HostRuntime,
    alloc: Global,
    site: &Site<'_>,
    layout: &Layout,
    trace: &Trace,
    places: &Places,
) -> Result<Opened, RunError>
    ensures told { IfOk result (λ opened.
        AreTold (job_of layout.now places.now trace.now) (others_of site.now) opened.found.items) }
    ensures refused { IfErr result
        (IsOfOpening (job_of layout.now places.now trace.now) (told_of site.now)) }
{
    match fs::metadata(rt, site.folder) {
        Ok(found) if found.is_dir() => {}
        _ => return Err(RunError::Folder),
    }
    let files = cell_files(alloc, site.folder, layout, trace, places)?;
    let mark = path_in(alloc, site.folder, MARK)?;
    let found = found_apart(
        rt,
        alloc,
        site,
        layout,
        places,
        files.as_slice(),
        mark.as_str(),
    )?;
    let is_own = site.over || Entry::of(rt, mark.as_str()) == Entry::Regular;
    let store = open_cells(rt, alloc, layout, places, files.as_slice(), is_own)?;
    // The files are those of a run from here on, also where this one is refused.
    let marked = make_mark(rt, mark.as_str());
    let part = part_of(rt, alloc, site)?;
    if marked.is_err() {
        if let Some(part) = part {
            part.remove(rt);
        }
        return Err(RunError::File(MARK.to_string(alloc)?));
    }
    Ok(Opened { store, part, found })
}

/// The path of a file in a folder.
fn path_in(alloc: Global, folder: &str, name: &str) -> Result<String, AllocError> {
    format!(in alloc; "{folder}/{name}")
}

/// The files in which the trace names cells, in the order of spaces and places.
fn cell_files(
    alloc: Global,
    folder: &str,
    layout: &Layout,
    trace: &Trace,
    places: &Places,
) -> Result<Vec<CellFile>, AllocError>
    ensures { IfOk result (λ files. AreCellFiles places.now (cells_named trace.now.messages)
        (numbers_of files.items)) }
{
    let ends = ends(alloc, trace, places)?;
    let mut files = Vec::new(alloc);
    for number in 0..ends.len() {
        let bytes = ends[number];
        if bytes > 0 {
            let name = file_name(alloc, layout, places, number)?;
            let path = path_in(alloc, folder, name.as_str())?;
            files.push(CellFile {
                number,
                path,
                bytes,
            })?;
        }
    }
    Ok(files)
}

/// What is found of the files of a run, where none is another one.
fn found_apart(
    rt: &HostRuntime,
    alloc: Global,
    site: &Site<'_>,
    layout: &Layout,
    places: &Places,
    files: &[CellFile],
    mark: &str,
) -> Result<Vec<Option<Identity>>, RunError>
    ensures count { IfOk result (λ found.
        length found.items ≡ length files.now + others_of site.now) }
    ensures none { IfOk result (λ found. IsFirstOfTwo found.items None) }
    ensures refused { IfErr result (IsOfTelling layout.now.spaces places.now
        (numbers_of files.now) (others_of site.now)) }
{
    let found = identities(rt, alloc, site, files, mark)?;
    match first_of_two(alloc, found.as_slice())? {
        Some(at) if at < files.len() => {
            let name = file_name(alloc, layout, places, files[at].number)?;
            Err(RunError::Same(name))
        }
        Some(_) => Err(RunError::Same("trace".to_string(alloc)?)),
        None => Ok(found),
    }
}

/// The identities of the files of cells, and behind them those of all others; none of a file that cannot be told.
fn identities(
    rt: &HostRuntime,
    alloc: Global,
    site: &Site<'_>,
    files: &[CellFile],
    mark: &str,
) -> Result<Vec<Option<Identity>>, AllocError>
    ensures { IfOk result (λ all. length all.items ≡ length files.now + others_of site.now) }
{
    let mut all = Vec::new(alloc);
    for file in files {
        all.push(identity(rt, alloc, file.path.as_str())?)?;
    }
    all.push(identity(rt, alloc, mark)?)?;
    for input in site.inputs {
        let path = match input.as_str() {
            "-" => "/dev/stdin",
            path => path,
        };
        all.push(identity(rt, alloc, path)?)?;
    }
    if let Some(measured) = site.measured {
        let part = Part::path_of(alloc, measured)?;
        all.push(identity(rt, alloc, measured)?)?;
        all.push(identity(rt, alloc, part.as_str())?)?;
    }
    Ok(all)
}

/// The identity of the file of this name, where it can be told.
fn identity(rt: &HostRuntime, alloc: Global, path: &str) -> Result<Option<Identity>, AllocError> {
    match fs::metadata(rt, path) {
        Ok(found) => Ok(Some(Identity {
            device: found.dev(),
            inode: found.ino(),
            name: String::new(alloc),
        })),
        Err(error) if error.kind() == io::ErrorKind::NotFound => {
            identity_in_folder(rt, alloc, path)
        }
        Err(_) => Ok(None),
    }
}

/// The identity of the file of this name, which is not there, where its folder is.
fn identity_in_folder(
    rt: &HostRuntime,
    alloc: Global,
    path: &str,
) -> Result<Option<Identity>, AllocError> {
    let path = Path::new(path);
    let (Some(folder), Some(name)) = (path.parent(), path.file_name()) else {
        return Ok(None);
    };
    let folder = folder.as_str();
    let folder = if folder.is_empty() { "." } else { folder };
    match fs::metadata(rt, folder) {
        Ok(found) => Ok(Some(Identity {
            device: found.dev(),
            inode: found.ino(),
            name: name.to_string(alloc)?,
        })),
        Err(_) => Ok(None),
    }
}

/// How a file of cells is opened.
#[derive(Clone, Copy, Debug, PartialEq)]
pub enum How {
    /// It is made.
    Make,
    /// It is taken as it is, and made longer where it is too short.
    Take,
    /// It is not: no run has made it, and nobody said that it is to be written over.
    Foreign,
    /// It is not: it is no regular file.
    Never,
}

/// How a file of cells is opened, by what is there, and whether what is there may be written over: a run has made it, or
/// `--over` is given.
fn how_opened(found: Entry, is_own: bool) -> How
    ensures { result ≡ how_opened found is_own }
{
    match found {
        Entry::Nothing => How::Make,
        Entry::Regular if is_own => How::Take,
        Entry::Regular => How::Foreign,
        Entry::Other => How::Never,
    }
}

/// Opens the files of cells in their order, and locks each.
fn open_cells(
    rt: &HostRuntime,
    alloc: Global,
    layout: &Layout,
    places: &Places,
    files: &[CellFile],
    is_own: bool,
) -> Result<Folder, RunError>
    ensures { IfErr result
        (IsOfCell layout.now.spaces places.now (numbers_of files.now) is_own) }
{
    let mut opened = Vec::new(alloc);
    for at in 0..files.len() {
        let file = &files[at];
        match open_cell(rt, alloc, layout, places, file, is_own) {
            Ok(cells) => put_at(&mut opened, file.number, cells)?,
            Err(error) => return Err(error),
        }
    }
    Ok(Folder::of(opened))
}

/// Puts a file at its number, behind those before it, where the trace names no cell in those between.
fn put_at(
    opened: &mut Vec<Option<OwnFile>>,
    number: usize,
    file: OwnFile,
) -> Result<(), AllocError> {
    for _ in opened.len()..number {
        if opened.push(None).is_err() {
            return Err(AllocError);
        }
    }
    match opened.push(Some(file)) {
        Ok(()) => Ok(()),
        Err(_) => Err(AllocError),
    }
}

/// Opens a file of cells.
fn open_cell(
    rt: &HostRuntime,
    alloc: Global,
    layout: &Layout,
    places: &Places,
    file: &CellFile,
    is_own: bool,
) -> Result<OwnFile, RunError>
    ensures { IfErr result
        (IsOfCell layout.now.spaces places.now (file.now.number ∷ []) is_own) }
{
    let path = file.path.as_str();
    let how = how_opened(Entry::of(rt, path), is_own);
    match open_long(rt, path, how, file.bytes) {
        Ok(opened) => Ok(opened),
        Err(_) => {
            let name = file_name(alloc, layout, places, file.number)?;
            Err(match how {
                How::Foreign => RunError::Foreign(name),
                _ => RunError::File(name),
            })
        }
    }
}

/// Opens and locks a regular file, of this many bytes at least.
fn open_long(rt: &HostRuntime, path: &str, how: How, bytes: u64) -> io::Result<OwnFile> {
    let mut options = OpenOptions::new();
    options.read(true);
    options.write(true);
    match how {
        How::Make => {
            options.create_new(true);
        }
        How::Take => {}
        How::Foreign | How::Never => return Err(refused()),
    }
    let Some(file) = OwnFile::of(options.open(rt, path)?) else {
        return Err(refused());
    };
    file.lengthen(bytes)?;
    Ok(file)
}

/// The error of what is not opened.
fn refused() -> io::Error {
    io::Error::from(io::ErrorKind::InvalidInput)
}

/// Makes the file of the measured trace, where it is wanted.
fn part_of(rt: &HostRuntime, alloc: Global, site: &Site<'_>) -> Result<Option<Part>, RunError>
    ensures wanted { IfErr result (λ _. is_some site.now.measured ≡ true) }
    ensures fault { IfErr result (λ error.
        (error ≡ run.Tool tool.Memory) ⊎ (error ≡ run.Tool tool.Write)) }
{
    let Some(name) = site.measured else {
        return Ok(None);
    };
    match Part::make(rt, alloc, name)? {
        Some(part) => Ok(Some(part)),
        None => Err(RunError::Tool(ToolError::Write)),
    }
}

/// Leaves the mark, where it is not there.
fn make_mark(rt: &HostRuntime, mark: &str) -> io::Result<()> {
    match Entry::of(rt, mark) {
        Entry::Regular => Ok(()),
        Entry::Nothing => {
            let mut options = OpenOptions::new();
            options.write(true);
            options.create_new(true);
            drop(options.open(rt, mark)?);
            Ok(())
        }
        Entry::Other => Err(refused()),
    }
}
