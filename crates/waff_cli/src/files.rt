//! Files and standard input, read whole.
ghost use Rattle.std.specs.Prelude.{◌≡◌, ◌+◌, IfOk, OnOk, length};

use crate::refusal::{FAILED, Refusal};
use std::alloc::Global;
use std::fmt::Display;
use std::io::Read;
use std::rt::{Files, Runtime};
use std::{fs, io};
use waff_io::{ErrorStream, ReadFault, read_whole};

/// The most bytes of a file, and of standard input.
const MAX_INPUT: u64 = 268_435_456;

/// The name of standard input among the names of files.
pub(crate) const INPUT: &str = "-";

/// A file that was not read.
#[derive(Clone, Copy)]
pub struct Unread<'a> {
    name: &'a str,
    /// Its place among the file words, from 1; 0 is standard input.
    place: usize,
    fault: Fault,
}

/// Why a file was not read.
#[derive(Clone, Copy)]
enum Fault {
    /// It could not be opened.
    Closed(io::Error),
    Failed,
    TooLong,
    Memory,
}

impl From<ReadFault> for Fault {
    fn from(fault: ReadFault) -> Fault {
        match fault {
            ReadFault::Failed => Fault::Failed,
            ReadFault::TooLong => Fault::TooLong,
            ReadFault::Memory => Fault::Memory,
        }
    }
}

/// What is told of a file that was not read.
#[derive(Clone, Copy)]
pub enum Told {
    /// The line of the fault.
    Fault,
    /// The name of the file, and what the system says.
    Reason,
    /// Both, in this order.
    Both,
}

impl Unread<'_> {
    /// The refusal that this comes to. A reason that is to be told is printed here.
    pub fn refusal<R: Eprint + Files, E: ErrorStream>(
        self,
        rt: &R,
        alloc: Global,
        told: Told,
        err: &mut E,
    ) -> Refusal {
        let fault = Refusal::Read(self.place);
        match (self.fault, told) {
            (Fault::Memory, _) => return Refusal::Memory,
            (_, Told::Fault) => return fault,
            (_, Told::Both) => {
                let _ = fault.report(alloc, err);
            }
            (_, Told::Reason) => {}
        }
        self.tell_reason(rt);
        Refusal::Told(FAILED)
    }

    /// A line of why it was not read.
    fn tell_reason<R: Eprint + Files>(&self, rt: &R) {
        match self.fault {
            Fault::Memory => self.tell(rt, &"memory was refused"),
            Fault::Closed(error) => self.tell(rt, &error),
            Fault::Failed => match read_error(rt, self.name) {
                Some(error) => self.tell(rt, &error),
                None => self.tell(rt, &"it could not be read"),
            },
            Fault::TooLong => self.tell(rt, &format_args!("it has more than {MAX_INPUT} bytes")),
        }
    }

    /// A line on standard error. Where that fails, the exit status has to do.
    fn tell(&self, rt: &impl Eprint, why: &impl Display) {
        let _ = eprintln!(rt; "waff: {}: {why}", self.name);
    }
}

/// What the system says where the file of this name is open and can't be read.
fn read_error(rt: &impl Files, name: &str) -> Option<io::Error> {
    if name == INPUT {
        return None;
    }
    match fs::open(rt, name) {
        Ok(mut file) => file.read(&mut [0]).err(),
        Err(error) => Some(error),
    }
}

/// The bytes of the files of these names, in their order. Before standard input is read, `waiting` is
/// said where there is something to say.
pub fn read_files<'a, R: Runtime>(
    rt: &R,
    alloc: Global,
    names: &[&'a str],
    waiting: Option<&str>,
) -> Result<Vec<Vec<u8>>, Unread<'a>>
    ensures { IfOk result (λ files. length files.items ≡ length names.now) }
{
    let mut files = Vec::new(alloc);
    match push_files(rt, alloc, names, waiting, &mut files) {
        Ok(()) => Ok(files),
        Err(unread) => Err(unread),
    }
}

/// Appends the bytes of the files of these names.
fn push_files<'a, R: Runtime>(
    rt: &R,
    alloc: Global,
    names: &[&'a str],
    waiting: Option<&str>,
    files: &mut Vec<Vec<u8>>,
) -> Result<(), Unread<'a>>
    ensures { OnOk result
        (length files.new.items ≡ length files.old.items + length names.now) }
{
    for at in 0..names.len() {
        let name = names[at];
        if name == INPUT {
            say(rt, waiting);
        }
        if let Err(fault) = push_file(rt, alloc, name, files) {
            let place = if name == INPUT { 0 } else { at + 1 };
            return Err(Unread { name, place, fault });
        }
    }
    Ok(())
}

/// A line on standard error, where there is one. Where that fails, the input is read all the same.
fn say(rt: &impl Eprint, line: Option<&str>) {
    if let Some(line) = line {
        let _ = rt.eprintln(line);
    }
}

/// Appends the bytes of the file of this name.
fn push_file<R: Runtime>(
    rt: &R,
    alloc: Global,
    name: &str,
    files: &mut Vec<Vec<u8>>,
) -> Result<(), Fault>
    ensures { OnOk result (length files.new.items ≡ length files.old.items + 1) }
{
    match files.push(read_named(rt, alloc, name)?) {
        Ok(()) => Ok(()),
        Err(_) => Err(Fault::Memory),
    }
}

/// The bytes of the file of this name, or of standard input.
fn read_named<R: Runtime>(rt: &R, alloc: Global, name: &str) -> Result<Vec<u8>, Fault> {
    if name == INPUT {
        return Ok(read_whole(alloc, &mut rt.reader(), MAX_INPUT)?);
    }
    read_file(rt, alloc, name)
}

fn read_file(rt: &impl Files, alloc: Global, name: &str) -> Result<Vec<u8>, Fault> {
    match fs::open(rt, name) {
        Ok(mut file) => Ok(read_whole(alloc, &mut file, MAX_INPUT)?),
        Err(error) if error.kind() == io::ErrorKind::OutOfMemory => Err(Fault::Memory),
        Err(error) => Err(Fault::Closed(error)),
    }
}
