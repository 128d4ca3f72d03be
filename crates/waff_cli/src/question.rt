//! The words are read, and then the files that they name.
ghost use Rattle.std.specs.Prelude.{◌≡◌, ℕ, IfOk, List, map, string_bytes};
ghost use Rattle.clap.specs.Words.{subcommand_rows_of};
ghost use Rattle.waff_cli.specs.Tasks.{IsTask, IsTaskOfWords};

use crate::files::{Told, read_files};
use crate::found::{command_in, flag_in};
use crate::help::ending;
use crate::parser::{ProgramVersion, VERBOSE, parser};
use crate::refusal::Refusal;
use crate::requests::{Request, RunRequest, Wanted};
use crate::task::{Question, RunTask, Task};
use crate::words::{Asked, wanted_of};
use clap::ArgMatches;
use std::alloc::{AllocError, Global};
use std::rt::Runtime;
use std::{env, io};
use waff_io::ErrorStream;

/// Which standard streams are those of a terminal.
#[derive(Clone, Copy)]
pub struct Terminals {
    /// Standard input is what somebody types.
    pub input: bool,
    /// Standard error is what somebody reads.
    pub error: bool,
}

/// What is said where the program has no words, and waits for what somebody types.
const WITHOUT_WORDS: &str = "\
waff: reads a hierarchy, a line ---, and a trace from standard input; waff --help says more";

/// What is said where it waits for what somebody types in place of a file.
const FOR_A_FILE: &str = "waff: reads the file - from standard input, up to its end (Ctrl-D)";

/// Reads the words that the program was started with, and the files that they name. What is wrong with
/// them is told on standard error, which `err` is too.
pub fn read_task<R: Runtime + AllocGlobal, E: ErrorStream>(
    rt: &R,
    version: ProgramVersion,
    terminals: Terminals,
    err: &mut E,
) -> Result<Task, Refusal>
    ensures { IfOk result (λ task. (words : List (List ℕ)) × IsTaskOfWords words task) }
{
    match read_words_and_files(rt, version, terminals, err) {
        Ok(task) => Ok(task),
        Err(Refusal::Memory) if terminals.error => Err(Refusal::no_memory(rt, rt.alloc(), err)),
        Err(refusal) => Err(refusal),
    }
}

/// Reads the words and the files.
fn read_words_and_files<R: Runtime + AllocGlobal, E: ErrorStream>(
    rt: &R,
    version: ProgramVersion,
    terminals: Terminals,
    err: &mut E,
) -> Result<Task, Refusal>
    ensures { IfOk result (λ task. (words : List (List ℕ)) × IsTaskOfWords words task) }
{
    let words = words_of(rt)?;
    let task = task_of_words(rt, rt.alloc(), version, words.as_slice(), terminals, err);
    drop(words);
    task
}

/// The words that the program was started with, its own name first.
fn words_of<R: Runtime + AllocGlobal>(rt: &R) -> Result<Vec<String>, Refusal> {
    match env::args(rt) {
        Ok(words) => Ok(words.collect(rt.alloc())?),
        Err(error) if error.kind() == io::ErrorKind::OutOfMemory => Err(Refusal::Memory),
        Err(_) => Err(Refusal::NoWords),
    }
}

/// What these words want done, the program's own name first, with the files that they name. Where they
/// are refused, or ask for help, that is printed, and the refusal has the exit status; it is loud where
/// standard error is a terminal.
pub fn task_of_words<R: Runtime, E: ErrorStream>(
    rt: &R,
    alloc: Global,
    version: ProgramVersion,
    words: &[String],
    terminals: Terminals,
    err: &mut E,
) -> Result<Task, Refusal>
    ensures { IfOk result (IsTaskOfWords (map string_bytes words.now)) }
{
    let (short, long) = (ending(alloc, false)?, ending(alloc, true)?);
    let parser = parser(alloc, version, short.trim_start(), long.trim_start())?;
    match parser.try_get_matches_from(words) {
        Ok(matches) => {
            let task = task_of(rt, alloc, &matches, terminals, err);
            drop(matches);
            task
        }
        Err(error) => Err(Refusal::of(rt, alloc, &error, command_of(words), terminals.error)),
    }
}

/// Whether this command says below a fault what helps: at a terminal, and with `--verbose` elsewhere too.
fn is_loud(matches: &ArgMatches<'_>, terminals: Terminals) -> bool {
    let is_verbose = match command_in(matches) {
        Some((_, found)) => flag_in(found, VERBOSE),
        None => false,
    };
    terminals.error || is_verbose
}

/// The word for the command, where there is one.
fn command_of(words: &[String]) -> &str {
    match words.get(1) {
        Some(word) => word.as_str(),
        None => "",
    }
}

/// What the words want done of which this was found, with the files that they name.
pub fn task_of<R: Runtime, E: ErrorStream>(
    rt: &R,
    alloc: Global,
    matches: &ArgMatches<'_>,
    terminals: Terminals,
    err: &mut E,
) -> Result<Task, Refusal>
    ensures { IfOk result (IsTask (subcommand_rows_of matches.now)) }
{
    let loud = is_loud(matches, terminals);
    match wanted_task(rt, alloc, matches, terminals, loud, err) {
        Err(Refusal::Memory) if loud => Err(Refusal::no_memory(rt, alloc, err)),
        task => task,
    }
}

/// The same of a command that is loud or not.
fn wanted_task<R: Runtime, E: ErrorStream>(
    rt: &R,
    alloc: Global,
    matches: &ArgMatches<'_>,
    terminals: Terminals,
    loud: bool,
    err: &mut E,
) -> Result<Task, Refusal>
    ensures { IfOk result (IsTask (subcommand_rows_of matches.now)) }
{
    match wanted_of(rt, alloc, matches) {
        Ok(Wanted::Answer(request)) => match question_of(rt, alloc, request, terminals, loud, err) {
            Ok(question) => Ok(Task::Question(question)),
            Err(refusal) => Err(refusal),
        },
        Ok(Wanted::Run(request)) => match run_of(rt, alloc, request, terminals, loud, err) {
            Ok(run) => Ok(Task::Run(run)),
            Err(refusal) => Err(refusal),
        },
        Err(refusal) => Err(refusal),
    }
}

/// A run, with the files that its words name.
fn run_of<R: Runtime, E: ErrorStream>(
    rt: &R,
    alloc: Global,
    request: RunRequest<'_>,
    terminals: Terminals,
    loud: bool,
    err: &mut E,
) -> Result<RunTask, Refusal>
    ensures { IfOk result (λ run. run.words ≡ request.entry.words) }
{
    let RunRequest {
        words,
        files: names,
    } = request;
    let mut kept = Vec::new(alloc);
    push_copies(alloc, names.as_slice(), &mut kept)?;
    let waiting = if terminals.input {
        Some(FOR_A_FILE)
    } else {
        None
    };
    match read_files(rt, alloc, names.as_slice(), waiting) {
        Ok(files) => Ok(RunTask {
            words,
            files,
            names: kept,
            loud,
            progress: terminals.error,
        }),
        Err(unread) => Err(unread.refusal(rt, alloc, told(false, loud), err)),
    }
}

/// What a request asks, of the files that it names.
fn question_of<R: Runtime, E: ErrorStream>(
    rt: &R,
    alloc: Global,
    request: Request<'_>,
    terminals: Terminals,
    loud: bool,
    err: &mut E,
) -> Result<Question, Refusal>
    ensures { IfOk result (λ question. question.asked ≡ request.entry.asked) }
{
    let Request {
        asked,
        files: names,
    } = request;
    let kept = kept_names(alloc, names.as_slice(), loud)?;
    match read_files(rt, alloc, names.as_slice(), waiting(&asked, terminals)) {
        Ok(files) => Ok(Question {
            asked,
            files,
            names: kept,
        }),
        Err(unread) => {
            let is_explained = matches!(asked, Asked::Explain);
            Err(unread.refusal(rt, alloc, told(is_explained, loud), err))
        }
    }
}

/// These names for a loud command, and else none.
fn kept_names(alloc: Global, names: &[&str], loud: bool) -> Result<Vec<String>, AllocError> {
    let mut kept = Vec::new(alloc);
    if loud {
        push_copies(alloc, names, &mut kept)?;
    }
    Ok(kept)
}

/// Appends copies of these names.
fn push_copies(alloc: Global, names: &[&str], kept: &mut Vec<String>) -> Result<(), AllocError> {
    for name in names {
        kept.push(name.to_string(alloc)?)?;
    }
    Ok(())
}

/// What is said before standard input is read, where somebody types it.
fn waiting(asked: &Asked, terminals: Terminals) -> Option<&'static str> {
    if !terminals.input {
        return None;
    }
    match asked {
        Asked::PlanOfInput => Some(WITHOUT_WORDS),
        _ => Some(FOR_A_FILE),
    }
}

/// How it is told that a file was not read: `explain` has the reason in place of the fault, a loud command
/// has it below.
fn told(is_explained: bool, loud: bool) -> Told {
    if is_explained {
        Told::Reason
    } else if loud {
        Told::Both
    } else {
        Told::Fault
    }
}
