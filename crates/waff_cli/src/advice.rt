//! What a loud command says below the line of a fault: the command that says what is wrong, or what is to be
//! done. A command is loud at a terminal, and with `--verbose`. Else a question has no names of files, a task is
//! not loud, and nothing is said.
ghost use Rattle.std.specs.Prelude.{◌≡◌, [], false};
ghost use Rattle.waff_cli.specs.Advice.{advice_text};

use crate::task::{Question, RunTask};
use crate::tips::{NO_MEMORY, NOT_WRITTEN};
use crate::words::Asked;
use std::alloc::{AllocError, Global};
use std::thread::Threads;
use waff_draw::Picture;
use waff_inputs::{ToolError, accept_by_threads};
use waff_model::limits::MAX_CELLS;

/// What is told, with its line feed.
#[derive(Drop)]
pub enum Advice {
    Nothing,
    Line(&'static str),
    Text(String),
}

impl Advice {
    /// The text of it.
    pub fn as_str(&self) -> &str
        ensures { result.now ≡ advice_text self.now }
    {
        match self {
            Advice::Nothing => "",
            Advice::Line(line) => line,
            Advice::Text(text) => text.as_str(),
        }
    }
}

/// Why there is no run, as advice on it goes.
#[derive(Clone, Copy)]
pub enum RunFault<'a> {
    /// A file was refused, memory was, or a text could not be written.
    Tool(ToolError),
    /// A message ran for more ticks than a trace can tell.
    Tick,
    /// The folder is none.
    Folder,
    /// Two of the files are one.
    Same,
    /// This file of the folder is there, and no run has made it.
    Foreign(&'a str),
    /// This file of the folder could not be used.
    File(&'a str),
    /// Not all workers could be started.
    Threads,
    /// The run went on out of turn.
    Run,
}

/// The limit that a line names.
const _: () = prove!(MAX_CELLS == 262_144);

const OTHER_SPACES: &str =
    "the hierarchies have to have the same spaces, of the same sizes, in the same order\n";

const ONE_MODEL: &str = "one hierarchy has to be classical, and the other one hierarchical\n";

const TOO_MANY_CELLS: &str = "a replay takes at most 262144 cells over all spaces\n";

/// Where both files are one, which `explain` does not take.
const IN_TWO_FILES: &str =
    "waff explain HIER TRACE says what is wrong, where the two are in files of their own\n";

const LARGER_TICK: &str =
    "the trace has to be made with a larger tick; --tick alone would stretch its releases and think times too\n";

const FEWER_WORKERS: &str =
    "this machine started only so many workers, so nothing was run: a smaller --workers, or a higher limit of processes or memory\n";

const OUT_OF_TURN: &str = "the run went on out of turn, a fault of waff, so nothing is printed\n";

const ONE_FILE: &str =
    "the hierarchy, the trace, the file of --trace and each file of the folder have to be files of their own\n";

const NO_TEXT_OR_TRACE: &str = "what is printed, or the file of --trace, could not be written\n";

/// A plan of more lines than this has more than 20,000 messages: a header, and a summary of at most 7 lines,
/// are no rows.
const MANY_LINES: usize = 20_008;

const MANY_BARS: &str =
    "the picture has more than 20000 bars, so a browser may be slow: --from T --to T draw a part\n";

/// What helps after this error of a question.
pub fn advice_on<R: Threads + Sync>(
    rt: &R,
    alloc: Global,
    question: &Question,
    error: ToolError,
) -> Advice
    ensures { question.now.names.items ≡ [] → advice_text result ≡ [] }
{
    if question.names.len() == 0 {
        return Advice::Nothing;
    }
    match line_for(error) {
        Some(line) => Advice::Line(line),
        None => explanation(rt, alloc, question, error),
    }
}

/// The command that says what is wrong with the files of a question.
fn explanation<R: Threads + Sync>(
    rt: &R,
    alloc: Global,
    question: &Question,
    error: ToolError,
) -> Advice {
    let names = question.names.as_slice();
    match &question.asked {
        Asked::PlanOfInput => Advice::Line(IN_TWO_FILES),
        Asked::Rank(_, _) => match ranked_place(rt, alloc, question.files.as_slice(), error) {
            Some(place) => explain(alloc, names, &[place, 0]),
            None => Advice::Nothing,
        },
        Asked::Compare(_) => explain(alloc, names, &[compared_place(error), 2]),
        _ => explain(alloc, names, &[0, 1, 2]),
    }
}

/// What helps after this fault of a run.
pub fn advice_on_run(alloc: Global, task: &RunTask, fault: RunFault<'_>) -> Advice
    ensures { task.now.loud ≡ false → advice_text result ≡ [] }
{
    if !task.loud {
        return Advice::Nothing;
    }
    let folder = task.words.folder.as_str();
    match fault {
        RunFault::Tool(ToolError::Write) if task.words.trace.is_some() => {
            Advice::Line(NO_TEXT_OR_TRACE)
        }
        RunFault::Tool(error) => match line_for(error) {
            Some(line) => Advice::Line(line),
            None => explain(alloc, task.names.as_slice(), &[0, 1]),
        },
        RunFault::Tick => Advice::Line(LARGER_TICK),
        RunFault::Folder => text_of(format!(in alloc;
            "{folder}: it is no folder that can be opened\n"
        )),
        RunFault::Same => Advice::Line(ONE_FILE),
        RunFault::Foreign(name) => text_of(format!(in alloc;
            "{folder}/{name}: it is there, and no run has made it: --over writes over it\n"
        )),
        RunFault::File(name) => text_of(format!(in alloc;
            "{folder}/{name}: it is no regular file, another run holds it, or it could not be opened, lengthened, read, written or synced\n"
        )),
        RunFault::Threads => Advice::Line(FEWER_WORKERS),
        RunFault::Run => Advice::Line(OUT_OF_TURN),
    }
}

/// How a part is drawn, after a picture of so many messages that a browser is slow with it.
pub fn advice_behind(question: &Question) -> Advice
    ensures { question.now.names.items ≡ [] → advice_text result ≡ [] }
{
    if question.names.len() == 0 {
        return Advice::Nothing;
    }
    if let Asked::Draw(Picture::Svg, part) = &question.asked {
        let is_whole = part.from == 0 && part.to.is_none();
        if is_whole && count_lines(file(question.files.as_slice(), 2)) > MANY_LINES {
            return Advice::Line(MANY_BARS);
        }
    }
    Advice::Nothing
}

/// This text, if memory was there for it.
fn text_of(text: Result<String, AllocError>) -> Advice {
    match text {
        Ok(text) => Advice::Text(text),
        Err(_) => Advice::Nothing,
    }
}

/// The file of this place, which is empty where there is none.
fn file(files: &[Vec<u8>], at: usize) -> &[u8] {
    match files.get(at) {
        Some(bytes) => bytes.as_slice(),
        None => &[],
    }
}

/// How many line ends there are.
fn count_lines(bytes: &[u8]) -> usize {
    bytes.iter().filter(|byte| **byte == b'\n').count()
}

/// The line for an error that `explain` is not asked about.
fn line_for(error: ToolError) -> Option<&'static str> {
    match error {
        ToolError::Hier { .. } | ToolError::Trace(_) | ToolError::PlanText(_) => None,
        ToolError::SpacesDiffer => Some(OTHER_SPACES),
        ToolError::ModelsSame => Some(ONE_MODEL),
        ToolError::TooManyCells => Some(TOO_MANY_CELLS),
        ToolError::Write => Some(NOT_WRITTEN),
        ToolError::Memory => Some(NO_MEMORY),
    }
}

/// The place among the files of the hierarchy of which this is an error, where two are compared.
fn compared_place(error: ToolError) -> usize {
    match error {
        ToolError::Hier { file: 2, .. } => 1,
        _ => 0,
    }
}

/// The same, where several are ranked: one that is refused, or the first one that refuses the trace.
fn ranked_place<R: Threads + Sync>(
    rt: &R,
    alloc: Global,
    files: &[Vec<u8>],
    error: ToolError,
) -> Option<usize> {
    match error {
        ToolError::Hier { file, .. } => Some(file as usize),
        _ => refusing_place(rt, alloc, files),
    }
}

/// The place of the first hierarchy that refuses the trace, which is the first of the files.
fn refusing_place<R: Threads + Sync>(rt: &R, alloc: Global, files: &[Vec<u8>]) -> Option<usize> {
    for place in 1..files.len() {
        match accept_by_threads(rt, alloc, file(files, place), file(files, 0)) {
            Ok(accepted) => drop(accepted),
            Err(ToolError::Trace(_)) => return Some(place),
            Err(_) => return None,
        }
    }
    None
}

/// Which command says what is wrong: `explain` of the files of these places that there are.
fn explain(alloc: Global, names: &[String], places: &[usize]) -> Advice {
    text_of(explain_line(alloc, names, places))
}

/// The line that tells of that command.
fn explain_line(alloc: Global, names: &[String], places: &[usize]) -> Result<String, AllocError> {
    let mut line = String::from_str(alloc, "waff explain")?;
    for place in places {
        if let Some(name) = names.get(*place) {
            push_word(alloc, &mut line, name.as_str())?;
        }
    }
    line.push_str(" says what is wrong\n")?;
    Ok(line)
}

/// Appends a space, and the name of a file as a shell reads it.
fn push_word(alloc: Global, line: &mut String, name: &str) -> Result<(), AllocError> {
    line.push_str(" ")?;
    if name.starts_with('-') && name.len() > 1 {
        // (else it would be read as an option)
        line.push_str("./")?;
    }
    if name.as_bytes().iter().all(|byte| is_plain(*byte)) {
        return line.push_str(name);
    }
    let inner = name.replace(alloc, "'", "'\\''")?;
    line.push_str("'")?;
    line.push_str(inner.as_str())?;
    line.push_str("'")
}

/// Whether a shell reads this byte as itself.
fn is_plain(byte: u8) -> bool {
    byte.is_ascii_alphanumeric()
        || matches!(
            byte,
            b'.' | b'_' | b'-' | b'/' | b',' | b':' | b'+' | b'@' | b'%'
        )
}
