//! The words of `run`.
ghost use Rattle.std.specs.Prelude.{◌≡◌, ◌==◌, IfOk, IfSome, Some, codes, map, option_map, string_bytes};
ghost use Rattle.std.specs.Prelude.{unwrap_or, []};
ghost use Rattle.std.specs.Option.{option_map_or};
ghost use Rattle.clap.specs.Words.{all_of, first_of};
ghost use Rattle.waff_cli.specs.Words as asks;
ghost use Rattle.waff_cli.specs.Words.{IsRunGiven, rows_in, workers_in};
ghost use Rattle.waff_cli.specs.declared.tick.TheConstants.{TICK};

use crate::files::INPUT;
use crate::found::{flag_in, number_in, word_in, words_in};
use crate::refusal::Refusal;
use crate::tick::Tick;
use clap::ArgMatches;
use std::alloc::{AllocError, Global};
use waff_plan::Workers;

/// How the messages of a trace are run.
#[derive(Drop)]
pub struct RunWords {
    /// The folder of the files of cells.
    pub folder: String,
    /// The file for the trace with the measured costs, where it is wanted.
    pub trace: Option<String>,
    pub workers: Workers,
    /// Bytes of a cell.
    pub cell: u32,
    pub tick: Tick,
    /// Whether files that no run has made are written over.
    pub over: bool,
    /// Whether each cell that the trace names is read and written back first.
    pub fill: bool,
    /// Whether the files that a message has written are synced at its end.
    pub sync_writes: bool,
    /// The names of messages at whose end the files of their cells are synced.
    pub syncs: Vec<String>,
    /// Whether the messages that had ended are told of a run that breaks off.
    pub partial: bool,
}

/// The bytes of a cell where they are not given.
pub const CELL: u32 = 4_096;

/// The most bytes of a cell.
pub(crate) const MAX_CELL: u32 = 1_048_576;

/// The words of `run` for this many workers.
pub fn run_words(
    rt: &impl Eprint,
    alloc: Global,
    found: &ArgMatches<'_>,
    workers: Workers,
) -> Result<RunWords, Refusal>
    requires { Some workers ≡ workers_in (rows_in found.now) }
    ensures { IfOk result (IsRunGiven (rows_in found.now)) }
{
    let cell = cell_of(rt, found)?;
    let tick = tick_in_words(rt, found)?;
    let over = flag_in(found, "over");
    let fill = flag_in(found, "fill");
    let sync_writes = flag_in(found, "sync-writes");
    let partial = flag_in(found, "partial");
    Ok(RunWords {
        folder: folder_of(alloc, found)?,
        trace: trace_of(alloc, found)?,
        workers,
        cell,
        tick,
        over,
        fill,
        sync_writes,
        syncs: names_of(alloc, found)?,
        partial,
    })
}

/// The folder of the files of cells.
fn folder_of(alloc: Global, found: &ArgMatches<'_>) -> Result<String, Refusal>
    ensures { IfOk result (λ folder. Some (string_bytes folder)
        ≡ first_of (codes "DIR") (rows_in found.now)) }
{
    match word_in(found, "DIR") {
        Some(word) => Ok(word.to_string(alloc)?),
        None => Err(Refusal::NoWords),
    }
}

/// The file for the trace with the measured costs.
fn trace_of(alloc: Global, found: &ArgMatches<'_>) -> Result<Option<String>, AllocError>
    ensures { IfOk result (λ trace. option_map string_bytes trace
        ≡ first_of (codes "trace") (rows_in found.now)) }
{
    match word_in(found, "trace") {
        Some(word) => Ok(Some(word.to_string(alloc)?)),
        None => Ok(None),
    }
}

/// The bytes of a cell.
fn cell_of(rt: &impl Eprint, found: &ArgMatches<'_>) -> Result<u32, Refusal>
    ensures { IfOk result (λ cell. cell
        ≡ unwrap_or (asks.number_in (rows_in found.now) (codes "cell")) CELL) }
{
    let cell = number_in(found, "cell")?.unwrap_or(CELL);
    if cell < 8 || cell > MAX_CELL || cell % 8 != 0 {
        return Err(Refusal::because(rt, "'--cell' takes a multiple of 8, from 8 to 1048576"));
    }
    Ok(cell)
}

/// The nanoseconds of a tick.
fn tick_in_words(rt: &impl Eprint, found: &ArgMatches<'_>) -> Result<Tick, Refusal>
    ensures { IfOk result (λ tick. tick
        ≡ option_map_or asks.tick_of (first_of (codes "tick") (rows_in found.now)) TICK) }
{
    match word_in(found, "tick") {
        Some(word) => match tick_of(word) {
            Some(tick) => Ok(tick),
            None => Err(Refusal::because(rt, NO_TICK)),
        },
        None => Ok(Tick::usual()),
    }
}

/// Why a word is no tick.
const NO_TICK: &str =
    "'--tick' takes 0.001 to 1000000 microseconds, with at most three digits behind the point";

/// The names that `--sync` gives.
fn names_of(alloc: Global, found: &ArgMatches<'_>) -> Result<Vec<String>, AllocError>
    ensures { IfOk result (λ names. map string_bytes names.items
        ≡ unwrap_or (all_of (codes "sync") (rows_in found.now)) []) }
{
    match words_in(found, "sync") {
        Some(words) => copies_of(alloc, words),
        None => Ok(Vec::new(alloc)),
    }
}

/// Copies of these words.
fn copies_of(alloc: Global, words: &[&str]) -> Result<Vec<String>, AllocError>
    ensures { IfOk result (λ copies. map string_bytes copies.items
        ≡ map (λ word. word.now) words.now) }
{
    let mut copies = Vec::new(alloc);
    for word in words {
        copies.push(word.to_string(alloc)?)?;
    }
    Ok(copies)
}

/// The tick of a number of microseconds, with at most three digits behind the point.
fn tick_of(word: &str) -> Option<Tick>
    ensures { IfSome result (λ tick. tick ≡ asks.tick_of word.now) }
{
    let nanos = match word.split_once('.') {
        Some((whole, part)) => nanoseconds_of(whole, part)?,
        None => nanoseconds_of(word, "0")?,
    };
    Tick::of(nanos)
}

/// The nanoseconds of so many microseconds, by the digits before the point and behind it.
fn nanoseconds_of(whole: &str, part: &str) -> Option<u64>
    ensures { IfSome result (λ nanos. nanos ≡ asks.nanoseconds_of whole.now part.now) }
{
    if whole.len() > 7 {
        return None;
    }
    let scale = match part.len() {
        1 => 100,
        2 => 10,
        3 => 1,
        _ => return None,
    };
    let part = digits(part)?.checked_mul(scale)?;
    digits(whole)?.checked_mul(1_000)?.checked_add(part)
}

/// The number of these digits.
fn digits(word: &str) -> Option<u64>
    ensures { IfSome result (λ number. number ≡ asks.number_of word.now) }
{
    if word.bytes().all(|byte| byte.is_ascii_digit()) {
        word.parse::<u64>().ok()
    } else {
        None
    }
}

impl RunWords {
    /// Why the measured trace cannot be written where it is wanted: to standard output, which has the plan, or
    /// over one of these files.
    pub fn trace_fault(&self, files: &[&str]) -> Option<&'static str> {
        let trace = self.trace.as_ref()?.as_str();
        if trace == INPUT {
            Some("the file of '--trace' cannot be '-', since the plan is printed there")
        } else if files.iter().any(|file| *file == trace) {
            Some("the file of '--trace' cannot be one of the other files")
        } else {
            None
        }
    }
}
