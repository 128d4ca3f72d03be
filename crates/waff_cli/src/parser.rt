//! The parser of the table of commands.
use crate::commands::{
    CommandWords, FileWord, MAX_STEPS, MAX_SWEPT, MAX_WORST, PICTURES, RULES, RunWord, STEPS, Word,
};
use crate::run_words::MAX_CELL;
use crate::{help, table};
use clap::{Arg, ArgAction, Command, value_parser};
use std::alloc::{AllocError, Global};
use waff_core::limits::MAX_SEATS;
use waff_inputs::MAX_RANKED;
use waff_model::limits::{MAX_TICK, MAX_WORKERS};

/// The limits that help and refusals name.
const _: () = prove!(MAX_WORKERS == 64 && MAX_SEATS == 16 && MAX_SWEPT == 64 && MAX_RANKED == 64);

/// The steps that help names.
const _: () = prove!(MAX_STEPS == 256 && STEPS == 8);

/// The option of every command that has standard error read as at a terminal.
pub(crate) const VERBOSE: &str = "verbose";

/// What is told of the version of the program.
#[derive(Clone, Copy)]
pub struct ProgramVersion {
    /// What `-V` tells behind the name.
    pub short: &'static str,
    /// What `--version` tells there.
    pub long: &'static str,
}

/// The parser of all commands. The help of the program ends with these, the short one and the long one.
pub fn parser<'a>(
    alloc: Global,
    version: ProgramVersion,
    short: &'a str,
    long: &'a str,
) -> Result<Command<'a>, AllocError> {
    let mut commands = Vec::new(alloc);
    push_commands(alloc, &mut commands)?;
    waff(alloc, version, short, long).subcommands(commands)
}

/// Appends the parsers of the commands.
fn push_commands<'a>(alloc: Global, commands: &mut Vec<Command<'a>>) -> Result<(), AllocError> {
    for place in 0..table::COUNT {
        if let Some(words) = table::command(place) {
            commands.push(command(alloc, words)?)?;
        }
    }
    Ok(())
}

/// The parser of the program without its commands.
fn waff<'a>(alloc: Global, version: ProgramVersion, short: &'a str, long: &'a str) -> Command<'a> {
    Command::new(alloc, "waff")
        .version(version.short)
        .long_version(version.long)
        .about("Plans messages on a tree of affinities, and shows how much can run in parallel")
        .subcommand_help_heading("Begin with")
        .after_help(short)
        .after_long_help(long)
}

/// The parser of a command.
fn command<'a>(alloc: Global, words: CommandWords) -> Result<Command<'a>, AllocError> {
    let mut args = Vec::new(alloc);
    push_args(alloc, words.words, &mut args)?;
    args.push(flag(alloc, VERBOSE, "Below a fault, says what helps"))?;
    Command::new(alloc, words.name)
        .about(words.about)
        .hide(words.group.is_some())
        .after_long_help(words.help)
        .args(args)
}

/// Appends the words of a command.
fn push_args<'a>(
    alloc: Global,
    words: &'static [Word],
    args: &mut Vec<Arg<'a>>,
) -> Result<(), AllocError> {
    for word in words.iter() {
        args.push(arg(alloc, *word))?;
    }
    Ok(())
}

/// A word of a command.
fn arg<'a>(alloc: Global, word: Word) -> Arg<'a> {
    match word {
        Word::File(word) => file(alloc, word).required(true),
        Word::FileOrNone(word) => file(alloc, word),
        Word::Files(word) => files(alloc, word),
        Word::PlanWorkers(required) => plan_workers(alloc, required),
        Word::SweepWorkers => sweep_workers(alloc),
        Word::Threads => threads(alloc),
        Word::Rule => rule(alloc),
        Word::Names(help) => flag(alloc, "names", help),
        Word::Clients => flag(alloc, "clients", "A line for each client; not with --names"),
        Word::Figures => flag(alloc, "figures", "With waits and latencies of each line"),
        Word::Worst => worst(alloc),
        Word::Shared => flag(
            alloc,
            "shared",
            "Locks that messages which only read a cell share",
        ),
        Word::Steps => steps(alloc),
        Word::Run(word) => run_arg(alloc, word),
        Word::Picture => picture(alloc),
        Word::From => tick(alloc, "from", "The tick at which the part begins").default_value("0"),
        Word::To => tick(
            alloc,
            "to",
            "The tick at which it ends [default: the length]",
        ),
    }
}

/// The word for the folder of the files of a run.
fn folder<'a>(alloc: Global) -> Arg<'a> {
    Arg::new(alloc, "DIR")
        .value_name("DIR")
        .required(true)
        .help("The folder of the files, which are written over")
}

/// A word of `run` for where and how messages are run.
fn run_arg<'a>(alloc: Global, word: RunWord) -> Arg<'a> {
    match word {
        RunWord::Folder => folder(alloc),
        RunWord::Cell => cell(alloc),
        RunWord::Tick => option(
            alloc,
            "tick",
            "Microseconds of a tick, from 0.001 [default: 1]",
        )
        .value_name("MICROSECONDS"),
        RunWord::Over => flag(
            alloc,
            "over",
            "Writes over files that no run of waff has made",
        ),
        RunWord::Fill => flag(alloc, "fill", "Reads all cells and writes them back first"),
        RunWord::SyncWrites => flag(
            alloc,
            "sync-writes",
            "Syncs what a message wrote, at its end",
        ),
        RunWord::SyncNames => option(
            alloc,
            "sync",
            "Messages at whose end their files are synced",
        )
        .value_name("NAME,..")
        .value_delimiter(','),
        RunWord::Trace => {
            option(alloc, "trace", "Where the trace as measured is written").value_name("FILE")
        }
        RunWord::Partial => flag(
            alloc,
            "partial",
            "Tells what is left of a run that breaks off",
        ),
    }
}

/// A word for a file.
fn file<'a>(alloc: Global, word: FileWord) -> Arg<'a> {
    Arg::new(alloc, word.id)
        .value_name(word.name)
        .help(word.help)
}

/// A word for one file or more.
fn files<'a>(alloc: Global, word: FileWord) -> Arg<'a> {
    file(alloc, word)
        .required(true)
        .num_args(1..)
        .action(ArgAction::Append)
}

/// An option of this name.
fn option<'a>(alloc: Global, name: &'static str, help: &'static str) -> Arg<'a> {
    Arg::new(alloc, name).long(name).help(help)
}

/// An option that takes no word.
fn flag<'a>(alloc: Global, name: &'static str, help: &'static str) -> Arg<'a> {
    option(alloc, name, help).action(ArgAction::SetTrue)
}

/// How many workers there are, this many at most.
fn workers<'a>(alloc: Global, most: u32, value_name: &'static str, help: &'static str) -> Arg<'a> {
    option(alloc, "workers", help)
        .value_name(value_name)
        .value_parser(value_parser!(u32).range(1..=i64::from(most)))
}

/// How many planners' workers there are.
fn plan_workers<'a>(alloc: Global, required: bool) -> Arg<'a> {
    workers(
        alloc,
        MAX_WORKERS,
        "K",
        "How many messages may run at once, from 1 to 64",
    )
    .short('k')
    .required(required)
}

/// Several numbers of planners' workers.
fn sweep_workers<'a>(alloc: Global) -> Arg<'a> {
    workers(
        alloc,
        MAX_WORKERS,
        "K,K,..",
        "Up to 64 numbers of workers, each from 1 to 64",
    )
    .short('k')
    .value_delimiter(',')
}

/// How many threads a replay has.
fn threads<'a>(alloc: Global) -> Arg<'a> {
    workers(
        alloc,
        MAX_SEATS,
        "W",
        "How many threads, from 1 to 16; else one per processor",
    )
}

/// Bytes of a cell of a run.
fn cell<'a>(alloc: Global) -> Arg<'a> {
    option(
        alloc,
        "cell",
        "Bytes of a cell, 8 to 1048576 [default: 4096]",
    )
    .value_name("BYTES")
    .value_parser(value_parser!(u32).range(8..=i64::from(MAX_CELL)))
}

/// How many messages of the greatest latency are told.
fn worst<'a>(alloc: Global) -> Arg<'a> {
    option(
        alloc,
        "worst",
        "The N messages of the greatest latency; not with --names",
    )
    .value_name("N")
    .value_parser(value_parser!(u32).range(1..=i64::from(MAX_WORST)))
}

/// In how many steps spaces get locks.
fn steps<'a>(alloc: Global) -> Arg<'a> {
    option(
        alloc,
        "steps",
        "At most N spaces one after another, 0 to 256 [default: 8]",
    )
    .value_name("N")
    .value_parser(value_parser!(u32).range(0..=i64::from(MAX_STEPS)))
}

/// Which of the messages that are ready start first.
fn rule<'a>(alloc: Global) -> Arg<'a> {
    option(alloc, "rule", "What starts first")
        .value_name("RULE")
        .value_parser(RULES.as_slice())
        .default_value("arrival")
        .hide_default_value(true)
        .long_help(help::RULE)
}

/// As what a plan is drawn.
fn picture<'a>(alloc: Global) -> Arg<'a> {
    option(alloc, "as", "The picture")
        .value_name("PICTURE")
        .value_parser(PICTURES.as_slice())
        .default_value("svg")
}

/// A tick of a plan.
fn tick<'a>(alloc: Global, name: &'static str, help: &'static str) -> Arg<'a> {
    option(alloc, name, help)
        .value_name("T")
        .value_parser(value_parser!(u64).range(0..=MAX_TICK as i64))
}
