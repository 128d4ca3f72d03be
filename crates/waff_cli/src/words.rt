//! What the words of the command line ask for.
ghost use Rattle.std.specs.Prelude.{◌≡◌, ◌≤◌, IfOk, IfSome, Some, codes, map, option_map};
ghost use Rattle.clap.specs.Words.{subcommand_rows_of};
ghost use Rattle.waff_cli.specs.Requests as requests;
ghost use Rattle.waff_cli.specs.Requests.{IsWithinLimits};
ghost use Rattle.waff_cli.specs.Tasks.{IsWanted};
ghost use Rattle.waff_cli.specs.Words as asks;
ghost use Rattle.waff_cli.specs.Words.{IsAsked, IsPartGiven, columns_in, picture_in};
ghost use Rattle.waff_cli.specs.Words.{grouping_in, label_in, locking_in, rows_in, rule_in, swept_in, workers_in};

use crate::commands::{FILE_WORDS, MAX_STEPS, MAX_SWEPT, MAX_WORST, STEPS};
use crate::files::INPUT;
use crate::found::{command_in, flag_in, number_in, tick_in, word_in, words_in};
use crate::refusal::Refusal;
use crate::requests::{Request, RunRequest, Wanted};
use crate::run_words::run_words;
use clap::ArgMatches;
use std::alloc::{AllocError, Global};
use waff_core::limits::MAX_SEATS;
use waff_draw::{Part, Picture};
use waff_figures::{Columns, Grouping, Label, Told};
use waff_inputs::MAX_RANKED;
use waff_list::Rule;
use waff_model::Locking;
use waff_model::limits::MAX_WORKERS;
use waff_plan::Workers;

/// What is asked for of the files.
#[derive(Drop)]
pub enum Asked {
    /// No words: the plan of the hierarchy and the trace in one file, standard input.
    PlanOfInput,
    /// What is told of a trace under a hierarchy.
    Told(Told),
    /// The verdict on the plan.
    Check,
    /// The state that the trace leaves, replayed by this number of workers, or by as many as there
    /// are processors where there is no number.
    Replay(Option<u32>),
    /// Two hierarchies compared, for this number of workers.
    Compare(Workers),
    /// How good the plan is.
    Rate,
    /// This part of the plan drawn as this picture.
    Draw(Picture, Part),
    /// How several hierarchies serve the trace, for this number of workers by this rule. The trace
    /// comes first.
    Rank(Workers, Rule),
    /// The first fault, or the verdict, of a hierarchy, of a trace where there is one, and of a
    /// plan where there is one.
    Explain,
}

/// What the words ask for of which this was found.
pub fn wanted_of<'a>(
    rt: &impl Eprint,
    alloc: Global,
    matches: &ArgMatches<'a>,
) -> Result<Wanted<'a>, Refusal>
    ensures { IfOk result (IsWanted (subcommand_rows_of matches.now)) }
{
    match command_in(matches) {
        Some((command, found)) => wanted_by(rt, alloc, command, found),
        None => {
            let request = asked_of_files(Asked::PlanOfInput, input_alone(alloc)?)?;
            Ok(Wanted::Answer(request))
        }
    }
}

/// What the words of this command ask for.
fn wanted_by<'a>(
    rt: &impl Eprint,
    alloc: Global,
    command: &str,
    found: &ArgMatches<'a>,
) -> Result<Wanted<'a>, Refusal>
    ensures { IfOk result (IsWanted (Some (command.now, rows_in found.now))) }
{
    if command == "run" {
        return run_of(rt, alloc, found);
    }
    match request_of(rt, alloc, command, found) {
        Ok(request) => Ok(Wanted::Answer(request)),
        Err(refusal) => Err(refusal),
    }
}

/// The run that the words ask for, of files that `--trace` may not write over.
fn run_of<'a>(
    rt: &impl Eprint,
    alloc: Global,
    found: &ArgMatches<'a>,
) -> Result<Wanted<'a>, Refusal>
    ensures { IfOk result (IsWanted (Some (codes "run", rows_in found.now))) }
{
    let words = run_words(rt, alloc, found, wanted_workers(found)?)?;
    match file_names(rt, alloc, found) {
        Ok(files) => match words.trace_fault(files.as_slice()) {
            None => Ok(Wanted::Run(RunRequest { words, files })),
            Some(why) => {
                drop(files);
                drop(words);
                Err(Refusal::because(rt, why))
            }
        },
        Err(refusal) => {
            drop(words);
            Err(refusal)
        }
    }
}

/// What the words of this command ask of files.
fn request_of<'a>(
    rt: &impl Eprint,
    alloc: Global,
    command: &str,
    found: &ArgMatches<'a>,
) -> Result<Request<'a>, Refusal>
    ensures { IfOk result (λ request. IsAsked command.now (rows_in found.now) request.asked) }
{
    let asked = asked_of(rt, alloc, command, found)?;
    match file_names(rt, alloc, found) {
        Ok(files) => asked_of_files(asked, files),
        Err(refusal) => {
            drop(asked);
            Err(refusal)
        }
    }
}

/// What is asked for of these files, which have to be as many as it takes.
fn asked_of_files<'a>(asked: Asked, files: Vec<&'a str>) -> Result<Request<'a>, Refusal>
    requires { IsWithinLimits asked }
    ensures { IfOk result (λ request. request.asked ≡ asked) }
{
    let (least, most) = files_taken(&asked);
    let count = files.len();
    if count < least || count > most {
        drop(files);
        drop(asked);
        return Err(Refusal::NoWords);
    }
    Ok(Request { asked, files })
}

/// How many files are taken for what is asked, at least and at most.
fn files_taken(asked: &Asked) -> (usize, usize)
    ensures { result ≡ requests.files_taken asked.now }
{
    match asked {
        Asked::PlanOfInput => (1, 1),
        Asked::Explain => (1, 3),
        Asked::Check | Asked::Rate | Asked::Draw(_, _) | Asked::Compare(_) => (3, 3),
        Asked::Rank(_, _) => (2, 1 + MAX_RANKED),
        _ => (2, 2),
    }
}

/// Refuses files of which more than one is standard input, and says so.
fn refuse_two_inputs(rt: &impl Eprint, files: &[&str]) -> Result<(), Refusal> {
    if files.iter().filter(|name| **name == INPUT).count() > 1 {
        return Err(Refusal::because(rt, "only one file can be '-', standard input"));
    }
    Ok(())
}

/// Standard input as the only file.
fn input_alone<'a>(alloc: Global) -> Result<Vec<&'a str>, AllocError> {
    Ok(vec![in alloc; INPUT]?)
}

/// What the words of a command ask for.
fn asked_of(
    rt: &impl Eprint,
    alloc: Global,
    command: &str,
    found: &ArgMatches<'_>,
) -> Result<Asked, Refusal>
    ensures limits { IfOk result IsWithinLimits }
    ensures asked { IfOk result (IsAsked command.now (rows_in found.now)) }
{
    match command {
        "assign" => Ok(Asked::Told(Told::Assign)),
        "check" => Ok(Asked::Check),
        "explain" => Ok(Asked::Explain),
        "needs" => Ok(Asked::Told(Told::Needs)),
        "rate" => Ok(Asked::Rate),
        "why" => Ok(Asked::Told(Told::Why(grouping(found)))),
        "replay" => Ok(Asked::Replay(number_within(found, "workers", MAX_SEATS)?)),
        "compare" => Ok(Asked::Compare(wanted_workers(found)?)),
        "draw" => Ok(Asked::Draw(drawn_as(found)?, part_of(rt, found)?)),
        "rank" => Ok(Asked::Rank(wanted_workers(found)?, rule_of(found)?)),
        _ => told_by_rule(rt, alloc, command, found),
    }
}

/// What the words of a command ask for by whose rule messages start.
fn told_by_rule(
    rt: &impl Eprint,
    alloc: Global,
    command: &str,
    found: &ArgMatches<'_>,
) -> Result<Asked, Refusal>
    ensures limits { IfOk result IsWithinLimits }
    ensures asked { IfOk result (IsAsked command.now (rows_in found.now)) }
{
    let rule = rule_of(found)?;
    match command {
        "plan" => Ok(Asked::Told(Told::Plan(workers(found)?, rule))),
        "sweep" => Ok(Asked::Told(Told::Sweep(swept_workers(rt, alloc, found)?, rule))),
        "limits" => Ok(Asked::Told(Told::Limits(swept_workers(rt, alloc, found)?, rule))),
        "where" => {
            let workers = workers(found)?;
            let label = label(rt, found)?;
            Ok(Asked::Told(Told::Where(workers, rule, label, columns(found))))
        }
        "waits" => waits(rt, found, rule),
        "locks" => locks(found, rule),
        _ => Err(Refusal::NoWords),
    }
}

/// What the words of `waits` ask for: who waits for whom, or the messages of the greatest latency.
fn waits(rt: &impl Eprint, found: &ArgMatches<'_>, rule: Rule) -> Result<Asked, Refusal>
    requires { rule_in (rows_in found.now) ≡ Some rule }
    ensures limits { IfOk result IsWithinLimits }
    ensures asked { IfOk result (IsAsked (codes "waits") (rows_in found.now)) }
{
    let workers = workers(found)?;
    let grouping = grouping(found);
    match number_within(found, "worst", MAX_WORST)? {
        None => Ok(Asked::Told(Told::Waits(workers, rule, grouping))),
        Some(most) => match grouping {
            Grouping::Affinity => Ok(Asked::Told(Told::Worst(workers, rule, most))),
            Grouping::Name => {
                Err(Refusal::because(rt, "'--names' cannot be used with '--worst'"))
            }
        },
    }
}

/// What the words of `locks` ask for.
fn locks(found: &ArgMatches<'_>, rule: Rule) -> Result<Asked, Refusal>
    requires { rule_in (rows_in found.now) ≡ Some rule }
    ensures limits { IfOk result IsWithinLimits }
    ensures asked { IfOk result (IsAsked (codes "locks") (rows_in found.now)) }
{
    let workers = workers(found)?;
    let steps = number_in(found, "steps")?.unwrap_or(STEPS);
    if steps > MAX_STEPS {
        return Err(Refusal::NoWords);
    }
    Ok(Asked::Told(Told::Locks(workers, rule, locking(found), steps)))
}

/// The kind of locks that spaces get.
fn locking(found: &ArgMatches<'_>) -> Locking
    ensures { result ≡ locking_in (rows_in found.now) }
{
    if flag_in(found, "shared") {
        Locking::Shared
    } else {
        Locking::Exclusive
    }
}

/// The names of the files of a command, in the order of its words.
fn file_names<'a>(
    rt: &impl Eprint,
    alloc: Global,
    found: &ArgMatches<'a>,
) -> Result<Vec<&'a str>, Refusal> {
    let mut names = Vec::new(alloc);
    match push_names(rt, found, &mut names) {
        Ok(()) => Ok(names),
        Err(refusal) => Err(refusal),
    }
}

/// Appends the names of the files, of which not more than one is standard input.
fn push_names<'a>(
    rt: &impl Eprint,
    found: &ArgMatches<'a>,
    names: &mut Vec<&'a str>,
) -> Result<(), Refusal> {
    for id in FILE_WORDS.iter() {
        if let Some(given) = words_in(found, id) {
            if given.len() > MAX_RANKED {
                return Err(Refusal::because(rt, "at most 64 hierarchies can be ranked"));
            }
            names.extend_from_slice(given)?;
        }
    }
    refuse_two_inputs(rt, names.as_slice())
}

/// The number of workers, where it is given.
fn workers(found: &ArgMatches<'_>) -> Result<Option<Workers>, Refusal>
    ensures { IfOk result (λ number. number ≡ workers_in (rows_in found.now)) }
{
    match number_in(found, "workers")? {
        Some(number) => match Workers::of(number) {
            Some(workers) => Ok(Some(workers)),
            None => Err(Refusal::NoWords),
        },
        None => Ok(None),
    }
}

/// The number of workers, which has to be given.
fn wanted_workers(found: &ArgMatches<'_>) -> Result<Workers, Refusal>
    ensures { IfOk result (λ k. Some k ≡ workers_in (rows_in found.now)) }
{
    workers(found)?.ok_or(Refusal::NoWords)
}

/// The number of this option, where it is given; it is 1 at least and this at most.
fn number_within(found: &ArgMatches<'_>, id: &str, most: u32) -> Result<Option<u32>, Refusal>
    ensures given { IfOk result (λ number. number ≡ asks.number_in (rows_in found.now) id.now) }
    ensures some { IfOk result (λ number. IfSome number (λ k. 1 ≤ k)) }
    ensures few { IfOk result (λ number. IfSome number (λ k. k ≤ most)) }
{
    match number_in(found, id)? {
        Some(k) if k == 0 || k > most => Err(Refusal::NoWords),
        number => Ok(number),
    }
}

/// As what the plan is drawn.
fn drawn_as(found: &ArgMatches<'_>) -> Result<Picture, Refusal>
    ensures { IfOk result (λ picture. picture_in (rows_in found.now) ≡ Some picture) }
{
    match word_in(found, "as") {
        Some(word) => picture_named(word).ok_or(Refusal::NoWords),
        None => Err(Refusal::NoWords),
    }
}

/// The picture that this word names.
fn picture_named(word: &str) -> Option<Picture>
    ensures { result ≡ asks.picture_named word.now }
{
    match word {
        "svg" => Some(Picture::Svg),
        "events" => Some(Picture::Events),
        _ => None,
    }
}

/// The numbers of planners' workers that are given, where there are some.
fn swept_workers(
    rt: &impl Eprint,
    alloc: Global,
    found: &ArgMatches<'_>,
) -> Result<Option<Vec<Workers>>, Refusal>
    ensures { IfOk result (λ given. option_map (λ numbers. numbers.items) given
        ≡ swept_in (rows_in found.now)) }
{
    match words_in(found, "workers") {
        Some(words) if words.len() > MAX_SWEPT => {
            Err(Refusal::because(rt, "'--workers' takes at most 64 numbers"))
        }
        Some(words) => Ok(Some(numbers_of_workers(alloc, words)?)),
        None => Ok(None),
    }
}

/// The numbers of planners' workers that these words spell.
fn numbers_of_workers(alloc: Global, words: &[&str]) -> Result<Vec<Workers>, Refusal>
    ensures { IfOk result (λ numbers. numbers.items
        ≡ map asks.number_of (map (λ word. word.now) words.now)) }
{
    let mut numbers = Vec::new(alloc);
    for word in words {
        let number = number_of_workers(word)?;
        numbers.push(number)?;
    }
    Ok(numbers)
}

/// The number of planners' workers that this word spells.
fn number_of_workers(word: &str) -> Result<Workers, Refusal>
    ensures { IfOk result (λ k. k ≡ asks.number_of word.now) }
{
    match word.parse::<u32>() {
        Ok(number) => Workers::of(number).ok_or(Refusal::NoWords),
        Err(_) => Err(Refusal::NoWords),
    }
}

/// The rule by which messages start.
fn rule_of(found: &ArgMatches<'_>) -> Result<Rule, Refusal>
    ensures { IfOk result (λ rule. rule_in (rows_in found.now) ≡ Some rule) }
{
    match word_in(found, "rule") {
        Some(word) => rule_named(word).ok_or(Refusal::NoWords),
        None => Err(Refusal::NoWords),
    }
}

/// The rule that this word names.
fn rule_named(word: &str) -> Option<Rule>
    ensures { result ≡ asks.rule_named word.now }
{
    match word {
        "arrival" => Some(Rule::Arrival),
        "longest" => Some(Rule::Longest),
        _ => None,
    }
}

/// What the messages of one row have in common, by whether `--names` is given.
fn grouping(found: &ArgMatches<'_>) -> Grouping
    ensures { result ≡ grouping_in (rows_in found.now) }
{
    if flag_in(found, "names") {
        Grouping::Name
    } else {
        Grouping::Affinity
    }
}

/// Which columns a line has, by whether `--figures` is given.
fn columns(found: &ArgMatches<'_>) -> Columns
    ensures { result ≡ columns_in (rows_in found.now) }
{
    if flag_in(found, "figures") {
        Columns::Figures
    } else {
        Columns::Costs
    }
}

/// The label of messages of which each has one line, if there is one.
fn label(rt: &impl Eprint, found: &ArgMatches<'_>) -> Result<Option<Label>, Refusal>
    ensures { IfOk result (λ label. label ≡ label_in (rows_in found.now)) }
{
    let names = flag_in(found, "names");
    let clients = flag_in(found, "clients");
    if names && clients {
        return Err(Refusal::because(rt, "'--names' cannot be used with '--clients'"));
    }
    Ok(label_for(names, clients))
}

/// The label, by whether `--names` is given and whether `--clients` is.
fn label_for(names: bool, clients: bool) -> Option<Label>
    ensures { result ≡ asks.label_for names clients }
{
    if names {
        Some(Label::Name)
    } else if clients {
        Some(Label::Client)
    } else {
        None
    }
}

/// The part of a plan that is drawn.
fn part_of(rt: &impl Eprint, found: &ArgMatches<'_>) -> Result<Part, Refusal>
    ensures { IfOk result (IsPartGiven (rows_in found.now)) }
{
    let from = tick_in(found, "from")?.ok_or(Refusal::NoWords)?;
    match tick_in(found, "to")? {
        Some(to) if to <= from => Err(Refusal::because(rt, "'--from' has to be below '--to'")),
        to => Ok(Part { from, to }),
    }
}
