//! A run, from the accepted files to the two texts.

ghost use Rattle.std.specs.Prelude.{◌≡◌, ◌≤◌, IfErr, IfOk, IfSome, None, Ok, OnOk, true, length, map, option_map, string_bytes};
ghost use Rattle.waff_inputs.specs.Inputs.{instance_under};
ghost use Rattle.waff_line.specs.Turns.{AreReached, AreRunTurns, course_by};
ghost use Rattle.waff_run.specs.Asked.{AsksFilling, GoesOn};
ghost use Rattle.waff_run.specs.Faults.{IsOfRunning};
ghost use Rattle.waff_run.specs.Files.{NamesFile};
ghost use Rattle.waff_run.specs.Hands.{AreAsked, AreFresh};
ghost use Rattle.waff_run.specs.Named.{cells_named};
ghost use Rattle.waff_run.specs.Opening.{job_of};
ghost use Rattle.waff_run.specs.RunFiles.{IsAssigned, instance_in, job_in};
ghost use Rattle.waff_run.specs.Texts.{TellPart, TellRun, asking_by, is_named, syncs_by};

use crate::calls::longest_call;
use crate::fault::{RunError, Stopped};
use crate::pace::Pace;
use crate::perform::fill;
use crate::places::Places;
use crate::run_files::RunFiles;
use crate::spots::ends;
use crate::store::{Store, file_name};
use crate::syncing::Syncs;
use crate::workers::{Halted, Ran, nothing_noted, run};
use std::alloc::{AllocError, Global};
use std::marker::Sync;
use std::rt::Clock;
use std::sync::Wait;
use std::thread::Threads;
use waff_inputs::{Accepted, ToolError, accept_by_threads};
use waff_list::{Rule, list_plan_of};
use waff_model::{Message, Trace};
use waff_plan::Workers;
use waff_record::{Recorded, RunTurns, StoppedRun, record_left, record_of};

/// How a run is run.
#[derive(Clone, Copy)]
pub struct Settings<'a> {
    pub pace: Pace,
    /// Whether each cell that the trace names is read and written back first.
    pub fill: bool,
    /// Whether the files that a message has written are synced at its end.
    pub sync_writes: bool,
    /// The names of the messages at whose end the files of their cells are synced.
    pub syncs: &'a [String],
    /// Whether the messages that had ended are told of a run that breaks off.
    pub partial: bool,
}

/// What is told of a run, and the hands by which its messages asked.
#[derive(Drop)]
pub struct RanOn<H: Drop> {
    pub told: Recorded,
    pub hands: Vec<Option<H>>,
}

/// Why a run broke off, and what is told of it all the same, of the messages that had ended.
#[derive(Drop)]
pub struct Broken {
    pub error: RunError,
    pub told: Option<Recorded>,
}

/// Runs the messages of the trace on the store. `hands` has one for each message, by which it asks;
/// by `hand` the cells are filled.
pub fn run_on<R: Threads + Wait + Clock + Eprint + Sync, S: Store + Sync>(
    rt: &R,
    alloc: Global,
    files: &RunFiles<'_>,
    store: &S,
    hand: &mut S::Hand,
    hands: Vec<Option<S::Hand>>,
    places: &Places,
    settings: &Settings<'_>,
) -> Result<RanOn<S::Hand>, Broken>
    requires assigned { IsAssigned files.now }
    requires fresh { AreFresh (length files.now.accepted.now.trace.messages)
        (map (option_map S.log) hands.items) }
    ensures told { IfOk result (λ ran. TellRun files.now.hierarchy.now
        (instance_in files.now) settings.now.pace.workers settings.now.pace.tick ran.told.measured.items
        (string_bytes ran.told.text) ran.told.drift) }
    ensures asked { IfOk result (λ ran. AreAsked (asking_by places.now files.now.accepted.now.trace settings.now)
        (map (option_map S.log) ran.hands.items)) }
    ensures filled { OnOk result (GoesOn (S.log hand.old) (S.log hand.new)
        (AsksFilling places.now settings.now.fill (cells_named files.now.accepted.now.trace.messages))) }
    ensures refused { IfErr result (λ broken. IsOfRunning
        (job_in files.now places.now) settings.now.pace.workers broken.error) }
    ensures left { IfErr result (λ broken. IfSome broken.told (λ told. TellPart files.now.hierarchy.now
        (instance_in files.now) settings.now.pace.workers settings.now.pace.tick
        told.measured.items (string_bytes told.text) told.drift)) }
    ensures wanted { IfErr result (λ broken. IfSome broken.told (λ _. settings.now.partial ≡ true)) }
{
    let filled = fill_all(alloc, files.accepted, store, hand, places, settings);
    if let Err(error) = filled {
        drop(hands);
        return Err(untold(error));
    }
    match ran_on(rt, alloc, files.accepted, store, hands, places, settings) {
        Ok(ran) => told_on(alloc, files, ran, places, settings),
        Err(halted) => Err(broken_of(rt, alloc, files, halted, places, settings)),
    }
}

/// Why a run broke off of which nothing is told.
fn untold(error: RunError) -> Broken
    ensures error { result.error ≡ error }
    ensures none { result.told ≡ None }
{
    Broken { error, told: None }
}

/// What is told of a run that came to its end.
fn told_on<H: Drop>(
    alloc: Global,
    files: &RunFiles<'_>,
    ran: Ran<H>,
    places: &Places,
    settings: &Settings<'_>,
) -> Result<RanOn<H>, Broken>
    requires assigned { IsAssigned files.now }
    requires ran { AreRunTurns (course_by (instance_in files.now)
        settings.now.pace.workers settings.now.pace.tick) ran.turns.items }
    ensures told { IfOk result (λ on. TellRun files.now.hierarchy.now
        (instance_in files.now) settings.now.pace.workers settings.now.pace.tick on.told.measured.items
        (string_bytes on.told.text) on.told.drift) }
    ensures hands { IfOk result (λ on. on.hands ≡ ran.hands) }
    ensures refused { IfErr result (λ broken. IsOfRunning
        (job_in files.now places.now) settings.now.pace.workers broken.error) }
    ensures nothing { IfErr result (λ broken. broken.told ≡ None) }
{
    let Ran { turns, hands } = ran;
    let run = RunTurns {
        hierarchy: files.hierarchy,
        layout: &files.accepted.layout,
        case: files.accepted.case(),
        bytes: files.trace,
        turns: turns.as_slice(),
        workers: settings.pace.workers,
        tick: settings.pace.tick,
    };
    let told = record_of(alloc, &run);
    drop(turns);
    match told {
        Ok(told) => Ok(RanOn { told, hands }),
        Err(error) => {
            drop(hands);
            let workers = settings.pace.workers;
            let why = Stopped::from(error);
            Err(untold(fault_of(alloc, files.accepted, places, workers, why)))
        }
    }
}

/// Why a run broke off that was stopped, and what is told of it.
fn broken_of<R: Threads + Sync>(
    rt: &R,
    alloc: Global,
    files: &RunFiles<'_>,
    halted: Halted,
    places: &Places,
    settings: &Settings<'_>,
) -> Broken
    requires assigned { IsAssigned files.now }
    requires reached { IfSome halted.turns (λ turns. AreReached (course_by (instance_in files.now)
        settings.now.pace.workers settings.now.pace.tick) turns.items) }
    ensures refused { IsOfRunning
        (job_in files.now places.now) settings.now.pace.workers result.error }
    ensures left { IfSome result.told (λ told. TellPart files.now.hierarchy.now
        (instance_in files.now) settings.now.pace.workers settings.now.pace.tick
        told.measured.items (string_bytes told.text) told.drift) }
    ensures wanted { IfSome result.told (λ _. settings.now.partial ≡ true) }
{
    let Halted { why, turns } = halted;
    let error = fault_of(alloc, files.accepted, places, settings.pace.workers, why);
    let Some(turns) = turns else {
        return untold(error);
    };
    if !settings.partial {
        drop(turns);
        return untold(error);
    }
    let run = StoppedRun {
        hierarchy: files.hierarchy,
        bytes: files.trace,
        whole: files.accepted,
        turns: turns.as_slice(),
        workers: settings.pace.workers,
        tick: settings.pace.tick,
    };
    let left = record_left(rt, alloc, &run);
    drop(turns);
    match left {
        Ok(told) => Broken { error, told },
        Err(_) => untold(error),
    }
}

/// What happens when the messages are run.
fn ran_on<R: Threads + Wait + Clock + Eprint + Sync, S: Store + Sync>(
    rt: &R,
    alloc: Global,
    accepted: &Accepted,
    store: &S,
    hands: Vec<Option<S::Hand>>,
    places: &Places,
    settings: &Settings<'_>,
) -> Result<Ran<S::Hand>, Halted>
    requires fresh { AreFresh (length accepted.now.trace.messages)
        (map (option_map S.log) hands.items) }
    ensures ran { IfOk result (λ ran. AreRunTurns (course_by (instance_under accepted.now.layout
        accepted.now.assigned accepted.now.trace) settings.now.pace.workers settings.now.pace.tick) ran.turns.items) }
    ensures asked { IfOk result (λ ran. AreAsked (asking_by places.now accepted.now.trace settings.now)
        (map (option_map S.log) ran.hands.items)) }
    ensures halted { IfErr result (λ halted. IfSome halted.turns (λ turns. AreReached (course_by (instance_under
        accepted.now.layout accepted.now.assigned accepted.now.trace) settings.now.pace.workers settings.now.pace.tick)
        turns.items)) }
{
    let longest = longest_call(&accepted.trace, places);
    let syncs = match syncs_of(alloc, &accepted.trace, settings) {
        Ok(syncs) => syncs,
        Err(_) => {
            drop(hands);
            return Err(nothing_noted(Stopped::Memory));
        }
    };
    let case = accepted.case();
    let ran = run(
        rt,
        alloc,
        case,
        store,
        hands,
        places,
        syncs.as_slice(),
        longest,
        settings.pace,
    );
    drop(syncs);
    ran
}

/// Each cell that the trace names is read and written back, where it is to be.
#[tactic(auto, using(crate::proofs::Asking::fills, crate::proofs::Asking::fills_none))]
fn fill_all<S: Store>(
    alloc: Global,
    accepted: &Accepted,
    store: &S,
    hand: &mut S::Hand,
    places: &Places,
    settings: &Settings<'_>,
) -> Result<(), RunError>
    ensures filled { OnOk result (GoesOn (S.log hand.old) (S.log hand.new)
        (AsksFilling places.now settings.now.fill (cells_named accepted.now.trace.messages))) }
    ensures refused { IfErr result (IsOfRunning
        (job_of accepted.now.layout places.now accepted.now.trace) settings.now.pace.workers) }
{
    if !settings.fill {
        return Ok(());
    }
    match fill(alloc, store, hand, places, &accepted.trace) {
        Ok(()) => Ok(()),
        Err(stopped) => {
            let workers = settings.pace.workers;
            Err(fault_of(alloc, accepted, places, workers, stopped))
        }
    }
}

/// Why a run by so many workers that was stopped tells nothing.
fn fault_of(
    alloc: Global,
    accepted: &Accepted,
    places: &Places,
    workers: u32,
    stopped: Stopped,
) -> RunError
    ensures { IsOfRunning (job_of accepted.now.layout places.now accepted.now.trace) workers result }
{
    match stopped {
        Stopped::Memory => RunError::Tool(ToolError::Memory),
        Stopped::Tick(m) if m >= 1 && m <= accepted.trace.len() => RunError::Tick(m),
        Stopped::Tick(_) => RunError::Run,
        Stopped::Threads(n) if n >= 1 && n < workers => RunError::Threads(n),
        Stopped::Threads(_) => RunError::Run,
        Stopped::Line => RunError::Run,
        Stopped::File(file) => match name_of(alloc, accepted, places, file) {
            Ok(Some(name)) => RunError::File(name),
            Ok(None) => RunError::Run,
            Err(_) => RunError::Tool(ToolError::Memory),
        },
    }
}

/// The name of this file, where the trace names a cell in it.
fn name_of(
    alloc: Global,
    accepted: &Accepted,
    places: &Places,
    file: usize,
) -> Result<Option<String>, AllocError>
    ensures { IfOk result (λ name. IfSome name (λ name. NamesFile
        (job_of accepted.now.layout places.now accepted.now.trace) (string_bytes name))) }
{
    let ends = ends(alloc, &accepted.trace, places)?;
    if file >= ends.len() || ends[file] == 0 {
        return Ok(None);
    }
    let name = file_name(alloc, &accepted.layout, places, file)?;
    Ok(Some(name))
}

/// Which files are synced at the end of each message.
fn syncs_of(alloc: Global, trace: &Trace, settings: &Settings<'_>) -> Result<Vec<Syncs>, AllocError>
    ensures { IfOk result (λ syncs.
        syncs.items ≡ map (syncs_by settings.now) trace.now.messages) }
{
    let mut syncs = Vec::with_capacity(alloc, trace.len() as usize)?;
    for m in 1..trace.len() + 1 {
        syncs.push(syncs_at(trace.message(m), settings))?;
    }
    Ok(syncs)
}

/// Which files are synced at the end of a message.
fn syncs_at(message: &Message, settings: &Settings<'_>) -> Syncs
    ensures { result ≡ syncs_by settings.now message.now }
{
    if is_named(message, settings) {
        Syncs::All
    } else if settings.sync_writes {
        Syncs::Written
    } else {
        Syncs::None
    }
}

/// Whether the message has one of the names for which the files of all cells are synced.
fn is_named(message: &Message, settings: &Settings<'_>) -> bool
    ensures { result ≡ is_named settings.now.syncs.now message.now }
{
    let name = message.name.as_str();
    settings.syncs.iter().any(|it| it.as_str() == name)
}

/// How long the plan of the measured trace for so many workers is, in ticks.
pub fn planned_length<R: Threads + Sync>(
    rt: &R,
    alloc: Global,
    hierarchy: &[u8],
    measured: &[u8],
    workers: Workers,
) -> Result<u64, ToolError> {
    let accepted = accept_by_threads(rt, alloc, hierarchy, measured)?;
    let made = list_plan_of(alloc, accepted.case(), Rule::Arrival, workers.number())?;
    let length = made.plan().length();
    drop(made);
    drop(accepted);
    Ok(length)
}
