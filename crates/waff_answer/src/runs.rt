//! The messages run on files, and what is told of that.
ghost use Rattle.std.specs.Prelude.{◌≡◌, ◌≤◌, ℕ, ◌⊎◌, None, Ok, Some, ◌++◌, [], false, true, List, IfErr, IfOk, IfSome, OnOk, string_bytes};
ghost use Rattle.std.specs.Io.KnownBytes.{Appends, Keeps};
ghost use Rattle.waff_io.specs.Writing.{AppendsPart, Tells, WritesOrFails};
ghost use Rattle.waff_inputs.specs.declared.fault.ToolError.TheVariants as tool;
ghost use Rattle.waff_run.specs.Faults.{IsOfRunning};
ghost use Rattle.waff_run.specs.Opening.{told_of};
ghost use Rattle.waff_run.specs.RunFiles.{IsAssigned, instance_in, job_in};
ghost use Rattle.waff_run.specs.Texts.{TellPart, TellRun};
ghost use Rattle.waff_answer.specs.Answers.{bytes_of, first, second};
ghost use Rattle.waff_answer.specs.Runs.{EndsRun, IsOfTask, IsPartText, IsRunText, LeavesPart, RefusesRun, drift_message};
ghost use Rattle.waff_answer.specs.Runs.{run_message, run_status, told_by};
ghost use Rattle.waff_cli.specs.Advice.{advice_text};
ghost use Rattle.waff_run.specs.declared.fault.RunError.TheVariants as run;

use crate::answers::file;
use crate::ending::say;
use itoa::Buffer;
use std::alloc::Global;
use std::io::Write;
use std::rt::{Clock, Files};
use std::sync::Wait;
use std::thread::Threads;
use waff_cli::{Advice, RunFault, RunTask, advice_on_run};
use waff_inputs::{ToolError, accept_by_threads, fault_status, write_fault, write_text};
use waff_io::{ErrorStream, WriteFault, write_pieces};
use waff_record::Recorded;
use waff_run::{
    Broken, Folder, Opened, Opens, Pace, Part, Places, RanOn, RunError, RunFiles, Settings, Site,
    planned_length, run_on, silent_hands,
};

/// Runs the messages, writes the measured trace where it is wanted, and then the plan of what happened; or says
/// why there is none. Gives the exit status. Where somebody reads the error stream, it has progress while the
/// messages run, which goes past `err`, and how the run went.
pub fn answer_run<
    R: Threads + Wait + Clock + Files + Opens + Eprint + Sync,
    W: Write,
    E: ErrorStream,
>(rt: &R, alloc: Global, task: &RunTask, out: &mut W, err: &mut E) -> u8
    ensures { EndsRun (first (bytes_of task.now.files.items)) (second (bytes_of task.now.files.items))
        task.now (W.contents out.old) (W.contents out.new)
        (E.holds err.old) (E.holds err.new) (E.failed err.new) result }
{
    match write_run(rt, alloc, task, out) {
        Ok(Went { drift, advice }) => {
            tell_drift(alloc, drift, advice.as_str(), err);
            drop(advice);
            0
        }
        Err(Fallen { error, drift }) => {
            let advice = advice_on_run(alloc, task, fault_of(&error));
            let status = tell(alloc, drift, &error, advice.as_str(), err);
            drop(advice);
            drop(error);
            status
        }
    }
}

/// Why a run broke off, and the drift of what was told of it all the same.
#[derive(Drop)]
struct Fallen {
    error: RunError,
    drift: Option<u128>,
}

/// How a run went: what is told on the error stream.
#[derive(Drop)]
struct Went {
    /// By how many per cent what is told is longer than what was measured, where that is more than one.
    drift: Option<u128>,
    advice: Advice,
}

/// Tells of a drift, where there is one, and then what helps.
fn tell_drift<E: ErrorStream>(alloc: Global, drift: Option<u128>, advice: &str, err: &mut E)
    ensures { Tells (E.holds err.old) (E.holds err.new) (E.failed err.new)
        (drift_message drift ++ advice.now) }
{
    let Some(percent) = drift else {
        say(advice, err);
        return;
    };
    match write_drift(alloc, percent, err) {
        Ok(()) => say(advice, err),
        Err(_) => {}
    }
}

/// Writes the line of a drift.
fn write_drift<E: ErrorStream>(alloc: Global, percent: u128, err: &mut E) -> Result<(), WriteFault>
    ensures { WritesOrFails (E.holds err.old) (E.holds err.new) (E.failed err.new)
        (drift_message (Some percent)) result }
{
    let mut digits = Buffer::new();
    write_pieces(alloc, err, &["waff: Drift ", digits.format(percent), "\n"])
}

/// An error as advice on it goes.
fn fault_of(error: &RunError) -> RunFault<'_> {
    match error {
        RunError::Tool(error) => RunFault::Tool(*error),
        RunError::Tick(_) => RunFault::Tick,
        RunError::Folder => RunFault::Folder,
        RunError::Same(_) => RunFault::Same,
        RunError::Foreign(name) => RunFault::Foreign(name.as_str()),
        RunError::File(name) => RunFault::File(name.as_str()),
        RunError::Threads(_) => RunFault::Threads,
        RunError::Run => RunFault::Run,
    }
}

/// Tells of the drift of what was told all the same, and why there is no more, with what helps, and gives the exit status.
/// Where the error stream fails, the status has to do.
fn tell<E: ErrorStream>(
    alloc: Global,
    drift: Option<u128>,
    error: &RunError,
    advice: &str,
    err: &mut E,
) -> u8
    ensures told { Tells (E.holds err.old) (E.holds err.new) (E.failed err.new)
        ((drift_message drift ++ run_message error.now) ++ advice.now) }
    ensures status { result ≡ run_status error.now }
{
    tell_lines(alloc, drift, error, advice, err);
    status_of(error)
}

/// Writes the line of a drift, where there is one, that of an error, and then what helps.
fn tell_lines<E: ErrorStream>(
    alloc: Global,
    drift: Option<u128>,
    error: &RunError,
    advice: &str,
    err: &mut E,
)
    ensures { Tells (E.holds err.old) (E.holds err.new) (E.failed err.new)
        ((drift_message drift ++ run_message error.now) ++ advice.now) }
{
    let Some(percent) = drift else {
        tell_line(alloc, error, advice, err);
        return;
    };
    match write_drift(alloc, percent, err) {
        Ok(()) => tell_line(alloc, error, advice, err),
        Err(_) => {}
    }
}

/// Writes the line of an error, and then what helps.
fn tell_line<E: ErrorStream>(alloc: Global, error: &RunError, advice: &str, err: &mut E)
    ensures { Tells (E.holds err.old) (E.holds err.new) (E.failed err.new)
        (run_message error.now ++ advice.now) }
{
    match write_line(alloc, error, err) {
        Ok(()) => say(advice, err),
        Err(_) => {}
    }
}

/// Writes the line of an error.
fn write_line<E: ErrorStream>(
    alloc: Global,
    error: &RunError,
    err: &mut E,
) -> Result<(), WriteFault>
    ensures { WritesOrFails (E.holds err.old) (E.holds err.new) (E.failed err.new)
        (run_message error.now) result }
{
    match error {
        RunError::Tool(error) => write_fault(alloc, err, error),
        RunError::Tick(m) => {
            let mut digits = Buffer::new();
            write_pieces(alloc, err, &["waff: Tick ", digits.format(*m), "\n"])
        }
        RunError::Folder => write_pieces(alloc, err, &["waff: Store\n"]),
        RunError::Same(name) => write_pieces(alloc, err, &["waff: Same ", name.as_str(), "\n"]),
        RunError::Foreign(name) => write_pieces(alloc, err, &["waff: Store ", name.as_str(), "\n"]),
        RunError::File(name) => write_pieces(alloc, err, &["waff: Store ", name.as_str(), "\n"]),
        RunError::Threads(workers) => {
            let mut digits = Buffer::new();
            write_pieces(
                alloc,
                err,
                &["waff: Threads ", digits.format(*workers), "\n"],
            )
        }
        RunError::Run => write_pieces(alloc, err, &["waff: Run\n"]),
    }
}

/// The exit status of an error.
fn status_of(error: &RunError) -> u8
    ensures { result ≡ run_status error.now }
{
    match error {
        RunError::Tool(error) => fault_status(error),
        RunError::Tick(_) => 3,
        RunError::Folder => 4,
        RunError::Same(_) => 3,
        RunError::Foreign(_) => 4,
        RunError::File(_) => 4,
        RunError::Threads(_) => 4,
        RunError::Run => 4,
    }
}

/// Runs the messages, and writes both texts. Gives what is told on the error stream of how the run went.
fn write_run<R: Threads + Wait + Clock + Files + Opens + Eprint + Sync, W: Write>(
    rt: &R,
    alloc: Global,
    task: &RunTask,
    out: &mut W,
) -> Result<Went, Fallen>
    ensures quiet { IfOk result (λ went. task.now.loud ≡ false → advice_text went.advice ≡ []) }
    ensures written { IfOk result (λ went. (text : List ℕ)
        × IsRunText (first (bytes_of task.now.files.items)) (second (bytes_of task.now.files.items))
        task.now.words.workers task.now.words.tick text went.drift
        × Appends (W.contents out.old) (W.contents out.new) text) }
    ensures refused { IfErr result (λ fallen. RefusesRun (first (bytes_of task.now.files.items))
        (second (bytes_of task.now.files.items)) task.now fallen.error) }
    ensures part { IfErr result (λ fallen. LeavesPart (first (bytes_of task.now.files.items))
        (second (bytes_of task.now.files.items)) task.now fallen.error fallen.drift
        (W.contents out.old) (W.contents out.new)) }
{
    match ran(rt, alloc, task) {
        Ok(RanOnFiles { told, part }) => {
            let written = write_whole(rt, alloc, task, &told, part, out);
            drop(told);
            written
        }
        Err(BrokeOff { error, left }) => match left {
            None => Err(Fallen { error, drift: None }),
            Some(left) => Err(write_left(rt, task, error, left, out)),
        },
    }
}

/// Writes both texts of a run that came to its end.
fn write_whole<R: Threads + Files + Sync, W: Write>(
    rt: &R,
    alloc: Global,
    task: &RunTask,
    told: &Recorded,
    part: Option<Part>,
    out: &mut W,
) -> Result<Went, Fallen>
    requires { IsRunText (first (bytes_of task.now.files.items)) (second (bytes_of task.now.files.items))
        task.now.words.workers task.now.words.tick (string_bytes told.now.text) told.now.drift }
    ensures quiet { IfOk result (λ went. task.now.loud ≡ false → advice_text went.advice ≡ []) }
    ensures written { IfOk result (λ went. (text : List ℕ)
        × IsRunText (first (bytes_of task.now.files.items)) (second (bytes_of task.now.files.items))
        task.now.words.workers task.now.words.tick text went.drift
        × Appends (W.contents out.old) (W.contents out.new) text) }
    ensures refused { IfErr result (λ fallen. RefusesRun (first (bytes_of task.now.files.items))
        (second (bytes_of task.now.files.items)) task.now fallen.error) }
    ensures part { IfErr result (λ fallen. LeavesPart (first (bytes_of task.now.files.items))
        (second (bytes_of task.now.files.items)) task.now fallen.error fallen.drift
        (W.contents out.old) (W.contents out.new)) }
{
    match write_texts(rt, told, part, out) {
        Ok(()) => Ok(Went {
            drift: told.drift,
            advice: how_it_went(rt, alloc, task, told),
        }),
        Err(error) => Err(Fallen { error, drift: None }),
    }
}

/// Writes both texts of what is left of a run that broke off for this error. Where they cannot be written, the error is told
/// alone.
fn write_left<R: Files, W: Write>(
    rt: &R,
    task: &RunTask,
    error: RunError,
    left: RanOnFiles,
    out: &mut W,
) -> Fallen
    requires wanted { task.now.words.partial ≡ true }
    requires told { IsPartText (first (bytes_of task.now.files.items)) (second (bytes_of task.now.files.items))
        task.now.words.workers task.now.words.tick
        (string_bytes left.told.text) left.told.drift }
    ensures error { result.error ≡ error }
    ensures part { LeavesPart (first (bytes_of task.now.files.items))
        (second (bytes_of task.now.files.items)) task.now result.error result.drift
        (W.contents out.old) (W.contents out.new) }
{
    let RanOnFiles { told, part } = left;
    match write_texts(rt, &told, part, out) {
        Ok(()) => {
            let drift = told.drift;
            drop(told);
            Fallen { error, drift }
        }
        Err(fault) => {
            drop(fault);
            drop(told);
            Fallen { error, drift: None }
        }
    }
}

/// Writes both texts of a run.
fn write_texts<R: Files, W: Write>(
    rt: &R,
    told: &Recorded,
    part: Option<Part>,
    out: &mut W,
) -> Result<(), RunError>
    ensures written { OnOk result
        (Appends (W.contents out.old) (W.contents out.new) (string_bytes told.now.text)) }
    ensures fault { IfErr result (λ error. error ≡ run.Tool tool.Write) }
    ensures part { IfErr result (λ _. Keeps (W.contents out.old) (W.contents out.new)
        ⊎ AppendsPart (W.contents out.old) (W.contents out.new) (string_bytes told.now.text)) }
{
    match write_measured(rt, part, told) {
        Ok(()) => {}
        Err(error) => return Err(error),
    }
    match write_text(out, told.text.as_bytes()) {
        Ok(()) => Ok(()),
        Err(error) => Err(RunError::Tool(error)),
    }
}

/// What is told of a run, and the file for the measured trace, where it is wanted.
#[derive(Drop)]
struct RanOnFiles {
    told: Recorded,
    part: Option<Part>,
}

/// Why there is no run to its end, and what is left of one that broke off, where it is told.
#[derive(Drop)]
struct BrokeOff {
    error: RunError,
    left: Option<RanOnFiles>,
}

/// Accepts the files, and runs the messages.
fn ran<R: Threads + Wait + Clock + Files + Opens + Eprint + Sync>(
    rt: &R,
    alloc: Global,
    task: &RunTask,
) -> Result<RanOnFiles, BrokeOff>
    ensures told { IfOk result (λ ran. IsRunText (first (bytes_of task.now.files.items))
        (second (bytes_of task.now.files.items)) task.now.words.workers task.now.words.tick
        (string_bytes ran.told.text) ran.told.drift) }
    ensures refused { IfErr result (λ broke. RefusesRun (first (bytes_of task.now.files.items))
        (second (bytes_of task.now.files.items)) task.now broke.error) }
    ensures left { IfErr result (λ broke. IfSome broke.left (λ left. IsPartText (first (bytes_of task.now.files.items))
        (second (bytes_of task.now.files.items)) task.now.words.workers task.now.words.tick (string_bytes left.told.text) left.told.drift)) }
    ensures wanted { IfErr result (λ broke. IfSome broke.left (λ _. task.now.words.partial ≡ true)) }
{
    let files = task.files.as_slice();
    let (hierarchy, trace) = (file(files, 0), file(files, 1));
    match accept_by_threads(rt, alloc, hierarchy, trace) {
        Ok(accepted) => {
            let given = RunFiles {
                hierarchy,
                trace,
                accepted: &accepted,
            };
            let ran = ran_on_files(rt, alloc, task, &given);
            drop(accepted);
            ran
        }
        Err(error) => Err(broke_of(RunError::Tool(error))),
    }
}

/// Nothing is left of a run that broke off.
fn broke_of(error: RunError) -> BrokeOff
    ensures error { result.error ≡ error }
    ensures none { result.left ≡ None }
{
    BrokeOff { error, left: None }
}

/// Opens the files of cells, and runs the messages on them.
#[tactic(auto, using(crate::proofs::Running::of_memory, crate::proofs::Running::of_running))]
fn ran_on_files<R: Threads + Wait + Clock + Files + Opens + Eprint + Sync>(
    rt: &R,
    alloc: Global,
    task: &RunTask,
    files: &RunFiles<'_>,
) -> Result<RanOnFiles, BrokeOff>
    requires assigned { IsAssigned files.now }
    ensures told { IfOk result (λ ran. TellRun files.now.hierarchy.now
        (instance_in files.now) task.now.words.workers task.now.words.tick ran.told.measured.items
        (string_bytes ran.told.text) ran.told.drift) }
    ensures refused { IfErr result (λ broke. IsOfTask files.now.accepted.now.layout
        files.now.accepted.now.trace task.now broke.error) }
    ensures left { IfErr result (λ broke. IfSome broke.left (λ left. TellPart files.now.hierarchy.now
        (instance_in files.now) task.now.words.workers task.now.words.tick left.told.measured.items
        (string_bytes left.told.text) left.told.drift)) }
    ensures wanted { IfErr result (λ broke. IfSome broke.left (λ _. task.now.words.partial ≡ true)) }
{
    let words = &task.words;
    let places = match Places::of(alloc, &files.accepted.layout, words.cell) {
        Ok(places) => places,
        Err(_) => return Err(broke_of(RunError::Tool(ToolError::Memory))),
    };
    let site = site_of(task);
    let opened = rt.open_run(
        alloc,
        &site,
        &files.accepted.layout,
        &files.accepted.trace,
        &places,
    );
    let Opened { store, part, found } = match opened {
        Ok(opened) => opened,
        Err(error) => return Err(broke_of(error)),
    };
    drop(found);
    let settings = settings_of(task);
    let ran = ran_on_store(rt, alloc, files, &store, &places, &settings);
    drop(store);
    match ran {
        Ok(told) => Ok(RanOnFiles { told, part }),
        Err(Broken { error, told }) => match told {
            Some(told) => Err(BrokeOff {
                error,
                left: Some(RanOnFiles { told, part }),
            }),
            None => {
                if let Some(part) = part {
                    part.remove(rt);
                }
                Err(broke_of(error))
            }
        },
    }
}

/// Runs the messages on files that are open.
fn ran_on_store<R: Threads + Wait + Clock + Eprint + Sync>(
    rt: &R,
    alloc: Global,
    files: &RunFiles<'_>,
    store: &Folder,
    places: &Places,
    settings: &Settings<'_>,
) -> Result<Recorded, Broken>
    requires assigned { IsAssigned files.now }
    ensures told { IfOk result (λ told. TellRun files.now.hierarchy.now
        (instance_in files.now) settings.now.pace.workers settings.now.pace.tick told.measured.items
        (string_bytes told.text) told.drift) }
    ensures refused { IfErr result (λ broken. IsOfRunning
        (job_in files.now places.now) settings.now.pace.workers broken.error) }
    ensures left { IfErr result (λ broken. IfSome broken.told (λ told. TellPart files.now.hierarchy.now
        (instance_in files.now) settings.now.pace.workers settings.now.pace.tick
        told.measured.items (string_bytes told.text) told.drift)) }
    ensures wanted { IfErr result (λ broken. IfSome broken.told (λ _. settings.now.partial ≡ true)) }
{
    let hands = match silent_hands(alloc, files.accepted.trace.len() as usize) {
        Ok(hands) => hands,
        Err(_) => return Err(Broken {
            error: RunError::Tool(ToolError::Memory),
            told: None,
        }),
    };
    let ran = run_on(rt, alloc, files, store, &mut (), hands, places, settings);
    match ran {
        Ok(RanOn { told, hands }) => {
            drop(hands);
            Ok(told)
        }
        Err(broken) => Err(broken),
    }
}

/// Where a run reads and writes.
fn site_of<'a>(task: &'a RunTask) -> Site<'a>
    ensures { told_of result ≡ told_by task.now }
{
    Site {
        folder: task.words.folder.as_str(),
        over: task.words.over,
        inputs: task.names.as_slice(),
        measured: task.words.trace.as_deref(),
    }
}

/// How the messages are run.
fn settings_of<'a>(task: &'a RunTask) -> Settings<'a>
    ensures workers { result.pace.workers ≡ task.now.words.workers }
    ensures tick { result.pace.tick ≡ task.now.words.tick }
    ensures partial { result.partial ≡ task.now.words.partial }
{
    let words = &task.words;
    Settings {
        pace: Pace {
            workers: words.workers.number(),
            tick: words.tick.nanoseconds(),
            loud: task.progress,
        },
        fill: words.fill,
        sync_writes: words.sync_writes,
        syncs: words.syncs.as_slice(),
        partial: words.partial,
    }
}

/// Writes the measured trace, where it is wanted.
fn write_measured<R: Files>(rt: &R, part: Option<Part>, told: &Recorded) -> Result<(), RunError>
    ensures { IfErr result (λ error. error ≡ run.Tool tool.Write) }
{
    let Some(part) = part else {
        return Ok(());
    };
    match part.keep(rt, told.measured.as_slice()) {
        Ok(()) => Ok(()),
        Err(_) => Err(RunError::Tool(ToolError::Write)),
    }
}

/// Of a loud run: what helps against a drift, how long the run was, how long the plan for its costs is, and how late messages
/// began.
fn how_it_went<R: Threads + Sync>(rt: &R, alloc: Global, task: &RunTask, ran: &Recorded) -> Advice
    ensures { task.now.loud ≡ false → advice_text result ≡ [] }
{
    if !task.loud {
        return Advice::Nothing;
    }
    let hierarchy = file(task.files.as_slice(), 0);
    let measured = ran.measured.as_slice();
    let workers = task.words.workers;
    let Ok(planned) = planned_length(rt, alloc, hierarchy, measured, workers) else {
        return Advice::Nothing;
    };
    let (length, late, short) = (ran.tally.length, ran.tally.late, ran.tally.short);
    // It stands where the line of the progress stood.
    let over = if task.progress { "\r" } else { "" };
    let text = match ran.drift {
        Some(_) => format!(in alloc;
            "{short} messages were shorter than a tick; a trace that is made with a smaller tick tells how long they were\n{over}waff: ran {length} ticks, planned {planned}, messages began {late} ns late (median)\n"
        ),
        None => format!(in alloc;
            "{over}waff: ran {length} ticks, planned {planned}, messages began {late} ns late (median)\n"
        ),
    };
    match text {
        Ok(text) => Advice::Text(text),
        Err(_) => Advice::Nothing,
    }
}
