//! The workers of a run: threads over one lock, round the line. All times are nanoseconds from when the run began: the
//! line is told the clock as it is.

ghost use Rattle.std.specs.Bool.{OnTrue};
ghost use Rattle.std.specs.Prelude.{◌≡◌, ℕ, All, IfErr, IfOk, IfSome, None, OnOk, length, map, option_map, true};
ghost use Rattle.waff_assign.specs.Case.{instance_of};
ghost use Rattle.waff_line.specs.Laws.{AreAllEnded};
ghost use Rattle.waff_line.specs.Machine.{IsCourse};
ghost use Rattle.waff_line.specs.Turns.{AreReached, AreRunTurns, course_by};
ghost use Rattle.waff_run.specs.Hands.{AreAsked, AreFresh, asking_of};

use crate::fault::Stopped;
use crate::going::{Asking, Failed, Going, Performed, RunOf, Taken};
use crate::locked::Locked;
use crate::pace::Pace;
use crate::perform::Room;
use crate::places::Places;
use crate::shared::{Shared, await_issue, await_offer, look, nanos, sleep, wake};
use crate::store::Store;
use crate::syncing::Syncs;
use crate::threads::Gate;
use std::alloc::{AllocError, Global};
use std::marker::{Brand, Send, Sync};
use std::rt::Clock;
use std::sync::atomic::{AtomicBool, Ordering};
use std::sync::{Condvar, Mutex, MutexGuard, Wait};
use std::thread;
use std::thread::Threads;
use std::time::Instant;
use waff_assign::Case;
use waff_line::{Line, Turn, laws};

/// What a run tells, and the hands by which its messages asked.
#[derive(Drop)]
pub struct Ran<H: Drop> {
    pub turns: Vec<Turn>,
    pub hands: Vec<Option<H>>,
}

/// Why a run was stopped, and what was noted of its messages by then; nothing where it had not begun, or memory was refused.
#[derive(Drop)]
pub struct Halted {
    pub why: Stopped,
    pub turns: Option<Vec<Turn>>,
}

/// Runs the messages of a case on a store, by threads. `syncs` says for each message which files are synced at
/// its end; `hands` has one for each message, by which it is asked. That it tells when the threads did that, no clause says.
pub fn run<R: Threads + Wait + Clock + Eprint + Sync, S: Store + Sync>(
    rt: &R,
    alloc: Global,
    case: Case<'_>,
    store: &S,
    hands: Vec<Option<S::Hand>>,
    places: &Places,
    syncs: &[Syncs],
    longest: usize,
    pace: Pace,
) -> Result<Ran<S::Hand>, Halted>
    requires fresh { AreFresh (length case.trace.now.messages) (map (option_map S.log) hands.items) }
    ensures ran { IfOk result (λ ran.
        AreRunTurns (course_by (instance_of case.entry) pace.workers pace.tick) ran.turns.items) }
    ensures asked { IfOk result (λ ran. AreAsked
        (asking_of places.now case.entry.trace.now.messages syncs.now)
        (map (option_map S.log) ran.hands.items)) }
    ensures halted { IfErr result (λ halted. IfSome halted.turns (λ turns.
        AreReached (course_by (instance_of case.entry) pace.workers pace.tick) turns.items)) }
{
    run_at::<Brand, R, S>(rt, alloc, case, store, hands, places, syncs, longest, pace)
}

/// The same for the course that C names.
fn run_at<C: RunOf + Send + Sync, R: Threads + Wait + Clock + Eprint + Sync, S: Store + Sync>(
    rt: &R,
    alloc: Global,
    case: Case<'_>,
    store: &S,
    hands: Vec<Option<S::Hand>>,
    places: &Places,
    syncs: &[Syncs],
    longest: usize,
    pace: Pace,
) -> Result<Ran<S::Hand>, Halted>
    requires fresh { AreFresh (length case.trace.now.messages) (map (option_map S.log) hands.items) }
    requires course { course_by (instance_of case) pace.workers pace.tick ≡ C.course }
    requires asking { asking_of places.now case.trace.now.messages syncs.now ≡ C.asking }
    ensures ran { IfOk result (λ ran. AreRunTurns C.course ran.turns.items) }
    ensures asked { IfOk result (λ ran. AreAsked C.asking (map (option_map S.log) ran.hands.items)) }
    ensures halted { IfErr result (λ halted. IfSome halted.turns (λ turns. AreReached C.course turns.items)) }
{
    let _messages = case.trace.len();
    let Ok(line) = Line::of(alloc, case, pace.workers, pace.tick) else {
        return Err(nothing_noted(Stopped::Memory));
    };
    let Ok(rooms) = rooms(alloc, places, longest, pace.workers) else {
        return Err(nothing_noted(Stopped::Memory));
    };
    let locked = Mutex::new(Locked::<C, S>::of(Going::of(line, hands)));
    let changed = Condvar::new();
    let offer = AtomicBool::new(false);
    let gate = Gate::new();
    let shared = Shared {
        case,
        store,
        asking: Asking::of(places, case.trace, syncs),
        locked: &locked,
        changed: &changed,
        offer: &offer,
        gate: &gate,
        pace,
    };
    let started = work_all(rt, &shared, rooms.as_slice());
    let locked = locked.into_inner();
    clear_progress(rt, &locked);
    if started < pace.workers {
        return Err(nothing_noted(Stopped::Threads(started)));
    }
    ended(alloc, locked)
}

/// Nothing was noted of a run that was stopped for this.
pub(crate) fn nothing_noted(why: Stopped) -> Halted
    ensures { result.turns ≡ None }
{
    Halted { why, turns: None }
}

/// Clears the line of progress, where one was told: what is told next has a line of its own.
fn clear_progress<C: RunOf, R: Eprint, S: Store>(rt: &R, locked: &Locked<'_, C, S>) {
    if locked.told > 0 {
        let _ = rt.eprint(format_args!("\r{:33}\r", ""));
    }
}

/// Starts a thread for each worker but the first, which is this thread, and works on all of them. How many workers could
/// be started: where it is not all, nothing is run.
fn work_all<C: RunOf + Send + Sync, R: Threads + Wait + Clock + Eprint + Sync, S: Store + Sync>(
    rt: &R,
    shared: &Shared<'_, '_, S, C>,
    rooms: &[Mutex<Room>],
) -> u32 {
    thread::scope(thread::scope_env(), rt, |scope| {
        let mut started = 1;
        for at in 1..shared.pace.workers as usize {
            if scope.spawn(move || work(rt, shared, rooms, at)).is_err() {
                break;
            }
            started = u32::saturating_add(started, 1);
        }
        shared.gate.settle(rt, started == shared.pace.workers);
        work(rt, shared, rooms, 0);
        started
    })
}

/// The room of each worker.
fn rooms(
    alloc: Global,
    places: &Places,
    longest: usize,
    workers: u32,
) -> Result<Vec<Mutex<Room>>, AllocError> {
    let mut rooms = Vec::with_capacity(alloc, workers as usize)?;
    for _ in 0..workers {
        rooms.push(Mutex::new(Room::of(alloc, places, longest)?))?;
    }
    Ok(rooms)
}

/// What happened, where the run came to its end.
fn ended<C: RunOf, S: Store>(
    alloc: Global,
    locked: Locked<'_, C, S>,
) -> Result<Ran<S::Hand>, Halted>
    requires { IsCourse C.course }
    ensures ran { IfOk result (λ ran. AreRunTurns C.course ran.turns.items) }
    ensures asked { IfOk result (λ ran. AreAsked C.asking (map (option_map S.log) ran.hands.items)) }
    ensures halted { IfErr result (λ halted. IfSome halted.turns (λ turns. AreReached C.course turns.items)) }
{
    let Locked { line, stopped, .. } = locked;
    if let Some(why) = stopped {
        let turns = turns_noted(alloc, &line);
        drop(line);
        return Err(Halted { why, turns });
    }
    match turns_of(alloc, &line) {
        Ok(turns) => Ok(Ran {
            turns,
            hands: line.into_hands(),
        }),
        Err(stopped) => Err(nothing_noted(stopped)),
    }
}

/// The turns of a line, whether their messages have ended or not; nothing where memory was refused.
fn turns_noted<C: RunOf, S: Store>(alloc: Global, line: &Going<'_, C, S>) -> Option<Vec<Turn>>
    ensures { IfSome result (λ turns. AreReached C.course turns.items) }
{
    match Vec::from_slice(alloc, line.turns()) {
        Ok(turns) => Some(turns),
        Err(_) => None,
    }
}

/// The turns of a line, where all messages have ended.
fn turns_of<C: RunOf, S: Store>(alloc: Global, line: &Going<'_, C, S>) -> Result<Vec<Turn>, Stopped>
    requires { IsCourse C.course }
    ensures ran { IfOk result (λ turns. AreRunTurns C.course turns.items) }
    ensures ended { OnOk result (AreAllEnded C.course line.now.state) }
{
    laws::run_obeys();
    laws::run_is_worker_plan();
    laws::workers_run_one();
    laws::runs_once();
    let turns = line.turns();
    if !have_ended(turns) {
        return Err(Stopped::Line);
    }
    match Vec::from_slice(alloc, turns) {
        Ok(turns) => Ok(turns),
        Err(_) => Err(Stopped::Memory),
    }
}

/// Whether all messages have ended.
fn have_ended(turns: &[Turn]) -> bool
    ensures { OnTrue result (All (λ turn. turn.ended ≡ true) turns.now) }
{
    turns.iter().all(|turn| turn.ended)
}

/// Runs messages on this worker until none is left, from when all workers are there.
fn work<C: RunOf, R: Wait + Clock + Eprint, S: Store>(
    rt: &R,
    shared: &Shared<'_, '_, S, C>,
    rooms: &[Mutex<Room>],
    at: usize,
) {
    let Some(room) = rooms.get(at) else {
        return;
    };
    let mut room = room.lock(rt);
    let Some(begun) = shared.gate.wait(rt) else {
        return;
    };
    let worker = (at as u64).saturating_add(1).min(64) as u32;
    let mut last = None;
    for _ in rt.forever() {
        let Some(taken) = take(rt, shared, &begun, worker, last) else {
            return;
        };
        match taken.perform(shared.store, &shared.asking, &mut *room) {
            Ok(performed) => last = Some(performed),
            Err(failed) => {
                stop(rt, shared, failed);
                return;
            }
        }
    }
    unreachable!()
}

/// The run ends: the other workers stop when they have done what is at hand.
fn stop<C: RunOf, R: Wait, S: Store>(rt: &R, shared: &Shared<'_, '_, S, C>, failed: Failed<C>) {
    let why = failed.why();
    let mut guard = look(rt, shared.locked);
    guard.stop(why);
    shared.changed.notify_all();
}

/// Ends the message that was performed, where there is one, and takes the next one that may begin; none where the
/// run is over. The clock is read under the lock, so that messages join in the order of their issues.
fn take<C: RunOf, R: Wait + Clock + Eprint, S: Store>(
    rt: &R,
    shared: &Shared<'_, '_, S, C>,
    begun: &Instant,
    worker: u32,
    last: Option<Performed<C, S>>,
) -> Option<Taken<C, S>> {
    let mut guard = look(rt, shared.locked);
    if let Some(performed) = last {
        let now = nanos(rt, begun);
        guard.end(performed, now);
        if guard.is_telling(shared.pace.loud, now) {
            let done = guard.line.ended();
            shared.offer.store(true, Ordering::SeqCst);
            let unlocked = MutexGuard::unlock(guard);
            let count = shared.case.trace.len();
            let _ = rt.eprint(format_args!("\rwaff: {done} of {count} messages"));
            guard = look(rt, unlocked);
        }
    }
    let mut looked = None;
    for _ in rt.forever() {
        if guard.is_over() {
            shared.offer.store(true, Ordering::SeqCst);
            shared.changed.notify_all();
            return None;
        }
        let now = nanos(rt, begun);
        guard.arrive(now);
        if let Some(taken) = guard.begin(worker) {
            wake(shared, &guard);
            return Some(taken);
        }
        if guard.stopped.is_some() {
            continue;
        }
        if guard.is_soon(now) {
            guard = await_issue(rt, shared, begun, guard);
        } else if looked == Some(guard.line.ended()) {
            guard = sleep(rt, shared, begun, guard);
        } else {
            looked = Some(guard.line.ended());
            guard = await_offer(rt, shared, begun, guard, u64::MAX);
        }
    }
    unreachable!()
}
