//! The core machine on random events, beside the plain one.

ghost use Rattle.std.specs.Prelude.{◌≡◌, ◌≤◌};
ghost use Rattle.waff_model.specs.Messages.{sizes_of};
ghost use Rattle.waff_cells.specs.Grid.{HasSizes};

use crate::dice::Dice;
use crate::lists;
use crate::machine::{Fault, Machine};
use crate::pairs::ordered;
use crate::plans::{Work, times_of};
use crate::traces::{HIERARCHIES, TRACES, random_trace};
use std::alloc::{AllocError, Global};
use std::process::Abort;
use waff_assign::assign;
use waff_core::{CoreError, CoreState, Event, Job, run_events};
use waff_model::{AffinityId, Cell, Layout, Trace};
use waff_order::predecessors::needs;
use waff_read::{read_hierarchy, read_trace};

/// Events, and why the last one is not allowed, if it is not.
#[derive(Drop)]
struct Events {
    all: Vec<Event>,
    fault: Option<Fault>,
}

/// An event of one of so many actors, or of none of them.
fn random_event(dice: &mut Dice, seats: u32) -> Event {
    let actor = dice.below(seats.saturating_add(2));
    match dice.below(3) {
        0 => Event::Draw(actor),
        1 => Event::Begin(actor),
        _ => Event::End(actor),
    }
}

/// As many turns as are taken at most.
const TURNS: u32 = 2000;

/// Takes up to `TURNS` turns at random: most events that are not allowed are passed over, and the
/// first that is not ends the list.
fn play(
    alloc: Global,
    dice: &mut Dice,
    machine: &mut Machine,
    trace: &Trace,
) -> Result<Events, AllocError> {
    let mut all = Vec::new(alloc);
    for _ in 0..dice.below(TURNS) {
        let event = random_event(dice, machine.seats);
        match machine.step(trace, event) {
            Ok(()) => all.push(event)?,
            Err(fault) => {
                if dice.below(400) == 0 {
                    all.push(event)?;
                    return Ok(Events {
                        all,
                        fault: Some(fault),
                    });
                }
            }
        }
    }
    Ok(Events { all, fault: None })
}

/// What is answered where this event, from 1, is not allowed.
fn refusal(place: usize, fault: Fault) -> CoreError {
    let place = place.try_into().unwrap_or(0);
    match fault {
        Fault::Busy => CoreError::Busy { place },
        Fault::Nothing => CoreError::Nothing { place },
        Fault::NotYet(message) => CoreError::NotYet { place, message },
    }
}

/// The job of the trace in this order.
fn job(rt: &impl Abort, alloc: Global, hierarchy: &str, trace: &str, order: &[u32]) -> Job {
    let read = read_hierarchy(alloc, hierarchy.as_bytes()).expect(rt, "a hierarchy");
    let layout = read.without_locks();
    let trace = read_trace(alloc, &layout, trace.as_bytes()).expect(rt, "a trace");
    let assigned = assign(alloc, &layout, &trace).expect(rt, "affinities");
    let needs = needs(alloc, layout.tree(), &assigned).expect(rt, "needs");
    assert!(rt; layout.has_few_cells());
    Job::new(alloc, layout, trace, assigned, needs, order).expect(rt, "a job")
}

/// The machine of the trace, which draws in the order of a list plan.
fn opening(rt: &impl Abort, alloc: Global, layout: &Layout, trace: &Trace, seats: u32) -> Machine
    requires { trace.now.sizes ≡ sizes_of layout.now.spaces }
{
    let assigned = assign(alloc, layout, trace).expect(rt, "affinities");
    let work = Work {
        number: 0,
        pairs: ordered(alloc, layout.tree(), &assigned).expect(rt, "pairs"),
        times: times_of(alloc, trace).expect(rt, "times"),
    };
    drop(assigned);
    let arrivals = lists::arrivals(alloc, &work).expect(rt, "priorities");
    let started = lists::list(alloc, &work, &arrivals, seats).expect(rt, "a plan");
    let order = lists::order(alloc, &started).expect(rt, "an order");
    Machine::opening(alloc, work.pairs, order, seats).expect(rt, "a machine")
}

/// The messages of the state have to be those of the machine.
fn messages_are(rt: &impl Abort, machine: &Machine, state: &CoreState) {
    assert!(rt; state.drawn() == machine.drawn, "{} draws", state.drawn());
    for (m, wanted) in (1u32..).zip(&machine.statuses) {
        let found = state.status(m);
        assert!(rt; found == *wanted, "message {m}: {found:?}");
    }
}

/// The parcels of the state have to be those of the machine.
fn parcels_are(
    rt: &impl Abort,
    layout: &Layout,
    trace: &Trace,
    machine: &Machine,
    state: &CoreState,
) {
    for a in 0..layout.tree().len() {
        let affinity = AffinityId(a as u16);
        let home = machine.is_home(layout, trace, affinity);
        assert!(rt; state.home(affinity) == home, "affinity {a}: {home}");
    }
}

/// The cells of the state have to be those of the machine.
fn cells_are(rt: &impl Abort, layout: &Layout, machine: &Machine, state: &CoreState)
    requires { HasSizes state.now.cells (sizes_of layout.now.spaces) }
{
    for space in 0..layout.space_count() {
        for index in 0..layout.space_size(space) {
            let cell = Cell { space, index };
            let (found, wanted) = (state.get(cell), machine.cells.get(cell));
            assert!(rt; found == wanted, "cell {cell:?}: {found}");
        }
    }
}

/// Random events of the trace have to leave what the plain machine leaves, or to be refused as it
/// refuses them: why it does.
fn agree(
    rt: &impl Abort,
    alloc: Global,
    dice: &mut Dice,
    seats: u32,
    hierarchy: &str,
    text: &str,
) -> Option<Fault>
    requires some { 1 ≤ seats }
    requires few { seats ≤ 16 }
{
    let layout = read_hierarchy(alloc, hierarchy.as_bytes()).expect(rt, "a hierarchy");
    let trace = read_trace(alloc, &layout, text.as_bytes()).expect(rt, "a trace");
    let mut machine = opening(rt, alloc, &layout, &trace, seats);
    let events = play(alloc, dice, &mut machine, &trace).expect(rt, "events");
    let job = job(rt, alloc, hierarchy, text, &machine.order);
    match run_events(alloc, &job, seats, &events.all) {
        Ok(state) => {
            assert!(rt; events.fault.is_none());
            messages_are(rt, &machine, &state);
            parcels_are(rt, &layout, &trace, &machine, &state);
            cells_are(rt, job.layout(), &machine, &state);
        }
        Err(error) => {
            let wanted = events.fault.map(|fault| refusal(events.all.len(), fault));
            assert!(rt; wanted == Some(error), "{error:?}");
        }
    }
    events.fault
}

/// Which of four ends of a list of events this is.
fn end(fault: Option<Fault>) -> usize {
    match fault {
        None => 0,
        Some(Fault::Busy) => 1,
        Some(Fault::Nothing) => 2,
        Some(Fault::NotYet(_)) => 3,
    }
}

#[test]
fn take_and_refuse_the_same_events(rt: HostRuntime) {
    let mut dice = Dice::new(2);
    let mut ends = [0u32; 4];
    for number in 0..TRACES {
        let text = random_trace(rt.alloc(), &mut dice, false).expect(&rt, "a trace");
        for hierarchy in HIERARCHIES {
            let seats = 1 + number % 5;
            let fault = agree(&rt, rt.alloc(), &mut dice, seats, hierarchy, text.as_str());
            if let Some(count) = ends.get_mut(end(fault)) {
                *count = count.saturating_add(1);
            }
        }
    }
    assert!(rt; ends.iter().all(|count| *count >= 10), "{ends:?}");
}
