//! The core machine over the hierarchical sample.

ghost use Rattle.std.specs.Prelude.{◌≤◌};
ghost use Rattle.waff_model.specs.Messages.{sizes_of};
ghost use Rattle.waff_cells.specs.Grid.{HasSizes};

use crate::jobs::job;
use std::alloc::Global;
use std::process::Abort;
use waff_core::{CoreError, CoreState, Event, Job, JobError, Status, run_events};
use waff_model::{AffinityId, Cell};
use waff_samples::{H1, X1};

/// Orders that do not list each message once, after its needs.
const NO_ORDERS: &[[u32; 6]] = &[[1, 2, 3, 4, 6, 5], [1, 1, 2, 3, 4, 5]];

/// The job of the first trace, in which message 4 is drawn before message 3.
fn first_job(rt: &impl Abort, alloc: Global) -> Job {
    job(rt, alloc, H1, X1, &[1, 2, 4, 3, 5, 6]).expect(rt, "a job")
}

#[test]
fn orders_list_each_message_after_its_needs(rt: HostRuntime) {
    for order in NO_ORDERS {
        let refused = job(&rt, rt.alloc(), H1, X1, order).err();
        assert!(rt; refused == Some(JobError::Order), "{order:?}: {refused:?}");
    }
    let job = first_job(&rt, rt.alloc());
    assert!(rt; job.len() == 6);
    drop(job);
}

/// Two actors begin a message each, and the second ends its own and draws another.
const TWO_ACTORS: [Event; 6] = [
    Event::Draw(1),
    Event::Draw(2),
    Event::Begin(1),
    Event::Begin(2),
    Event::End(2),
    Event::Draw(2),
];

/// What this leaves of the messages.
const STATUSES: [Status; 6] = [
    Status::Running { actor: 1 },
    Status::Done,
    Status::Waiting,
    Status::Held { actor: 2 },
    Status::Waiting,
    Status::Waiting,
];

/// The affinities A0 and B0 of the sample, and the cells f:0 and g:0, each in a space.
const A0: AffinityId = AffinityId(3);

const B0: AffinityId = AffinityId(5);

const F0: Cell = Cell { space: 0, index: 0 };

const G0: Cell = Cell { space: 2, index: 0 };

/// The number of a cell, which has to lie in the job's layout.
fn number(rt: &impl Abort, job: &Job, state: &CoreState, cell: Cell) -> u64
    requires { HasSizes state.now.cells (sizes_of job.now.layout.spaces) }
{
    assert!(rt; job.layout().has(cell));
    state.get(cell)
}

/// The messages and the parcels have to be as the two actors leave them.
fn are_left(rt: &impl Abort, state: &CoreState) {
    for at in 0..6 {
        let status = state.status(at as u32 + 1);
        assert!(rt; status == STATUSES[at], "place {at}: {status:?}");
    }
    assert!(rt; state.drawn() == 3);
    assert!(rt; !state.home(A0) && state.home(B0));
}

#[test]
fn messages_run_wait_and_are_held(rt: HostRuntime) {
    let job = first_job(&rt, rt.alloc());
    let state = run_events(rt.alloc(), &job, 2, &TWO_ACTORS).expect(&rt, "a state");
    are_left(&rt, &state);
    assert!(rt; number(&rt, &job, &state, F0) == 0);
    assert!(rt; number(&rt, &job, &state, G0) == 7);
    drop(state);
    drop(job);
}

/// Lists of events of two actors, each with what its last event is refused for.
const REFUSED: &[(&[Event], CoreError)] = &[
    (
        &[Event::Draw(1), Event::Draw(1)],
        CoreError::Busy { place: 2 },
    ),
    (&[Event::Begin(1)], CoreError::Nothing { place: 1 }),
    (
        &[
            Event::Draw(1),
            Event::Begin(1),
            Event::Draw(2),
            Event::Begin(2),
            Event::End(2),
            Event::Draw(2),
            Event::Begin(2),
            Event::End(2),
            Event::Draw(2),
            Event::Begin(2),
        ],
        CoreError::NotYet {
            place: 10,
            message: 1,
        },
    ),
];

/// The same of an order that is used up by the first draw, for one actor.
const USED_UP: &[(&[Event], CoreError)] = &[(
    &[Event::Draw(1), Event::Draw(1)],
    CoreError::Nothing { place: 2 },
)];

/// The same of actors that are none of two.
const NO_ACTORS: &[(&[Event], CoreError)] = &[
    (&[Event::Draw(0)], CoreError::Nothing { place: 1 }),
    (&[Event::Draw(3)], CoreError::Nothing { place: 1 }),
];

/// So many actors' events of the job have to be refused so.
fn are_refused(
    rt: &impl Abort,
    alloc: Global,
    job: &Job,
    seats: u32,
    lists: &[(&[Event], CoreError)],
)
    requires some { 1 ≤ seats }
    requires few { seats ≤ 16 }
{
    for (events, error) in lists {
        let refused = run_events(alloc, job, seats, events).err();
        assert!(rt; refused == Some(*error), "{events:?}: {refused:?}");
    }
}

#[test]
fn the_first_fault_is_named(rt: HostRuntime) {
    let job = first_job(&rt, rt.alloc());
    are_refused(&rt, rt.alloc(), &job, 2, REFUSED);
    drop(job);
}

#[test]
fn no_message_is_drawn_from_an_empty_order(rt: HostRuntime) {
    let job = job(&rt, rt.alloc(), H1, "message,cost,ops\n", &[]).expect(&rt, "a job");
    let once = run_events(rt.alloc(), &job, 1, &[Event::Draw(1)]).expect(&rt, "a state");
    assert!(rt; once.drawn() == 1);
    drop(once);
    are_refused(&rt, rt.alloc(), &job, 1, USED_UP);
    are_refused(&rt, rt.alloc(), &job, 2, NO_ACTORS);
    drop(job);
}
