//! Replays of traces on threads, under the hierarchical sample.

ghost use Rattle.std.specs.Prelude.{◌<◌, ◌≤◌};

use crate::jobs::{count_to, job};
use crate::states::is_left;
use std::alloc::{AllocError, Global};
use std::hint::spin_loop;
use std::process::Abort;
use std::sync::Wait;
use std::sync::atomic::{AtomicBool, AtomicU64, Ordering};
use std::thread::Threads;
use waff_board::Grant;
use waff_read::read_hierarchy;
use waff_replay::{Gate, Open, replay};
use waff_samples::{H1, X1, X2};

/// A trace under a hierarchy, how many messages it has, and the cells that are not 0 after it, each
/// with its number.
#[derive(Drop)]
struct Case<'a> {
    hierarchy: &'a str,
    trace: &'a str,
    messages: u32,
    wanted: &'a str,
}

/// A replay of the trace has to leave these cells.
fn leaves<R: Threads + Wait + Abort + Sync, G: Gate>(
    rt: &R,
    alloc: Global,
    case: &Case<'_>,
    workers: u32,
    gate: &G,
)
    requires short { case.now.messages < 1_000_000 }
    requires some { 1 ≤ workers }
    requires few { workers ≤ 16 }
{
    let shown = read_hierarchy(alloc, case.hierarchy.as_bytes()).expect(rt, "a hierarchy");
    let order = count_to(alloc, case.messages).expect(rt, "an order");
    let job = job(rt, alloc, case.hierarchy, case.trace, &order).expect(rt, "a job");
    drop(order);
    assert!(rt; shown.same_spaces(job.layout()));
    let state = replay(rt, alloc, job, workers, gate).expect(rt, "a state");
    is_left(rt, alloc, &shown, &state, case.wanted);
    drop(state);
    drop(shown);
}

const FIRST: Case<'static> = Case {
    hierarchy: H1,
    trace: X1,
    messages: 6,
    wanted: "f:0 5, f:2 7, f:4 1, g:0 5, g:4 1",
};

const SECOND: Case<'static> = Case {
    hierarchy: H1,
    trace: X2,
    messages: 5,
    wanted: "f:0 5, f:2 7, g:0 5, g:4 1",
};

#[test]
fn of_the_samples(rt: HostRuntime) {
    for run in 0..1000u32 {
        leaves(&rt, rt.alloc(), &FIRST, 1 + run % 16, &Open);
    }
    leaves(&rt, rt.alloc(), &SECOND, 2, &Open);
}

/// A gate that marks which of the messages 1 to 16 come.
#[derive(Drop)]
struct Tally {
    /// A bit for each message, that of the first the lowest.
    came: AtomicU64,
    /// Whether a message came that is marked already, or has no mark.
    again: AtomicBool,
}

impl Tally {
    /// None has come yet.
    fn new() -> Self {
        Tally {
            came: AtomicU64::new(0),
            again: AtomicBool::new(false),
        }
    }

    /// Whether each of so many messages, 16 or fewer, has come once, and no other.
    fn is_once_each(&self, messages: u32) -> bool {
        self.came.load(Ordering::SeqCst) == marks(messages) && !self.again.load(Ordering::SeqCst)
    }
}

impl Gate for Tally {
    fn before(&self, grant: &Grant<'_>) {
        let mark = mark(grant.message());
        if mark == 0 || self.came.fetch_or(mark, Ordering::SeqCst) & mark != 0 {
            self.again.store(true, Ordering::SeqCst);
        }
    }
}

/// The bit of the message.
fn mark(message: u32) -> u64 {
    match message {
        1..=16 => 1 << (message - 1),
        _ => 0,
    }
}

/// The bits of so many messages, 16 or fewer.
fn marks(messages: u32) -> u64 {
    (1..messages.min(16) + 1).fold(0, |sum, message| sum | mark(message))
}

#[test]
fn each_message_passes_the_gate_once(rt: HostRuntime) {
    for workers in [1, 2, 3, 16] {
        let tally = Tally::new();
        leaves(&rt, rt.alloc(), &FIRST, workers, &tally);
        assert!(rt; tally.is_once_each(6), "{workers} workers");
    }
}

/// As many turns as a message waits for the others.
const TURNS: u32 = 100_000_000;

/// As many turns as a message stays inside a gate: longer than threads take to start, or to fall asleep.
const STAY: u32 = 1_000_000;

/// Stays for a while.
fn stay() {
    for _ in 0..STAY {
        spin_loop();
    }
}

/// A gate at which messages wait until all have come. Those before the first that waits stay for a
/// while, and then pass.
#[derive(Drop)]
struct Meeting {
    tally: Tally,
    first: u32,
    messages: u32,
    missed: AtomicBool,
}

impl Gate for Meeting {
    fn before(&self, grant: &Grant<'_>) {
        self.tally.before(grant);
        if grant.message() < self.first {
            return stay();
        }
        for _ in 0..TURNS {
            if self.tally.is_once_each(self.messages) || self.missed.load(Ordering::SeqCst) {
                return;
            }
            spin_loop();
        }
        self.missed.store(true, Ordering::SeqCst);
    }
}

/// Messages 1 and 2 exclude nobody.
const TWO: Case<'static> = Case {
    hierarchy: H1,
    trace: "message,cost,ops\nm1,1,set f:0 1\nm2,1,set g:0 1\n",
    messages: 2,
    wanted: "f:0 1, g:0 1",
};

/// Messages 1, 2 and 3 exclude nobody.
const THREE: Case<'static> = Case {
    hierarchy: H1,
    trace: "message,cost,ops\nm1,1,set f:0 1\nm2,1,set g:0 1\nm3,1,set f:2 1\n",
    messages: 3,
    wanted: "f:0 1, f:2 1, g:0 1",
};

/// Sixteen messages that exclude nobody.
const SIXTEEN: Case<'static> = Case {
    hierarchy: WIDE,
    trace: "message,cost,ops\n\
        m,1,add f:0 1\nm,1,add f:1 2\nm,1,add f:2 3\nm,1,add f:3 4\n\
        m,1,add f:4 5\nm,1,add f:5 6\nm,1,add f:6 7\nm,1,add f:7 8\n\
        m,1,add f:8 9\nm,1,add f:9 10\nm,1,add f:10 11\nm,1,add f:11 12\n\
        m,1,add f:12 13\nm,1,add f:13 14\nm,1,add f:14 15\nm,1,add f:15 16\n",
    messages: 16,
    wanted: "f:0 1, f:1 2, f:2 3, f:3 4, f:4 5, f:5 6, f:6 7, f:7 8, \
        f:8 9, f:9 10, f:10 11, f:11 12, f:12 13, f:13 14, f:14 15, f:15 16",
};

/// Sixteen affinities below one root, and a space with a cell for each.
const WIDE: &str = "model = \"hierarchical\"\n\
[[space]]\nname = \"f\"\nsize = 16\n\
[[affinity]]\nname = \"Serial\"\n\
[[affinity]]\nname = \"W0\"\nparent = \"Serial\"\n\
[[affinity]]\nname = \"W1\"\nparent = \"Serial\"\n\
[[affinity]]\nname = \"W2\"\nparent = \"Serial\"\n\
[[affinity]]\nname = \"W3\"\nparent = \"Serial\"\n\
[[affinity]]\nname = \"W4\"\nparent = \"Serial\"\n\
[[affinity]]\nname = \"W5\"\nparent = \"Serial\"\n\
[[affinity]]\nname = \"W6\"\nparent = \"Serial\"\n\
[[affinity]]\nname = \"W7\"\nparent = \"Serial\"\n\
[[affinity]]\nname = \"W8\"\nparent = \"Serial\"\n\
[[affinity]]\nname = \"W9\"\nparent = \"Serial\"\n\
[[affinity]]\nname = \"W10\"\nparent = \"Serial\"\n\
[[affinity]]\nname = \"W11\"\nparent = \"Serial\"\n\
[[affinity]]\nname = \"W12\"\nparent = \"Serial\"\n\
[[affinity]]\nname = \"W13\"\nparent = \"Serial\"\n\
[[affinity]]\nname = \"W14\"\nparent = \"Serial\"\n\
[[affinity]]\nname = \"W15\"\nparent = \"Serial\"\n\
[[map]]\nspace = \"f\"\nunit = 1\n\
to = [\"W0\", \"W1\", \"W2\", \"W3\", \"W4\", \"W5\", \"W6\", \"W7\", \
\"W8\", \"W9\", \"W10\", \"W11\", \"W12\", \"W13\", \"W14\", \"W15\"]\n\
";

/// So many workers hold a grant each until the last message has come: those of the messages from the
/// first that waits on. A replay in which fewer work misses.
fn all_meet<R: Threads + Wait + Abort + Sync>(
    rt: &R,
    alloc: Global,
    case: &Case<'_>,
    first: u32,
    workers: u32,
)
    requires short { case.now.messages < 1_000_000 }
    requires some { 1 ≤ workers }
    requires few { workers ≤ 16 }
{
    let meeting = Meeting {
        tally: Tally::new(),
        first,
        messages: case.messages,
        missed: AtomicBool::new(false),
    };
    leaves(rt, alloc, case, workers, &meeting);
    assert!(rt;
        meeting.tally.is_once_each(case.messages),
        "{} come",
        case.messages
    );
    assert!(rt;
        !meeting.missed.load(Ordering::SeqCst),
        "{} missed",
        case.messages
    );
}

#[test]
fn as_many_workers_as_messages_hold_grants_at_once(rt: HostRuntime) {
    all_meet(&rt, rt.alloc(), &TWO, 1, 2);
    all_meet(&rt, rt.alloc(), &THREE, 1, 3);
    all_meet(&rt, rt.alloc(), &SIXTEEN, 1, 16);
}

/// Messages 1 and 4 exclude all others. Messages 2 and 3 exclude none of each other, nor do 5 and 6.
const TWICE: Case<'static> = Case {
    hierarchy: H1,
    trace: "message,cost,ops\n\
        root,1,add f:0 1;add g:0 1\na,1,add f:0 1\nb,1,add g:0 1\n\
        root,1,add f:0 1;add g:0 1\na,1,add f:0 1\nb,1,add g:0 1\n",
    messages: 6,
    wanted: "f:0 4, g:0 4",
};

/// Of two workers one falls asleep while message 4 stays at the gate, and has to come back for message 5
/// or 6. It may be asleep by chance alone, so there are some replays.
#[test]
fn a_worker_that_slept_comes_back(rt: HostRuntime) {
    for _ in 0..5 {
        all_meet(&rt, rt.alloc(), &TWICE, 5, 2);
    }
}

/// A gate that counts the messages that are inside it at once.
#[derive(Drop)]
struct Room {
    inside: AtomicU64,
    /// As many as were inside at most.
    most: AtomicU64,
}

impl Gate for Room {
    fn before(&self, _grant: &Grant<'_>) {
        let inside = self.inside.fetch_add(1, Ordering::SeqCst).saturating_add(1);
        self.most.fetch_max(inside, Ordering::SeqCst);
        stay();
        self.inside.fetch_sub(1, Ordering::SeqCst);
    }
}

#[test]
fn no_more_workers_than_asked_for_hold_grants_at_once(rt: HostRuntime) {
    for workers in [1, 2] {
        let room = Room {
            inside: AtomicU64::new(0),
            most: AtomicU64::new(0),
        };
        leaves(&rt, rt.alloc(), &THREE, workers, &room);
        let most = room.most.load(Ordering::SeqCst);
        assert!(rt; most <= u64::from(workers), "{workers} workers: {most}");
    }
}

/// A trace of so many additions to one cell.
fn additions(alloc: Global, count: u32) -> Result<String, AllocError> {
    let mut trace = String::from_str(alloc, "message,cost,ops\n")?;
    for _ in 0..count {
        trace.push_str("m,1,add f:0 1\n")?;
    }
    Ok(trace)
}

#[test]
fn of_a_chain_of_messages(rt: HostRuntime) {
    let trace = additions(rt.alloc(), 65536).expect(&rt, "a trace");
    let chain = Case {
        hierarchy: H1,
        trace: trace.as_str(),
        messages: 65536,
        wanted: "f:0 65536",
    };
    leaves(&rt, rt.alloc(), &chain, 2, &Open);
}

/// A gate at which messages stay for some turns, more or less from message to message and from replay
/// to replay.
#[derive(Drop)]
struct Stays {
    replay: u32,
}

impl Gate for Stays {
    fn before(&self, grant: &Grant<'_>) {
        let mixed = (self.replay ^ grant.message()).wrapping_mul(0x9e37_79b1);
        for _ in 0..mixed >> 20 {
            spin_loop();
        }
    }
}

/// As many replays as there are of each trace whose messages stay at a gate. One in which a worker is
/// never woken does not end.
const STAYS: u32 = 60;

#[test]
fn of_messages_that_stay_at_a_gate(rt: HostRuntime) {
    let trace = additions(rt.alloc(), 12).expect(&rt, "a trace");
    let chain = Case {
        hierarchy: H1,
        trace: trace.as_str(),
        messages: 12,
        wanted: "f:0 12",
    };
    for replay in 0..STAYS {
        let stays = Stays { replay };
        let workers = [2, 3, 4, 16][replay as usize % 4];
        leaves(&rt, rt.alloc(), &chain, workers, &stays);
        leaves(&rt, rt.alloc(), &FIRST, workers, &stays);
    }
}
