//! A run whose events are told by hand, with ticks of a nanosecond.

use std::alloc::Global;
use std::process::Abort;
use waff_inputs::{Accepted, accept};
use waff_line::{Ended, Line, Turn};

const HIERARCHY: &str = "\
model = \"hierarchical\"
affinity = [{ name = \"A\" }, { name = \"B\", parent = \"A\" }, { name = \"C\", parent = \"A\" }]
space = [{ name = \"s\", size = 16 }]
map = [{ space = \"s\", unit = 2, to = [\"B\", \"C\"] }]
";

const TRACE: &str = "\
message,cost,release,client,think,ops
one,500,0,x,0,set s:0-1 7
two,500,0,x,3,read s:0;read s:2
three,500,0,y,2,add s:2 1
";

/// How a message ends.
fn ended(rt: &impl Abort, line: &mut Line<'_>, message: u32, tick: u64) -> Ended {
    line.end(message, tick).expect(rt, "memory")
}

/// Messages 1 and 3 are issued, and begin.
fn begin_first(rt: &impl Abort, line: &mut Line<'_>) {
    // Message 1 is issued at 0, and joins when that tick is over.
    assert_eq!(rt; line.begin(1).ok(), Some(None));
    line.tell(1);
    assert_eq!(rt; line.begin(1).ok(), Some(Some(1)));
    line.tell(3);
    // The first worker is not free.
    assert_eq!(rt; line.begin(1).ok(), Some(None));
    assert_eq!(rt; line.begin(2).ok(), Some(Some(3)));
}

/// Message 1 ends, and message 2 is issued, which waits for message 3.
fn wait_for_third(rt: &impl Abort, line: &mut Line<'_>) {
    assert_eq!(rt; ended(rt, line, 1, 6), Ended::Well);
    line.tell(9);
    assert_eq!(rt; line.begin(1).ok(), Some(None));
    assert_eq!(rt; line.next(), 10);
    line.tell(10);
    assert_eq!(rt; line.begin(1).ok(), Some(None));
    assert_eq!(rt; line.next(), u64::MAX);
}

/// Message 3 ends, and message 2 begins and ends.
fn end_all(rt: &impl Abort, line: &mut Line<'_>) {
    assert_eq!(rt; ended(rt, line, 3, 12), Ended::Well);
    assert_eq!(rt; line.begin(1).ok(), Some(Some(2)));
    // It takes a tick.
    assert_eq!(rt; ended(rt, line, 2, 12), Ended::Well);
    assert_eq!(rt; line.waiting(), 0);
}

/// The files of the run, which have to be accepted.
fn accepted(rt: &impl Abort, alloc: Global, trace: &str) -> Accepted {
    accept(alloc, HIERARCHY.as_bytes(), trace.as_bytes()).expect(rt, "files")
}

/// Whether a message began and finished at these times, on this worker.
fn has_turn(turns: &[Turn], at: usize, start: u64, finish: u64, worker: u32) -> bool {
    match turns.get(at) {
        Some(turn) => turn.start == start && turn.finish == finish && turn.worker == worker,
        None => false,
    }
}

/// Messages 1, 3 and 2 run from 1 to 6, 3 to 12 and 12 to 13. Message 2 is issued at 9, and waits for message 3.
#[test]
fn notes_a_run(rt: HostRuntime) {
    let accepted = accepted(&rt, rt.alloc(), TRACE);
    let mut line = Line::of(rt.alloc(), accepted.case(), 2, 1).expect(&rt, "memory");
    begin_first(&rt, &mut line);
    wait_for_third(&rt, &mut line);
    end_all(&rt, &mut line);
    let turns = line.turns();
    assert!(rt; has_turn(turns, 0, 1, 6, 1));
    assert!(rt; has_turn(turns, 1, 12, 13, 1));
    assert!(rt; has_turn(turns, 2, 3, 12, 2));
}

#[test]
fn ends_where_a_message_runs_too_long(rt: HostRuntime) {
    let accepted = accepted(&rt, rt.alloc(), TRACE);
    let mut line = Line::of(rt.alloc(), accepted.case(), 1, 1).expect(&rt, "memory");
    line.tell(1);
    assert_eq!(rt; line.begin(1).ok(), Some(Some(1)));
    assert_eq!(rt; ended(&rt, &mut line, 1, 1_000_002), Ended::TooLong);
    assert!(rt; line.begin(1).is_err());
}
