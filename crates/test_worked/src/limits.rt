//! What limits a trace, whatever the order of service: its clients, what its messages await, and its data.

use std::alloc::Global;
use std::process::Abort;
use waff_assign::assign;
use waff_limits::data::most_used_cell;
use waff_model::Layout;
use waff_plan::lower_bound::longest_awaiting;
use waff_plan::unlimited::plan;
use waff_plan::{Awaited, Peak, Plan};
use waff_read::{read_hierarchy, read_trace};
use waff_samples::{H1, X1};

/// Messages of clients: `A` issues its first one at 7, and thinks for 10 ticks behind it.
const CLIENTS: &str = "message,cost,release,client,think,ops\n\
m1,4,1,A,7,set f:0 5\n\
m2,3,0,-,0,set g:0-3 7\n\
m3,2,0,A,10,read f:2-3\n\
m4,3,0,B,0,read f:2\n\
";

/// The same, where `m3` may not start before 23 for `m2`, and `m4` awaits `m3`.
const LISTS: &str = "message,cost,release,client,think,after,ops\n\
m1,4,1,A,7,,set f:0 5\n\
m2,3,0,-,0,,set g:0-3 7\n\
m3,2,0,A,10,2+20,read f:2-3\n\
m4,3,0,B,0,2 3,read f:2\n\
";

/// The finish of the message that is the last to finish where each waits for this alone has to be so many ticks,
/// first at this number.
fn is_longest(rt: &impl Abort, alloc: Global, plan: &Plan, awaited: Awaited, wanted: (u32, u64)) {
    let Peak { at, ticks } = longest_awaiting(alloc, plan, awaited).expect(rt, "a message");
    assert!(rt; (at, ticks) == wanted, "{ticks} at {at}");
}

/// The longest client, the longest by all that messages await, and the cell that is used most have to be these.
fn are_limits(
    rt: &impl Abort,
    alloc: Global,
    trace: &str,
    client: (u32, u64),
    every: (u32, u64),
    cell: Option<(u32, u32, u64)>,
) {
    let layout = read_hierarchy(alloc, H1.as_bytes()).expect(rt, "a hierarchy");
    let trace = read_trace(alloc, &layout, trace.as_bytes()).expect(rt, "a trace");
    let assigned = assign(alloc, &layout, &trace).expect(rt, "affinities");
    let plan = plan(alloc, layout.tree(), &assigned, &trace).expect(rt, "a plan");
    let used = most_used_cell(alloc, &trace).expect(rt, "a cell");
    let told = used.map(|used| (used.cell.space, used.cell.index, used.ticks));
    assert!(rt; told == cell);
    is_longest(rt, alloc, &plan, Awaited::Client, client);
    is_longest(rt, alloc, &plan, Awaited::Every, every);
    drop(plan);
    drop(assigned);
    drop(trace);
    drop(layout);
}

#[test]
fn of_the_sample(rt: HostRuntime) {
    are_limits(&rt, rt.alloc(), X1, (4, 5), (4, 5), Some((0, 0, 6)));
}

#[test]
fn of_clients_that_think(rt: HostRuntime) {
    are_limits(&rt, rt.alloc(), CLIENTS, (3, 23), (3, 23), Some((0, 2, 5)));
}

#[test]
fn of_messages_that_await(rt: HostRuntime) {
    are_limits(&rt, rt.alloc(), LISTS, (3, 23), (4, 28), Some((0, 2, 5)));
}

#[test]
fn of_no_message(rt: HostRuntime) {
    are_limits(&rt, rt.alloc(), "message,cost,ops\n", (0, 0), (0, 0), None);
}
