//! Long traces, which several threads read and assign.

use std::alloc::{AllocError, Global};
use std::process::Abort;
use std::thread::Threads;
use waff_assign::{Assigned, LockUse, assign_by_threads};
use waff_model::{Await, Cell, Layout, Op, Trace, Tree, Version};
use waff_read::{TraceError, read_hierarchy, read_trace_by_threads};
use waff_samples::H1;

/// A space of eight cells, whose locks readers share.
const SHARED: &str = "format = 3\n\
model = \"hierarchical\"\n\
[[space]]\n\
name = \"f\"\n\
size = 8\n\
locks = \"shared\"\n\
[[affinity]]\n\
name = \"Serial\"\n\
[[map]]\n\
space = \"f\"\n\
unit = 8\n\
to = [\"Serial\"]\n\
";

/// A trace of so many messages, of which message `n` has the cost `n`, and reads cell `n % 8` of the
/// first space.
fn readers(alloc: Global, count: u32) -> Result<String, AllocError> {
    let mut trace = String::from_str(alloc, "message,cost,ops\n")?;
    for before in 0..count {
        let n = before + 1;
        let index = n % 8;
        writeln!(trace, "m,{n},read f:{index}")?;
    }
    Ok(trace)
}

/// Message `n` has to be as `readers` writes it.
fn is_reader(rt: &impl Abort, trace: &Trace, n: u32) {
    assert!(rt; 1 <= n && n <= trace.len(), "{n}");
    let message = trace.message(n);
    assert!(rt; message.name.as_str() == "m" && message.cost == n, "{n}");
    let cell = Cell {
        space: 0,
        index: n % 8,
    };
    assert!(rt; message.ops.get(0) == Op::Read { cell }, "{n}");
}

#[test]
fn have_their_messages_in_order(rt: HostRuntime) {
    let layout = read_hierarchy(rt.alloc(), H1.as_bytes()).expect(&rt, "a hierarchy");
    let text = readers(rt.alloc(), 65536).expect(&rt, "a text");
    let trace = read_trace_by_threads(&rt, rt.alloc(), &layout, Version::V3, text.as_bytes());
    let trace = trace.expect(&rt, "a trace");
    assert!(rt; trace.len() == 65536);
    for n in 1..65537 {
        is_reader(&rt, &trace, n);
    }
    drop(trace);
    drop(layout);
}

/// Message `n` has to be assigned the owner of its cell: `A0` and `A1` take turns, two cells each.
fn is_assigned(rt: &impl Abort, tree: &Tree, assigned: &Assigned, n: u32) {
    assert!(rt; 1 <= n && n <= assigned.len(), "{n}");
    let affinity = assigned.affinity(n).expect(rt, "an affinity");
    assert!(rt; u32::from(affinity.0) < tree.len(), "{n}");
    let wanted = if n % 4 < 2 { "A0" } else { "A1" };
    assert!(rt; tree.name(affinity) == wanted, "{n}");
}

#[test]
fn have_the_owners_of_their_cells(rt: HostRuntime) {
    let layout = read_hierarchy(rt.alloc(), H1.as_bytes()).expect(&rt, "a hierarchy");
    let text = readers(rt.alloc(), 65536).expect(&rt, "a text");
    let trace = read_trace_by_threads(&rt, rt.alloc(), &layout, Version::V3, text.as_bytes());
    let trace = trace.expect(&rt, "a trace");
    let assigned = assign_by_threads(&rt, rt.alloc(), &layout, &trace).expect(&rt, "affinities");
    assert!(rt; assigned.len() == 65536);
    for n in 1..65537 {
        is_assigned(&rt, layout.tree(), &assigned, n);
    }
    drop(assigned);
    drop(trace);
    drop(layout);
}

/// Message `n` has to share the lock of its cell, and to hold nothing else.
fn is_sharing(rt: &impl Abort, assigned: &Assigned, n: u32) {
    assert!(rt; 1 <= n && n <= assigned.len(), "{n}");
    let uses = assigned.uses(n);
    assert!(rt; assigned.affinity(n).is_none() && uses.len() == 1, "{n}");
    let wanted = LockUse {
        lock: n % 8,
        alone: false,
    };
    assert!(rt; uses[0] == wanted, "{n}");
}

// The parts of so many messages begin at other cells.
#[test]
fn share_the_locks_of_their_cells(rt: HostRuntime) {
    let layout = read_hierarchy(rt.alloc(), SHARED.as_bytes()).expect(&rt, "a hierarchy");
    let text = readers(rt.alloc(), 65533).expect(&rt, "a text");
    let trace = read_trace_by_threads(&rt, rt.alloc(), &layout, Version::V3, text.as_bytes());
    let trace = trace.expect(&rt, "a trace");
    let assigned = assign_by_threads(&rt, rt.alloc(), &layout, &trace).expect(&rt, "locks");
    assert!(rt; assigned.len() == 65533);
    for n in 1..65534 {
        is_sharing(&rt, &assigned, n);
    }
    drop(assigned);
    drop(trace);
    drop(layout);
}

/// The same with lists: each message but the first awaits the one before it. Behind one of them
/// stands a blank line, behind none where its number is 0.
fn listed(alloc: Global, count: u32, blank: u32) -> Result<String, AllocError> {
    let mut trace = String::from_str(alloc, "message,cost,release,client,think,after,ops\n")?;
    trace.push_str("m,1,0,-,0,,read f:1\n")?;
    for before in 1..count {
        let n = before + 1;
        let index = n % 8;
        writeln!(trace, "m,{n},0,-,0,{before},read f:{index}")?;
        if n == blank {
            trace.push_str("\n")?;
        }
    }
    Ok(trace)
}

/// The text has to be read as `listed` writes it.
fn is_listed<R: Abort + Threads + Sync>(
    rt: &R,
    alloc: Global,
    layout: &Layout,
    text: &str,
    count: u32,
) {
    let trace = read_trace_by_threads(rt, alloc, layout, Version::V4, text.as_bytes());
    let trace = trace.expect(rt, "a trace");
    assert!(rt; trace.len() == count);
    for n in 1..count {
        is_reader(rt, &trace, n + 1);
        assert!(rt; n + 1 <= trace.len());
        let list = trace.message(n + 1).after.as_slice();
        let before = Await { message: n, gap: 0 };
        assert!(rt; list.len() == 1 && list[0] == before, "{n}");
    }
    drop(trace);
}

#[test]
fn have_their_lists(rt: HostRuntime) {
    let layout = read_hierarchy(rt.alloc(), H1.as_bytes()).expect(&rt, "a hierarchy");
    let text = listed(rt.alloc(), 40000, 0).expect(&rt, "a text");
    is_listed(&rt, rt.alloc(), &layout, text.as_str(), 40000);
    drop(layout);
}

#[test]
fn may_have_lists_behind_a_blank_line(rt: HostRuntime) {
    let layout = read_hierarchy(rt.alloc(), H1.as_bytes()).expect(&rt, "a hierarchy");
    let text = listed(rt.alloc(), 40000, 100).expect(&rt, "a text");
    is_listed(&rt, rt.alloc(), &layout, text.as_str(), 40000);
    drop(layout);
}

#[test]
fn are_refused_for_a_list_of_themselves(rt: HostRuntime) {
    let layout = read_hierarchy(rt.alloc(), H1.as_bytes()).expect(&rt, "a hierarchy");
    let mut text = listed(rt.alloc(), 40000, 0).expect(&rt, "a text");
    text.push_str("m,1,0,-,0,40001,read f:0\n")
        .expect(&rt, "a text");
    let error = TraceError::After { at: 40002 };
    is_refused(&rt, rt.alloc(), &layout, text.as_str(), error);
    drop(layout);
}

/// The text has to be refused so.
fn is_refused<R: Abort + Threads + Sync>(
    rt: &R,
    alloc: Global,
    layout: &Layout,
    text: &str,
    error: TraceError,
) {
    let refused = read_trace_by_threads(rt, alloc, layout, Version::V4, text.as_bytes()).err();
    assert!(rt; refused == Some(error), "{error:?}: {refused:?}");
}

#[test]
fn are_refused_for_the_first_fault(rt: HostRuntime) {
    let layout = read_hierarchy(rt.alloc(), H1.as_bytes()).expect(&rt, "a hierarchy");
    let many = readers(rt.alloc(), 65537).expect(&rt, "a text");
    let error = TraceError::TooManyMessages { at: 65538 };
    is_refused(&rt, rt.alloc(), &layout, many.as_str(), error);
    let mut text = readers(rt.alloc(), 40000).expect(&rt, "a text");
    text.push_str("m,0,read f:0\nm,1,read f\n")
        .expect(&rt, "a text");
    let error = TraceError::Cost { at: 40002 };
    is_refused(&rt, rt.alloc(), &layout, text.as_str(), error);
    drop(layout);
}

#[test]
fn may_end_their_records_otherwise(rt: HostRuntime) {
    let layout = read_hierarchy(rt.alloc(), H1.as_bytes()).expect(&rt, "a hierarchy");
    let mut text = readers(rt.alloc(), 40000).expect(&rt, "a text");
    text.push_str("m,40001,read f:1\r\n\nm,40002,read f:2\rm,40003,read f:3")
        .expect(&rt, "a text");
    let trace = read_trace_by_threads(&rt, rt.alloc(), &layout, Version::V3, text.as_bytes());
    let trace = trace.expect(&rt, "a trace");
    assert!(rt; trace.len() == 40003);
    for n in 1..40004 {
        is_reader(&rt, &trace, n);
    }
    drop(trace);
    drop(layout);
}

#[test]
fn may_have_quotes(rt: HostRuntime) {
    let layout = read_hierarchy(rt.alloc(), H1.as_bytes()).expect(&rt, "a hierarchy");
    let mut text = readers(rt.alloc(), 40000).expect(&rt, "a text");
    text.push_str("m,40001,\"read f:1\"\n")
        .expect(&rt, "a text");
    let trace = read_trace_by_threads(&rt, rt.alloc(), &layout, Version::V3, text.as_bytes());
    let trace = trace.expect(&rt, "a trace");
    assert!(rt; trace.len() == 40001);
    is_reader(&rt, &trace, 40001);
    drop(trace);
    drop(layout);
}
