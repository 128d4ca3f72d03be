//! Traces accepted and refused under the hierarchical sample.

use crate::running::{is_told, unlimited};
use crate::same::is_same;
use std::alloc::{AllocError, Global};
use std::process::Abort;
use waff_model::{Cell, Layout, Message, Op, Version};
use waff_read::{read_hierarchy, read_trace};
use waff_samples::H1;

/// The trace has to be refused so, or to be read, which is told as None.
fn is_refused(rt: &impl Abort, alloc: Global, layout: &Layout, trace: &[u8], wanted: &str) {
    let refusal = read_trace(alloc, layout, trace).err();
    let told = format!(in alloc; "{refusal:?}").expect(rt, "words");
    is_same(rt, told.as_str(), wanted);
}

/// The layout of the hierarchical sample.
fn sample(rt: &impl Abort, alloc: Global) -> Layout {
    read_hierarchy(alloc, H1.as_bytes()).expect(rt, "a hierarchy")
}

/// Bytes that are refused by the first record with a fault, or read.
const BYTES: &[(&[u8], &str)] = &[
    (b"", "Some(Header { at: 1 })"),
    (b"\n\n", "Some(Header { at: 1 })"),
    (b"message,cost\n", "Some(Header { at: 1 })"),
    (b"message,cost,op", "Some(Header { at: 1 })"),
    (b"\xef\xbb\xbf", "Some(Header { at: 1 })"),
    (b"message,cost,ops", "None"),
    (b"\xef\xbb\xbfmessage,cost,release,ops\n\n", "None"),
    (
        b"message,cost,ops\nm,1,read f:0\nm,1,\xff",
        "Some(Csv { at: 3 })",
    ),
    (
        b"message,cost,ops\nm\xff,1,read f:0\n",
        "Some(Csv { at: 2 })",
    ),
    (b"message,cost,ops\nm,1", "Some(Fields { at: 2 })"),
    (
        b"message,cost,release,ops\nm,1,read f:0",
        "Some(Fields { at: 2 })",
    ),
    (b"message,cost,ops\nm 1,0,", "Some(Name { at: 2 })"),
    (b"message,cost,ops\nm,01,", "Some(Cost { at: 2 })"),
    (b"message,cost,ops\nm,0,", "Some(Cost { at: 2 })"),
    (b"message,cost,ops\nm,1000001,", "Some(Cost { at: 2 })"),
    (
        b"message,cost,release,ops\nm,1,1000000001,",
        "Some(NoOps { at: 2 })",
    ),
    (
        b"message,cost,release,ops\nm,1,1000000001,read f:0",
        "Some(Release { at: 2 })",
    ),
    (
        b"message,cost,release,ops\nm,1,01,read f:0",
        "Some(Release { at: 2 })",
    ),
    (
        b"message,cost,release,ops\nm,1,01,read f:8",
        "Some(IndexTooLarge { at: 2 })",
    ),
    (
        b"message,cost,ops\nm,1,\"read\nf:0\"\n",
        "Some(Op { at: 2 })",
    ),
];

#[test]
fn are_refused_by_the_first_record_with_a_fault(rt: HostRuntime) {
    let layout = sample(&rt, rt.alloc());
    for (bytes, wanted) in BYTES {
        is_refused(&rt, rt.alloc(), &layout, bytes, wanted);
    }
    drop(layout);
}

/// Operations of a message, and how they are refused, or read.
const OPS: &[(&str, &str)] = &[
    ("", "Some(NoOps { at: 2 })"),
    ("read f:0;", "Some(Op { at: 2 })"),
    ("read  f:0", "Some(Op { at: 2 })"),
    ("read f:0 f:1", "Some(Op { at: 2 })"),
    ("copy f:0 f:1 f:2", "Some(Op { at: 2 })"),
    ("read", "Some(Op { at: 2 })"),
    ("Read f:0", "Some(Op { at: 2 })"),
    ("read f", "Some(Op { at: 2 })"),
    ("read f:", "Some(Op { at: 2 })"),
    ("read :0", "Some(Op { at: 2 })"),
    ("read f:0:0", "Some(Op { at: 2 })"),
    ("read f:00", "Some(Op { at: 2 })"),
    ("set f:0", "Some(Op { at: 2 })"),
    ("set f:0 01", "Some(Op { at: 2 })"),
    ("set f:0 18446744073709551616", "Some(Op { at: 2 })"),
    ("set f:0 18446744073709551615", "None"),
    ("set h:0 x", "Some(Op { at: 2 })"),
    ("read f:99;read h:0;add f:0", "Some(Op { at: 2 })"),
    ("read f:99;read h:0", "Some(SpaceUnknown { at: 2 })"),
    ("copy f:8 h:0", "Some(SpaceUnknown { at: 2 })"),
    ("read h:0", "Some(SpaceUnknown { at: 2 })"),
    ("read m:2", "Some(IndexTooLarge { at: 2 })"),
    ("read f:8", "Some(IndexTooLarge { at: 2 })"),
    (
        "read f:18446744073709551616",
        "Some(IndexTooLarge { at: 2 })",
    ),
    (
        "read f:99999999999999999999999",
        "Some(IndexTooLarge { at: 2 })",
    ),
];

fn are_refused(rt: &impl Abort, alloc: Global, layout: &Layout, ops: &str, wanted: &str) {
    let trace = format!(in alloc; "message,cost,ops\nm,1,{ops}").expect(rt, "a text");
    is_refused(rt, alloc, layout, trace.as_bytes(), wanted);
}

#[test]
fn are_refused_for_an_operation(rt: HostRuntime) {
    let layout = sample(&rt, rt.alloc());
    for (ops, wanted) in OPS {
        are_refused(&rt, rt.alloc(), &layout, ops, wanted);
    }
    drop(layout);
}

/// So many operations, each of the last cell that stands here.
fn operations(alloc: Global, count: u32, last: &str) -> Result<String, AllocError> {
    let mut ops = String::new(alloc);
    for _ in 1..count {
        ops.push_str("read f:0;")?;
    }
    ops.push_str(last)?;
    Ok(ops)
}

/// How many operations there are, the last of them, and how they are refused, or read.
const COUNTS: &[(u32, &str, &str)] = &[
    (32, "read f:0", "None"),
    (33, "read f:0", "Some(TooManyOps { at: 2 })"),
    (33, "read f:8", "Some(IndexTooLarge { at: 2 })"),
];

#[test]
fn are_refused_for_too_many_operations_last(rt: HostRuntime) {
    let layout = sample(&rt, rt.alloc());
    for (count, last, wanted) in COUNTS {
        let ops = operations(rt.alloc(), *count, last).expect(&rt, "operations");
        are_refused(&rt, rt.alloc(), &layout, ops.as_str(), wanted);
    }
    drop(layout);
}

/// Traces of one message, and what is told of them.
const ACCEPTED: &[(&str, &str)] = &[
    (
        "message,cost,ops\nm1,1000000,read f:0",
        "affinities A0 starts 0 length 1000000 total 1000000 chain 1 cost 1000000 release 0",
    ),
    (
        "message,cost,ops\nm1,1,read f:7",
        "affinities A1 starts 0 length 1 total 1 chain 1 cost 1 release 0",
    ),
    (
        "message,cost,release,ops\nm1,1,1000000000,read f:0",
        "affinities A0 starts 1000000000 length 1000000001 total 1 chain 1 cost 1 release 1000000000",
    ),
    (
        "message,cost,ops\r\n\"m1\",1,\"read f:0\"\r\n",
        "affinities A0 starts 0 length 1 total 1 chain 1 cost 1 release 0",
    ),
];

#[test]
fn of_one_message_are_accepted(rt: HostRuntime) {
    for (trace, wanted) in ACCEPTED {
        is_told(&rt, rt.alloc(), H1, trace, wanted);
    }
}

/// A trace of so many messages of one cell.
fn readers(alloc: Global, count: u32) -> Result<String, AllocError> {
    let mut trace = String::from_str(alloc, "message,cost,ops\n")?;
    for _ in 0..count {
        trace.push_str("m,1,read f:0\n")?;
    }
    Ok(trace)
}

#[test]
fn have_the_messages_of_the_limit(rt: HostRuntime) {
    let trace = readers(rt.alloc(), 65536).expect(&rt, "a text");
    let told = unlimited(&rt, rt.alloc(), H1, trace.as_str());
    assert!(rt; told.as_str().contains(" length 65536 "));
}

#[test]
fn have_no_more_messages(rt: HostRuntime) {
    let layout = sample(&rt, rt.alloc());
    let trace = readers(rt.alloc(), 65537).expect(&rt, "a text");
    let wanted = "Some(TooManyMessages { at: 65538 })";
    is_refused(&rt, rt.alloc(), &layout, trace.as_bytes(), wanted);
    drop(layout);
}

const F0: Cell = Cell { space: 0, index: 0 };

const F7: Cell = Cell { space: 0, index: 7 };

const G3: Cell = Cell { space: 2, index: 3 };

/// The message has to have this name, these times and these operations.
fn is_message(rt: &impl Abort, message: &Message, name: &str, times: (u32, u32), ops: &[Op]) {
    is_same(rt, message.name.as_str(), name);
    let found = (message.cost, message.release);
    assert!(rt; found == times, "{name}: {found:?}");
    assert!(rt; message.ops.len() == ops.len());
    for place in 0..ops.len() {
        assert!(rt; message.ops.get(place) == ops[place], "{name}: {place}");
    }
}

#[test]
fn are_read_in_the_first_version(rt: HostRuntime) {
    let layout = sample(&rt, rt.alloc());
    let text = b"\xef\xbb\xbfmessage,cost,ops\r\n\r\n\"m1\",4,set f:0 5;read g:3\n\
        m.2,1000000,copy f:7 g:3";
    let trace = read_trace(rt.alloc(), &layout, text).expect(&rt, "a trace");
    assert!(rt; trace.version() == Version::V1);
    assert!(rt; trace.len() == 2);
    let (cell, source) = (F7, G3);
    let first = [Op::Set { cell: F0, value: 5 }, Op::Read { cell: G3 }];
    is_message(&rt, trace.message(1), "m1", (4, 0), &first);
    is_message(
        &rt,
        trace.message(2),
        "m.2",
        (1000000, 0),
        &[Op::Copy { cell, source }],
    );
    drop(trace);
    drop(layout);
}

#[test]
fn are_read_in_the_second_version(rt: HostRuntime) {
    let layout = sample(&rt, rt.alloc());
    let text =
        b"message,cost,release,ops\nm,3,1000000000,swap f:7 f:7;add g:3 18446744073709551615\n";
    let trace = read_trace(rt.alloc(), &layout, text).expect(&rt, "a trace");
    assert!(rt; trace.version() == Version::V2);
    assert!(rt; trace.len() == 1);
    let (cell, other) = (F7, F7);
    let value = u64::MAX;
    let ops = [Op::Swap { cell, other }, Op::Add { cell: G3, value }];
    is_message(&rt, trace.message(1), "m", (3, 1000000000), &ops);
    drop(trace);
    drop(layout);
}
