//! Traces of the third version: clients, think times, ranges and larger limits.

use crate::same::is_same;
use std::alloc::Global;
use std::process::Abort;
use waff_model::{Cell, Layout, Op, Version};
use waff_read::{read_hierarchy, read_trace, read_trace_up_to};

/// A hierarchy of one affinity, with a space of 8 cells and one of 2,048.
const LARGE: &str = "model = 'hierarchical'\n\
    affinity = [{ name = 'all' }]\n\
    space = [{ name = 'f', size = 8 }, { name = 'd', size = 2048 }]\n\
    map = [{ space = 'f', unit = 1, to = ['all'] }, { space = 'd', unit = 1, to = ['all'] }]\n";

/// The header of the third version.
const HEADER: &str = "message,cost,release,client,think,ops\n";

/// The trace has to be refused so, or to be read, which is told as None.
fn is_refused(
    rt: &impl Abort,
    alloc: Global,
    layout: &Layout,
    newest: Version,
    trace: &str,
    wanted: &str,
) {
    let refusal = read_trace_up_to(alloc, layout, newest, trace.as_bytes()).err();
    let told = format!(in alloc; "{refusal:?}").expect(rt, "words");
    is_same(rt, told.as_str(), wanted);
}

/// The record has to be refused so behind the header of the third version.
fn is_refused_behind(rt: &impl Abort, alloc: Global, layout: &Layout, row: &str, wanted: &str) {
    let text = format!(in alloc; "{HEADER}{row}").expect(rt, "a text");
    is_refused(rt, alloc, layout, Version::V3, text.as_str(), wanted);
}

/// The layout of the two spaces.
fn large(rt: &impl Abort, alloc: Global) -> Layout {
    read_hierarchy(alloc, LARGE.as_bytes()).expect(rt, "a hierarchy")
}

/// Records, and how they are refused, or read.
const RECORDS: &[(&str, &str)] = &[
    ("m,1,0,c,0,read f:0", "None"),
    ("m,1,0,-,0,read f:0", "None"),
    ("m,1,0,c,read f:0", "Some(Fields { at: 2 })"),
    ("m,1,0,c,0,0,read f:0", "Some(Fields { at: 2 })"),
    ("m,1,0,,0,read f:0", "Some(Client { at: 2 })"),
    ("m,1,0,a b,0,read f:0", "Some(Client { at: 2 })"),
    ("m,1,0,a b,10000001,read f:0", "Some(Client { at: 2 })"),
    (
        "m,1,1000000001,a b,10000001,read f:0",
        "Some(Release { at: 2 })",
    ),
    ("m,1,0,c,10000000,read f:0", "None"),
    ("m,1,0,c,10000001,read f:0", "Some(Think { at: 2 })"),
    ("m,1,0,c,00,read f:0", "Some(Think { at: 2 })"),
    ("m,1,0,c,-1,read f:0", "Some(Think { at: 2 })"),
    ("m,1,0,c,,read f:0", "Some(Think { at: 2 })"),
    ("m,1,0,c,10000001,", "Some(NoOps { at: 2 })"),
];

#[test]
fn have_clients_and_think_times(rt: HostRuntime) {
    let layout = large(&rt, rt.alloc());
    for (row, wanted) in RECORDS {
        is_refused_behind(&rt, rt.alloc(), &layout, row, wanted);
    }
    drop(layout);
}

/// Operations, and how they are refused, or read.
const OPS: &[(&str, &str)] = &[
    ("set f:4-7 1", "None"),
    ("add f:4-4 1", "None"),
    ("read f:0-7", "None"),
    ("read f:0-8", "Some(IndexTooLarge { at: 2 })"),
    ("read f:8-9", "Some(IndexTooLarge { at: 2 })"),
    ("read h:0-1", "Some(SpaceUnknown { at: 2 })"),
    ("read h:1-0", "Some(Op { at: 2 })"),
    ("set f:7-4 1", "Some(Op { at: 2 })"),
    ("set f:4-07 1", "Some(Op { at: 2 })"),
    ("set f:4- 1", "Some(Op { at: 2 })"),
    ("set f:-4 1", "Some(Op { at: 2 })"),
    ("set f:4-5-6 1", "Some(Op { at: 2 })"),
    ("set f:4-5:6 1", "Some(Op { at: 2 })"),
    ("set f:4-7", "Some(Op { at: 2 })"),
    ("set f:4-7 1 2", "Some(Op { at: 2 })"),
    ("read f:4-7 1", "Some(Op { at: 2 })"),
    ("copy f:0-1 f:4", "Some(Op { at: 2 })"),
    ("copy f:0 f:4-5", "Some(Op { at: 2 })"),
    ("swap f:0-1 f:4-5", "Some(Op { at: 2 })"),
    ("set h:0-1 18446744073709551616", "Some(Op { at: 2 })"),
    (
        "read f:7-99999999999999999999999",
        "Some(IndexTooLarge { at: 2 })",
    ),
    (
        "read f:99999999999999999999998-99999999999999999999999",
        "Some(IndexTooLarge { at: 2 })",
    ),
    (
        "read f:99999999999999999999999-99999999999999999999998",
        "Some(Op { at: 2 })",
    ),
    ("read f:99999999999999999999999-7", "Some(Op { at: 2 })"),
    ("read f:0-9;read h:0;read f:1-0", "Some(Op { at: 2 })"),
    ("read f:0-9;read h:0", "Some(SpaceUnknown { at: 2 })"),
    ("read d:0-1023", "None"),
    ("read d:0-1022;read d:0", "None"),
    ("read d:0-1024", "Some(TooManyOps { at: 2 })"),
    ("read d:0-2047", "Some(TooManyOps { at: 2 })"),
    ("read d:0-1023;read d:0", "Some(TooManyOps { at: 2 })"),
    ("read d:0;set d:0-1023 1", "Some(TooManyOps { at: 2 })"),
    ("read d:0-1024;read d:2048", "Some(IndexTooLarge { at: 2 })"),
];

#[test]
fn have_ranges(rt: HostRuntime) {
    let layout = large(&rt, rt.alloc());
    for (ops, wanted) in OPS {
        let row = format!(in rt.alloc(); "m,1,0,c,0,{ops}").expect(&rt, "a text");
        is_refused_behind(&rt, rt.alloc(), &layout, row.as_str(), wanted);
    }
    drop(layout);
}

#[test]
fn have_no_ranges_in_earlier_versions(rt: HostRuntime) {
    let layout = large(&rt, rt.alloc());
    let first = "message,cost,ops\nm,1,read f:4-7\n";
    let second = "message,cost,release,ops\nm,1,0,read f:4-7\n";
    let wanted = "Some(Op { at: 2 })";
    is_refused(&rt, rt.alloc(), &layout, Version::V3, first, wanted);
    is_refused(&rt, rt.alloc(), &layout, Version::V3, second, wanted);
    drop(layout);
}

#[test]
fn are_known_up_to_the_newest_version(rt: HostRuntime) {
    let layout = large(&rt, rt.alloc());
    let second = "message,cost,release,ops\n";
    let wanted = "Some(Header { at: 1 })";
    is_refused(&rt, rt.alloc(), &layout, Version::V3, HEADER, "None");
    is_refused(&rt, rt.alloc(), &layout, Version::V2, HEADER, wanted);
    is_refused(&rt, rt.alloc(), &layout, Version::V2, second, "None");
    is_refused(&rt, rt.alloc(), &layout, Version::V1, second, wanted);
    drop(layout);
}

#[test]
fn are_read_in_the_third_version(rt: HostRuntime) {
    let layout = large(&rt, rt.alloc());
    let text = format!(in rt.alloc();
        "{HEADER}m,3,5,c.1,7,set f:4-6 1;read f:0\nn,1,0,-,0,add d:0-1 2"
    ).expect(&rt, "a text");
    let trace = read_trace(rt.alloc(), &layout, text.as_bytes()).expect(&rt, "a trace");
    assert!(rt; trace.version() == Version::V3);
    assert!(rt; trace.len() == 2);
    assert!(rt; trace.op_count() == 6);
    let message = trace.message(1);
    is_same(&rt, message.name.as_str(), "m");
    is_same(&rt, message.client.as_str(), "c.1");
    assert!(rt; (message.cost, message.release, message.think) == (3, 5, 7));
    assert!(rt; message.ops.len() == 4);
    for place in 0..3 {
        let cell = Cell {
            space: 0,
            index: 4 + place as u32,
        };
        assert!(rt; message.ops.get(place) == Op::Set { cell, value: 1 });
    }
    let last = Cell { space: 0, index: 0 };
    assert!(rt; message.ops.get(3) == Op::Read { cell: last });
    is_same(&rt, trace.message(2).client.as_str(), "-");
    assert!(rt; trace.message(2).think == 0);
    drop(trace);
    drop(layout);
}
