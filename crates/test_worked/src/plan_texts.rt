//! Plan texts accepted and refused: the unlimited plan of the first trace with one change each.

use crate::changes::changed;
use crate::same::is_same;
use std::alloc::Global;
use std::process::Abort;
use waff_model::Version;
use waff_plan_text::read_plan;
use waff_samples::{PLAN_H1_X1, PLAN_H1_X2};

/// A plan text of so many messages has to be refused so.
fn is_refused(
    rt: &impl Abort,
    alloc: Global,
    version: Version,
    messages: u32,
    text: &[u8],
    wanted: &str,
) {
    let refusal = read_plan(alloc, version, messages, text).err();
    let told = format!(in alloc; "{refusal:?}").expect(rt, "words");
    is_same(rt, told.as_str(), wanted);
}

/// Parts of the text with what stands in their place, and the refusal.
const CHANGES: &[(&str, &str, &str)] = &[
    ("start", "begin", "Some(Header { at: 1 })"),
    ("2,B0,0,3,-", "2,B0,0,03,-", "Some(Row { at: 3 })"),
    ("2,B0,0,3,-", "7,B0,0,3,-", "Some(Row { at: 3 })"),
    ("1,A0,0,4,-", "7,A0,0,4,-", "Some(Row { at: 2 })"),
    ("3,VolA,4,6,-\n", "", "Some(Missing { message: 3 })"),
    (
        "3,VolA,4,6,-\n",
        "3,VolA,4,6,-\n3,VolA,4,6,-\n",
        "Some(Twice { at: 5 })",
    ),
    (
        "1,A0,0,4,-",
        "1,A0,1000000000000001,4,-",
        "Some(TooLarge { at: 2 })",
    ),
    ("workers,-", "workers,65", "Some(Summary { at: 8 })"),
    ("chain,1 3 5 6", "chain", "Some(Summary { at: 11 })"),
    ("chain,1 3 5 6", "chain,1  3", "Some(Summary { at: 11 })"),
    ("cost,9", "release,0\ncost,9", "Some(Summary { at: 12 })"),
    ("bound,9,9\n", "", "Some(Summary { at: 13 })"),
    (
        "bound,9,9\n",
        "bound,9,9\nbound,9,9\n",
        "Some(Summary { at: 14 })",
    ),
    (
        "total,17",
        "total,99999999999999999999",
        "Some(TooLarge { at: 9 })",
    ),
    (
        "cost,9",
        "cost,99999999999999999999",
        "Some(TooLarge { at: 12 })",
    ),
];

/// A plan of one message in the second version.
const ONE: &[u8] = b"message,affinity,start,finish,worker\n1,A0,10,14,64\nworkers,64\ntotal,4\n\
    length,14\nchain,\nrelease,0\ncost,9\nbound,9,9\n";

/// Plan texts of a version and of so many messages that lack a part, and the refusal.
const PARTS: &[(Version, u32, &[u8], &str)] = &[
    (Version::V1, 6, b"", "Some(Header { at: 1 })"),
    (Version::V1, 6, b"message,\xff\n", "Some(Csv { at: 1 })"),
    (Version::V1, 1, ONE, "Some(Summary { at: 7 })"),
];

#[test]
fn are_refused(rt: HostRuntime) {
    let alloc = rt.alloc();
    for (part, other, wanted) in CHANGES {
        let text = changed(&rt, alloc, PLAN_H1_X1, part, other);
        is_refused(&rt, alloc, Version::V1, 6, text.as_bytes(), wanted);
    }
    for (version, messages, text, wanted) in PARTS {
        is_refused(&rt, alloc, *version, *messages, text, wanted);
    }
    let text = changed(&rt, alloc, PLAN_H1_X2, "release,10\n", "");
    let told = "Some(Summary { at: 11 })";
    is_refused(&rt, alloc, Version::V2, 5, text.as_bytes(), told);
}
