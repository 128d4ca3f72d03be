//! Plans for workers.

ghost use Rattle.waff_plan.specs.Bound.{IsWorkers};

use crate::same::is_same;
use crate::words::push_numbers;
use std::alloc::{AllocError, Global};
use std::fmt::Write;
use std::process::Abort;
use waff_assign::assign;
use waff_list::{Rule, list_plan_by};
use waff_model::limits::MAX_TICK;
use waff_order::Needs;
use waff_order::predecessors::needs;
use waff_plan::Plan;
use waff_read::{read_hierarchy, read_trace};
use waff_samples::{H1, X1, X2};

/// The plan of a trace for k workers by this rule, under the hierarchical sample, has to take its
/// messages in this order. What else it has is printed, and stands in the transcripts of `plan`.
fn is_taken(rt: &impl Abort, alloc: Global, trace: &str, rule: Rule, k: u32, wanted: &[u32])
    requires { IsWorkers k }
{
    let layout = read_hierarchy(alloc, H1.as_bytes()).expect(rt, "a hierarchy");
    let trace = read_trace(alloc, &layout, trace.as_bytes()).expect(rt, "a trace");
    assert!(rt; !trace.version().has_clients());
    let assigned = assign(alloc, &layout, &trace).expect(rt, "affinities");
    let needs = needs(alloc, layout.tree(), &assigned).expect(rt, "needs");
    let made = list_plan_by(alloc, &needs, &trace, rule, k).expect(rt, "a plan");
    assert_eq!(rt; made.order(), wanted);
    drop(made);
    drop(assigned);
    drop(needs);
    drop(trace);
    drop(layout);
}

const AS_LONG_AS_THE_BOUND: &str =
    "message,cost,ops\nm1,1,read f:0\nm2,1,read g:0\nm3,2,read g:4\n";

/// Two workers: the tails are 2, 3, 5, 2 and 2. By the longest tails 3 and 2 start first, then 1
/// before 4, whose tail is as long.
const OF_EQUAL_TAILS: &str =
    "message,cost,ops\nm1,2,read g:0\nm2,1,read f:0\nm3,3,read f:2\nm4,2,set f:1 4\nm5,2,set f:3 5\n";

/// Traces with a number of workers, and the order of their plans by arrival.
const CASES: &[(&str, u32, &[u32])] = &[
    (X1, 2, &[1, 2, 4, 3, 5, 6]),
    (X1, 1, &[1, 2, 3, 4, 5, 6]),
    ("message,cost,ops\n", 2, &[]),
    (AS_LONG_AS_THE_BOUND, 2, &[1, 2, 3]),
    (X2, 2, &[1, 4, 2, 3, 5]),
    (X2, 1, &[1, 2, 4, 3, 5]),
    (OF_EQUAL_TAILS, 2, &[1, 2, 3, 4, 5]),
];

/// And by the longest tails.
const LONGEST: &[(&str, u32, &[u32])] = &[
    (X1, 2, &[1, 4, 2, 3, 5, 6]),
    (X1, 1, &[1, 4, 2, 3, 5, 6]),
    ("message,cost,ops\n", 2, &[]),
    (X2, 2, &[1, 4, 2, 3, 5]),
    (X2, 1, &[1, 4, 2, 3, 5]),
    (OF_EQUAL_TAILS, 2, &[2, 3, 1, 4, 5]),
];

#[test]
fn take_their_messages_in_order(rt: HostRuntime) {
    for (rule, cases) in [(Rule::Arrival, CASES), (Rule::Longest, LONGEST)] {
        for (trace, k, wanted) in cases {
            let k = *k;
            assert!(rt; 1 <= k && k <= 64);
            is_taken(&rt, rt.alloc(), trace, rule, k, wanted);
        }
    }
}

/// The needs of the messages of a trace under the hierarchical sample.
fn needed(rt: &impl Abort, alloc: Global, trace: &str) -> Needs {
    let layout = read_hierarchy(alloc, H1.as_bytes()).expect(rt, "a hierarchy");
    let trace = read_trace(alloc, &layout, trace.as_bytes()).expect(rt, "a trace");
    let assigned = assign(alloc, &layout, &trace).expect(rt, "affinities");
    let needs = needs(alloc, layout.tree(), &assigned).expect(rt, "needs");
    drop(assigned);
    drop(trace);
    drop(layout);
    needs
}

/// The needs of each message.
fn listed_needs(alloc: Global, needs: &Needs) -> Result<String, AllocError> {
    let mut words = String::new(alloc);
    for n in 1..needs.len() + 1 {
        write!(words, "{n}:")?;
        push_numbers(&mut words, needs.of(n))?;
        words.push_str("\n")?;
    }
    Ok(words)
}

#[test]
fn wait_for_their_needs(rt: HostRuntime) {
    let needs = needed(&rt, rt.alloc(), X1);
    let words = listed_needs(rt.alloc(), &needs).expect(&rt, "words");
    is_same(&rt, words.as_str(), "1:\n2:\n3: 1\n4:\n5: 2 3 4\n6: 5\n");
    drop(needs);
}

/// A trace of two messages of two volumes, so many times.
fn turns(alloc: Global, count: u32) -> Result<String, AllocError> {
    let mut trace = String::from_str(alloc, "message,cost,ops\n")?;
    for _turn in 0..count {
        trace.push_str("m,1,read f:0\nm,1,read g:0\n")?;
    }
    Ok(trace)
}

/// How many needs there are.
fn count(alloc: Global, needs: &Needs) -> Result<usize, AllocError> {
    let mut all = Vec::new(alloc);
    for n in 1..needs.len() + 1 {
        all.extend_from_slice(needs.of(n))?;
    }
    Ok(all.len())
}

#[test]
fn wait_for_few_of_many(rt: HostRuntime) {
    let trace = turns(rt.alloc(), 2048).expect(&rt, "a trace");
    let needs = needed(&rt, rt.alloc(), trace.as_str());
    assert!(rt; needs.len() == 4096);
    let count = count(rt.alloc(), &needs).expect(&rt, "needs");
    assert!(rt; count <= 12288, "there are {count} needs");
    drop(needs);
}

/// Traces with starts, and the length and the total.
const STARTS: &[(&str, &[u64], (u64, u64))] = &[
    (X1, &[0, 0, 4, 3, 8, 9], (11, 17)),
    (AS_LONG_AS_THE_BOUND, &[0, 1, 0], (2, 4)),
];

/// The plan of a trace in which the messages start at these ticks has to have this length and this
/// total.
fn is_as_long(rt: &impl Abort, alloc: Global, trace: &str, starts: &[u64], wanted: (u64, u64)) {
    let layout = read_hierarchy(alloc, H1.as_bytes()).expect(rt, "a hierarchy");
    let trace = read_trace(alloc, &layout, trace.as_bytes()).expect(rt, "a trace");
    assert!(rt; trace.len() as usize == starts.len());
    assert!(rt; starts.iter().all(|start| *start <= MAX_TICK));
    let plan = Plan::of_starts(alloc, &trace, starts).expect(rt, "a plan");
    let found = (plan.length(), plan.total());
    assert!(rt; found == wanted, "{starts:?}: {found:?}");
    drop(plan);
    drop(trace);
    drop(layout);
}

#[test]
fn are_as_long_as_their_starts_say(rt: HostRuntime) {
    for (trace, starts, wanted) in STARTS {
        is_as_long(&rt, rt.alloc(), trace, starts, *wanted);
    }
}
