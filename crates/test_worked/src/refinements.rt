//! Whether one hierarchy refines another on a trace.

use std::alloc::Global;
use std::process::Abort;
use waff_assign::assign;
use waff_order::refines;
use waff_read::{read_hierarchy, read_trace};
use waff_samples::{C1, H1, X1};

/// Whether the first hierarchy refines the second on the first trace.
fn first_refines(rt: &impl Abort, alloc: Global, first: &str, second: &str) -> bool {
    let first = read_hierarchy(alloc, first.as_bytes()).expect(rt, "a hierarchy");
    let second = read_hierarchy(alloc, second.as_bytes()).expect(rt, "a hierarchy");
    let trace = read_trace(alloc, &first, X1.as_bytes()).expect(rt, "a trace");
    assert!(rt; trace.fits(&second));
    let fine = assign(alloc, &first, &trace).expect(rt, "affinities");
    let coarse = assign(alloc, &second, &trace).expect(rt, "affinities");
    assert!(rt; fine.is_unlocked() && coarse.is_unlocked());
    let answer = refines(first.tree(), &fine, second.tree(), &coarse);
    drop(fine);
    drop(coarse);
    drop(trace);
    drop(first);
    drop(second);
    answer
}

#[test]
fn go_one_way_alone(rt: HostRuntime) {
    assert!(rt; first_refines(&rt, rt.alloc(), H1, C1));
    assert!(rt; !first_refines(&rt, rt.alloc(), C1, H1));
}
