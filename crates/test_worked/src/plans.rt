//! Unlimited plans.

use crate::paths::path;
use crate::running::is_told;
use waff_samples::{C1, H1, X1};

/// Hierarchies and traces, with what is told of their plans. Others stand in the transcripts of `plan`.
const CASES: &[(&str, &str, &str)] = &[
    (
        C1,
        X1,
        "affinities T0 T0 Serial T1 Serial T0 starts 0 4 7 9 14 15 length 17 total 17 \
            chain 1 2 3 4 5 6 cost 17 release 0",
    ),
    // Two readers of one cell run one after the other.
    (
        H1,
        "message,cost,ops\nm1,1,read m:0\nm2,1,read m:0\n",
        "affinities VolA VolA starts 0 1 length 2 total 2 chain 1 2 cost 2 release 0",
    ),
    // The third waits for each of its descendants.
    (
        H1,
        "message,cost,ops\nm1,9,set f:0 1\nm2,1,set f:2 1\nm3,1,set m:0 1\n",
        "affinities A0 A1 VolA starts 0 0 9 length 10 total 11 chain 1 3 cost 10 release 0",
    ),
];

#[test]
fn are_as_worked_by_hand(rt: HostRuntime) {
    for (hierarchy, trace, wanted) in CASES {
        is_told(&rt, rt.alloc(), hierarchy, trace, wanted);
    }
}

#[test]
fn of_the_ends_of_a_long_path(rt: HostRuntime) {
    let hierarchy = path(rt.alloc(), 4096).expect(&rt, "a text");
    let trace = "message,cost,ops\nm1,1,read f:1\nm2,1,read f:0\n";
    let wanted = "affinities n4095 n0 starts 0 1 length 2 total 2 chain 1 2 cost 2 release 0";
    is_told(&rt, rt.alloc(), hierarchy.as_str(), trace, wanted);
}
