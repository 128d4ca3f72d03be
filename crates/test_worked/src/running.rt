//! Hierarchies and traces read, assigned and planned, and told in one line.

use crate::same::is_same;
use crate::words::push_numbers;
use std::alloc::{AllocError, Global};
use std::fmt::Write;
use std::process::Abort;
use waff_assign::{Assigned, assign};
use waff_model::{Layout, Trace, Tree};
use waff_plan::printed::chain;
use waff_plan::unlimited::plan;
use waff_plan::{Chain, Plan};
use waff_read::{read_hierarchy, read_trace};

/// What is told of the first trace under the hierarchical sample.
pub const SAMPLE: &str = "affinities A0 B0 VolA B1 Serial A0 starts 0 0 4 0 6 7 length 9 total 17 \
    chain 1 3 5 6 cost 9 release 0";

/// What is told of the second trace under the hierarchical sample.
pub const RELEASED: &str = "affinities A0 B0 VolA B1 Serial starts 0 2 10 0 12 length 13 total 15 \
    chain 3 5 cost 3 release 10";

/// What is told of the unlimited plan of a trace under a hierarchy, both of which have to be
/// accepted.
pub fn unlimited(rt: &impl Abort, alloc: Global, hierarchy: &str, trace: &str) -> String {
    let layout = read_hierarchy(alloc, hierarchy.as_bytes()).expect(rt, "a hierarchy");
    let trace = read_trace(alloc, &layout, trace.as_bytes()).expect(rt, "a trace");
    let told = unlimited_of(rt, alloc, &layout, &trace);
    drop(trace);
    drop(layout);
    told
}

/// What is told of the unlimited plan of a trace that has to be one for the layout.
pub fn unlimited_of(rt: &impl Abort, alloc: Global, layout: &Layout, trace: &Trace) -> String {
    assert!(rt; trace.fits(layout));
    let assigned = assign(alloc, layout, trace).expect(rt, "affinities");
    let plan = plan(alloc, layout.tree(), &assigned, trace).expect(rt, "a plan");
    let chain = chain(alloc, layout.tree(), &assigned, &plan).expect(rt, "a chain");
    let mut told = String::new(alloc);
    push_affinities(rt, &mut told, layout.tree(), &assigned).expect(rt, "words");
    push_times(&mut told, &plan).expect(rt, "words");
    push_chain(&mut told, &chain).expect(rt, "words");
    drop(chain);
    drop(plan);
    drop(assigned);
    told
}

fn push_affinities(
    rt: &impl Abort,
    told: &mut String,
    tree: &Tree,
    assigned: &Assigned,
) -> Result<(), AllocError> {
    told.push_str("affinities")?;
    for n in 1..assigned.len() + 1 {
        let affinity = assigned.affinity(n).expect(rt, "an affinity");
        assert!(rt; u32::from(affinity.0) < tree.len());
        write!(told, " {}", tree.name(affinity))?;
    }
    Ok(())
}

fn push_times(told: &mut String, plan: &Plan) -> Result<(), AllocError> {
    told.push_str(" starts")?;
    for n in 1..plan.len() + 1 {
        write!(told, " {}", plan.start(n))?;
    }
    write!(told, " length {} total {}", plan.length(), plan.total())
}

fn push_chain(told: &mut String, chain: &Chain) -> Result<(), AllocError> {
    told.push_str(" chain")?;
    push_numbers(told, chain.messages())?;
    write!(told, " cost {} release {}", chain.cost(), chain.release())
}

/// The unlimited plan has to be told so.
pub fn is_told(rt: &impl Abort, alloc: Global, hierarchy: &str, trace: &str, wanted: &str) {
    let told = unlimited(rt, alloc, hierarchy, trace);
    is_same(rt, told.as_str(), wanted);
}
