//! Jobs of traces.

ghost use Rattle.std.specs.Prelude.{◌<◌};

use std::alloc::{AllocError, Global};
use std::process::Abort;
use waff_assign::assign;
use waff_core::{Job, JobError};
use waff_order::predecessors::needs;
use waff_read::{read_hierarchy, read_trace};

/// What becomes of a job of this trace under this hierarchy, in this order. Both have to be
/// accepted.
pub fn job(
    rt: &impl Abort,
    alloc: Global,
    hierarchy: &str,
    trace: &str,
    order: &[u32],
) -> Result<Job, JobError> {
    let read = read_hierarchy(alloc, hierarchy.as_bytes()).expect(rt, "a hierarchy");
    let layout = read.without_locks();
    let trace = read_trace(alloc, &layout, trace.as_bytes()).expect(rt, "a trace");
    let assigned = assign(alloc, &layout, &trace).expect(rt, "affinities");
    let needs = needs(alloc, layout.tree(), &assigned).expect(rt, "needs");
    assert!(rt; layout.has_few_cells());
    Job::new(alloc, layout, trace, assigned, needs, order)
}

/// The numbers from 1 to this one.
pub fn count_to(alloc: Global, end: u32) -> Result<Vec<u32>, AllocError>
    requires { end < 1_000_000 }
{
    let mut order = Vec::new(alloc);
    for n in 1..end + 1 {
        order.push(n)?;
    }
    Ok(order)
}
