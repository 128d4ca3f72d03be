//! Traces of the versions that the commands know.

ghost use Rattle.std.specs.Prelude.{◌≡◌, IfOk};
ghost use Rattle.waff_model.specs.Messages.{sizes_of};
ghost use Rattle.waff_read.specs.Traces.{GivesTrace};
ghost use Rattle.waff_inputs.specs.Known as known;

use std::alloc::Global;
use std::thread::Threads;
use waff_model::{Layout, Trace, Version};
use waff_read::TraceError;

/// The newest version of traces that the commands know: the header of a later one is refused.
pub fn newest() -> Version
    ensures { result ≡ known.newest }
{
    Version::V4
}

/// The trace that the bytes spell, of a version that the commands know.
pub fn read_trace(alloc: Global, layout: &Layout, bytes: &[u8]) -> Result<Trace, TraceError>
    ensures exact { GivesTrace result (known.trace_of layout.now.spaces bytes.now) }
    ensures fits { IfOk result (λ trace. trace.sizes ≡ sizes_of layout.now.spaces) }
{
    waff_read::read_trace_up_to(alloc, layout, newest(), bytes)
}

/// The trace that the bytes spell, as `read_trace` reads it, but read by several threads where the
/// text is long and has no fault.
pub fn read_trace_by_threads<R: Threads + Sync>(
    rt: &R,
    alloc: Global,
    layout: &Layout,
    bytes: &[u8],
) -> Result<Trace, TraceError>
    ensures exact { GivesTrace result (known.trace_of layout.now.spaces bytes.now) }
    ensures fits { IfOk result (λ trace. trace.sizes ≡ sizes_of layout.now.spaces) }
{
    waff_read::read_trace_by_threads(rt, alloc, layout, newest(), bytes)
}
