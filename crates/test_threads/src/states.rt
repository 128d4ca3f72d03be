//! States that messages leave.

ghost use Rattle.std.specs.Prelude.{◌≡◌, IfOk};
ghost use Rattle.waff_model.specs.Messages.{sizes_of};
ghost use Rattle.waff_cells.specs.Grid.{HasSizes};

use std::alloc::{AllocError, Global};
use std::fmt::Write;
use std::process::Abort;
use waff_cells::State;
use waff_model::{Cell, Layout, Trace};
use waff_read::{read_hierarchy, read_trace};
use waff_replay::serial;
use waff_samples::{H1, X1, X2};

/// The cells that are not 0, each with its number.
fn numbers(alloc: Global, layout: &Layout, state: &State) -> Result<String, AllocError>
    requires { HasSizes state.now (sizes_of layout.now.spaces) }
{
    let mut text = String::new(alloc);
    for space in 0..layout.space_count() {
        for index in 0..layout.space_size(space) {
            let number = state.get(Cell { space, index });
            if number != 0 {
                let comma = if text.is_empty() { "" } else { ", " };
                write!(text, "{comma}{}:{index} {number}", layout.space_name(space))?;
            }
        }
    }
    Ok(text)
}

/// The cells that are not 0 have to be these, each with its number.
pub fn is_left(rt: &impl Abort, alloc: Global, layout: &Layout, state: &State, wanted: &str)
    requires { HasSizes state.now (sizes_of layout.now.spaces) }
{
    let left = numbers(alloc, layout, state).expect(rt, "the numbers");
    assert_eq!(rt; left.as_str(), wanted);
}

/// The state after one message after another.
fn stepped(alloc: Global, layout: &Layout, trace: &Trace) -> Result<State, AllocError>
    requires { trace.now.sizes ≡ sizes_of layout.now.spaces }
    ensures { IfOk result (λ state. HasSizes state (sizes_of layout.now.spaces)) }
{
    let mut state = State::zero(alloc, layout)?;
    for n in 1..trace.len() + 1 {
        state.apply(trace.message(n));
    }
    Ok(state)
}

/// The messages one after another, and the serial run, have to leave this.
fn leaves(rt: &impl Abort, alloc: Global, trace: &str, wanted: &str) {
    let layout = read_hierarchy(alloc, H1.as_bytes()).expect(rt, "a hierarchy");
    let trace = read_trace(alloc, &layout, trace.as_bytes()).expect(rt, "a trace");
    let stepped = stepped(alloc, &layout, &trace).expect(rt, "a state");
    is_left(rt, alloc, &layout, &stepped, wanted);
    drop(stepped);
    let state = serial(alloc, &layout, &trace).expect(rt, "a state");
    is_left(rt, alloc, &layout, &state, wanted);
    drop(state);
    drop(trace);
    drop(layout);
}

/// Traces, and the cells that are not 0 after them, each with its number: the samples, no message, an
/// addition that wraps, and a cell with itself.
const STATES: &[(&str, &str)] = &[
    (X1, "f:0 5, f:2 7, f:4 1, g:0 5, g:4 1"),
    (X2, "f:0 5, f:2 7, g:0 5, g:4 1"),
    ("message,cost,ops\n", ""),
    (
        "message,cost,ops\nm1,1,set f:0 2;add f:0 18446744073709551615\n",
        "f:0 1",
    ),
    (
        "message,cost,ops\nm1,1,set m:1 5;swap m:1 m:1;copy m:1 m:1\n",
        "m:1 5",
    ),
];

#[test]
fn are_as_worked_by_hand(rt: HostRuntime) {
    for (trace, wanted) in STATES {
        leaves(&rt, rt.alloc(), trace, wanted);
    }
}
