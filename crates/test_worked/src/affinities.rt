//! Affinities of messages.

use crate::building::{FIRST, Row, SECOND, layout, trace};
use crate::running::{RELEASED, SAMPLE, unlimited_of};
use crate::same::is_same;
use std::alloc::Global;
use std::process::Abort;
use waff_assign::{footprint, lowest};
use waff_model::{Cell, Layout, Version};

const F2: Cell = Cell { space: 0, index: 2 };

const F4: Cell = Cell { space: 0, index: 4 };

const G0: Cell = Cell { space: 2, index: 0 };

/// A trace made by hand has to be told so.
fn is_told(
    rt: &impl Abort,
    alloc: Global,
    layout: &Layout,
    version: Version,
    rows: &[Row],
    wanted: &str,
) {
    let trace = trace(rt, alloc, layout, version, rows);
    let told = unlimited_of(rt, alloc, layout, &trace);
    drop(trace);
    is_same(rt, told.as_str(), wanted);
}

#[test]
fn of_what_is_made_by_hand_are_those_of_the_files(rt: HostRuntime) {
    let layout = layout(&rt, rt.alloc());
    is_told(&rt, rt.alloc(), &layout, Version::V1, FIRST, SAMPLE);
    is_told(&rt, rt.alloc(), &layout, Version::V2, SECOND, RELEASED);
    drop(layout);
}

/// The lowest affinity that covers cells of two volumes has to be the root.
fn is_the_root(rt: &impl Abort, layout: &Layout) {
    assert!(rt; layout.has(F2));
    assert!(rt; layout.has(G0));
    let affinity = lowest(layout, &[F2, G0]);
    is_same(rt, layout.tree().name(affinity), "Serial");
}

/// A cell has to be the third one of its owner.
fn is_the_third(rt: &impl Abort, layout: &Layout) {
    assert!(rt; layout.has(F4));
    let (owner, place) = layout.place(F4);
    is_same(rt, layout.tree().name(owner), "A0");
    assert!(rt; place == 2, "{place}");
}

#[test]
fn cover_cells_and_hold_them_at_their_places(rt: HostRuntime) {
    let layout = layout(&rt, rt.alloc());
    is_the_root(&rt, &layout);
    is_the_third(&rt, &layout);
    drop(layout);
}

#[test]
fn come_from_footprints_without_repeats(rt: HostRuntime) {
    let layout = layout(&rt, rt.alloc());
    let trace = trace(&rt, rt.alloc(), &layout, Version::V1, FIRST);
    assert!(rt; trace.len() == 6);
    let cells = footprint(rt.alloc(), &trace, 5).expect(&rt, "cells");
    assert!(rt; cells.as_slice() == [F2, G0].as_slice(), "{cells:?}");
    drop(trace);
    drop(layout);
}
