//! Layouts over a root with two children.

use crate::building::{Map, laid_out, tree};
use std::alloc::Global;
use std::process::Abort;
use waff_model::{AffinityId, Cell, Format, Kind, Layout, LayoutError, Trace, Version};

const TREE: &[(&str, Option<u16>)] = &[("root", None), ("v1", Some(0)), ("v2", Some(0))];

/// The layout of these spaces and maps, which have to be accepted.
fn made(rt: &impl Abort, alloc: Global, spaces: &[(&str, i64)], maps: &[Map]) -> Layout {
    let tree = tree(alloc, TREE).expect(rt, "a tree");
    laid_out(rt, alloc, Format::F1, tree, spaces, maps).expect(rt, "a layout")
}

/// The owner of a cell and the cell's place, if it is one of the layout's.
fn place(layout: &Layout, cell: Cell) -> Option<(AffinityId, AffinityId, u64)> {
    if layout.has(cell) {
        let (owner, place) = layout.place(cell);
        Some((layout.owner(cell), owner, place))
    } else {
        None
    }
}

/// The name and the size of a space, if it is one of the layout's.
fn parts(layout: &Layout, s: u32) -> Option<(&str, u32)> {
    if s < layout.space_count() {
        Some((layout.space_name(s), layout.space_size(s)))
    } else {
        None
    }
}

/// How many cells an affinity owns, if it is one of the tree's.
fn parcel_len(layout: &Layout, a: u16) -> Option<u64> {
    if u32::from(a) < layout.tree().len() {
        Some(layout.parcel_len(AffinityId(a)))
    } else {
        None
    }
}

const SPACES: &[(&str, i64)] = &[("f", 8), ("g", 4)];

const MAPS: &[Map] = &[("f", 2, &["v1", "v2"]), ("g", 1, &["v1"])];

/// The spaces of the layout by their numbers, where it has them.
const PARTS: &[(u32, Option<(&str, u32)>)] = &[(0, Some(("f", 8))), (1, Some(("g", 4))), (2, None)];

fn has_its_parts(rt: &impl Abort, layout: &Layout) {
    for (space, wanted) in PARTS {
        let found = parts(layout, *space);
        assert!(rt; found == *wanted, "{space}: {found:?}");
    }
}

#[test]
fn show_what_they_were_made_of(rt: HostRuntime) {
    let layout = made(&rt, rt.alloc(), SPACES, MAPS);
    has_its_parts(&rt, &layout);
    assert!(rt; layout.format() == Format::F1);
    assert!(rt; layout.kind() == Kind::Hierarchical);
    assert!(rt; layout.has_few_cells());
    assert!(rt; layout.tree().len() == 3);
    assert!(rt; layout.find_space("g") == Some(1));
    assert!(rt; layout.find_space("h").is_none());
    drop(layout);
}

/// Cells with their owners and places, where they are of the layout.
const PLACES: &[(u32, u32, Option<(AffinityId, AffinityId, u64)>)] = &[
    (0, 2, Some((AffinityId(2), AffinityId(2), 0))),
    (0, 4, Some((AffinityId(1), AffinityId(1), 2))),
    (1, 3, Some((AffinityId(1), AffinityId(1), 7))),
    (1, 4, None),
    (2, 0, None),
];

/// How many cells each affinity owns, where it is of the tree.
const LENGTHS: &[(u16, Option<u64>)] = &[(0, Some(0)), (1, Some(8)), (2, Some(4)), (3, None)];

fn has_places(rt: &impl Abort, layout: &Layout) {
    for (space, index, found) in PLACES {
        let (space, index) = (*space, *index);
        let place = place(layout, Cell { space, index });
        assert!(rt; place == *found, "{space}:{index}: {place:?}");
    }
}

fn has_parcels(rt: &impl Abort, layout: &Layout) {
    for (a, found) in LENGTHS {
        let length = parcel_len(layout, *a);
        assert!(rt; length == *found, "{a}: {length:?}");
    }
}

#[test]
fn place_cells_in_parcels(rt: HostRuntime) {
    let layout = made(&rt, rt.alloc(), SPACES, MAPS);
    has_places(&rt, &layout);
    has_parcels(&rt, &layout);
    drop(layout);
}

const OTHER_MAPS: &[Map] = &[("g", 1, &["root"]), ("f", 2, &["v1", "v2"])];

/// The spaces of other layouts, and whether they are the same.
const OTHERS: &[(&[(&str, i64)], bool)] = &[
    (SPACES, true),
    (&[("g", 4), ("f", 8)], false),
    (&[("f", 8), ("g", 5)], false),
];

/// Whether a layout has the spaces of another one, which is made of these.
fn are_same(rt: &impl Abort, alloc: Global, layout: &Layout, spaces: &[(&str, i64)]) -> bool {
    let other = made(rt, alloc, spaces, MAPS);
    let answer = layout.same_spaces(&other);
    drop(other);
    answer
}

#[test]
fn tell_whether_spaces_are_the_same(rt: HostRuntime) {
    let layout = made(&rt, rt.alloc(), SPACES, OTHER_MAPS);
    for (spaces, found) in OTHERS {
        assert!(rt;
            are_same(&rt, rt.alloc(), &layout, spaces) == *found,
            "{spaces:?}"
        );
    }
    drop(layout);
}

const ONE: &[&str] = &["v1"];

const F: &[(&str, i64)] = &[("f", 1)];

const BOTH: &[(&str, i64)] = &[("f", 262144), ("g", 1)];

/// Spaces and maps that are refused, with why.
const REFUSED: &[(&[(&str, i64)], &[Map], LayoutError)] = &[
    (&[], &[], LayoutError::Space),
    (&[("a b", 1)], &[], LayoutError::Space),
    (F, &[("f", 1, ONE), ("g", 1, ONE)], LayoutError::Space),
    (&[("f", -1)], &[], LayoutError::Size),
    (&[("f", 0)], &[], LayoutError::Size),
    (&[("f", 262145)], &[], LayoutError::Size),
    (&[("f", 1), ("f", 2)], &[], LayoutError::SpaceTwice),
    (BOTH, &[("f", 0, ONE)], LayoutError::NoMap),
    (F, &[("f", 1, ONE), ("f", 0, ONE)], LayoutError::MapTwice),
    (F, &[("f", 0, &[])], LayoutError::Unit),
    (F, &[("f", 1, &[])], LayoutError::To),
    (F, &[("f", 1, &["v1", "v3"])], LayoutError::To),
    (
        BOTH,
        &[("f", 1, ONE), ("g", 1, ONE)],
        LayoutError::TooManyCells,
    ),
];

#[test]
fn are_refused_for_their_spaces_and_maps(rt: HostRuntime) {
    for (spaces, maps, error) in REFUSED {
        let tree = tree(rt.alloc(), TREE).expect(&rt, "a tree");
        let found = laid_out(&rt, rt.alloc(), Format::F1, tree, spaces, maps).err();
        assert!(rt; found == Some(*error), "{spaces:?} {maps:?}: {found:?}");
    }
}

/// The greatest size and unit of format 2.
const MOST: i64 = 4_294_967_295;

/// Spaces and maps of format 2 that are refused, with why.
const REFUSED_LARGE: &[(&[(&str, i64)], &[Map], LayoutError)] = &[
    (&[("f", 0)], &[], LayoutError::Size),
    (&[("f", MOST + 1)], &[], LayoutError::Size),
    (F, &[("f", 0, ONE)], LayoutError::Unit),
    (F, &[("f", MOST + 1, ONE)], LayoutError::Unit),
];

#[test]
fn are_refused_for_large_spaces_past_the_limit(rt: HostRuntime) {
    for (spaces, maps, error) in REFUSED_LARGE {
        let tree = tree(rt.alloc(), TREE).expect(&rt, "a tree");
        let found = laid_out(&rt, rt.alloc(), Format::F2, tree, spaces, maps).err();
        assert!(rt; found == Some(*error), "{spaces:?} {maps:?}: {found:?}");
    }
}

const LARGE: &[(&str, i64)] = &[("f", MOST), ("g", MOST), ("h", MOST)];

const LARGE_MAPS: &[Map] = &[
    ("f", 1, &["root", "v1", "v2"]),
    ("g", 3_000_000_000, &["v1", "v2"]),
    ("h", MOST, &["v2", "v1"]),
];

/// Cells of large spaces with their owners, where they are of the layout: 4,294,967,295 is a multiple
/// of 3.
const LARGE_OWNERS: &[(u32, u32, Option<AffinityId>)] = &[
    (0, 0, Some(AffinityId(0))),
    (0, 4_294_967_294, Some(AffinityId(2))),
    (0, 4_294_967_295, None),
    (1, 2_999_999_999, Some(AffinityId(1))),
    (1, 3_000_000_000, Some(AffinityId(2))),
    (1, 4_294_967_294, Some(AffinityId(2))),
    (2, 4_294_967_294, Some(AffinityId(2))),
];

/// The owner of a cell, if it is one of the layout's.
fn owner(layout: &Layout, cell: Cell) -> Option<AffinityId> {
    if layout.has(cell) {
        Some(layout.owner(cell))
    } else {
        None
    }
}

fn has_owners(rt: &impl Abort, layout: &Layout) {
    for (space, index, wanted) in LARGE_OWNERS {
        let (space, index) = (*space, *index);
        let found = owner(layout, Cell { space, index });
        assert!(rt; found == *wanted, "{space}:{index}: {found:?}");
    }
}

#[test]
fn own_the_cells_of_large_spaces(rt: HostRuntime) {
    let tree = tree(rt.alloc(), TREE).expect(&rt, "a tree");
    let layout = laid_out(&rt, rt.alloc(), Format::F2, tree, LARGE, LARGE_MAPS);
    let layout = layout.expect(&rt, "a layout");
    assert!(rt; layout.format() == Format::F2);
    assert!(rt; !layout.has_few_cells());
    has_owners(&rt, &layout);
    drop(layout);
}

/// Sizes of a space of format 2, and whether its cells are few.
const FEW: &[(i64, bool)] = &[(1, true), (262_144, true), (262_145, false)];

#[test]
fn have_few_cells_up_to_the_limit(rt: HostRuntime) {
    for (size, wanted) in FEW {
        let tree = tree(rt.alloc(), TREE).expect(&rt, "a tree");
        let spaces = &[("f", *size)];
        let layout = laid_out(&rt, rt.alloc(), Format::F2, tree, spaces, &[("f", 1, ONE)]);
        let layout = layout.expect(&rt, "a layout");
        let found = layout.has_few_cells();
        drop(layout);
        assert!(rt; found == *wanted, "{size}");
    }
}

/// Whether the trace fits a layout of one space of so many cells.
fn fits(rt: &impl Abort, alloc: Global, trace: &Trace, size: i64) -> bool {
    let layout = made(rt, alloc, &[("f", size)], &[("f", 1, ONE)]);
    let answer = trace.fits(&layout);
    drop(layout);
    answer
}

#[test]
fn fit_the_traces_of_their_sizes(rt: HostRuntime) {
    let eight = made(&rt, rt.alloc(), &[("f", 8)], &[("f", 1, ONE)]);
    let trace = Trace::with_version(rt.alloc(), &eight, Version::V2).expect(&rt, "a trace");
    assert!(rt; trace.version() == Version::V2);
    assert!(rt; trace.len() == 0);
    assert!(rt; fits(&rt, rt.alloc(), &trace, 8));
    assert!(rt; !fits(&rt, rt.alloc(), &trace, 4));
    drop(trace);
    drop(eight);
}
