//! Trees of affinities.

use crate::building::tree;
use std::alloc::Global;
use std::process::Abort;
use waff_model::{AffinityId, Tree, TreeBuilder, TreeError};

/// A root with two children, the second of which has one.
const TREE: &[(&str, Option<u16>)] = &[
    ("Serial", None),
    ("VolA", Some(0)),
    ("VolB", Some(0)),
    ("B0", Some(2)),
];

/// The parts of an affinity: its name and its parent, if the tree has it.
fn parts(tree: &Tree, number: u16) -> Option<(&str, Option<AffinityId>)> {
    if u32::from(number) < tree.len() {
        let affinity = AffinityId(number);
        Some((tree.name(affinity), tree.parent(affinity)))
    } else {
        None
    }
}

/// Whether the first is at or above the second, and whether they exclude each other.
fn relation(tree: &Tree, one: u16, other: u16) -> Option<(bool, bool)> {
    if u32::from(one) < tree.len() && u32::from(other) < tree.len() {
        let (one, other) = (AffinityId(one), AffinityId(other));
        Some((tree.at_or_above(one, other), tree.excludes(one, other)))
    } else {
        None
    }
}

/// The parts of affinities by their numbers, where the tree has them.
const PARTS: &[(u16, Option<(&str, Option<AffinityId>)>)] = &[
    (0, Some(("Serial", None))),
    (3, Some(("B0", Some(AffinityId(2))))),
    (4, None),
];

#[test]
fn keep_names_and_parents(rt: HostRuntime) {
    let tree = tree(rt.alloc(), TREE).expect(&rt, "a tree");
    for (number, wanted) in PARTS {
        let found = parts(&tree, *number);
        assert!(rt; found == *wanted, "{number}: {found:?}");
    }
    assert!(rt; tree.find("VolB") == Some(AffinityId(2)));
    assert!(rt; tree.find("B1").is_none());
    assert!(rt; tree.root() == AffinityId(0));
    drop(tree);
}

/// Affinities, with whether the first is at or above the second, and whether they exclude each
/// other.
const RELATIONS: &[(u16, u16, (bool, bool))] = &[
    (0, 3, (true, true)),
    (1, 3, (false, false)),
    (3, 2, (false, true)),
    (3, 1, (false, false)),
];

#[test]
fn tell_what_is_above(rt: HostRuntime) {
    let tree = tree(rt.alloc(), TREE).expect(&rt, "a tree");
    for (one, other, wanted) in RELATIONS {
        let found = relation(&tree, *one, *other);
        assert!(rt; found == Some(*wanted), "{one} {other}: {found:?}");
    }
    drop(tree);
}

/// Lists of affinities, and how they are refused.
const REFUSED: &[(&[(&str, Option<u16>)], TreeError)] = &[
    (&[], TreeError::NoRoot),
    (&[("B 1", None)], TreeError::Name),
    (&[("a", None), ("B 1", None)], TreeError::Name),
    (&[("a", None), ("a", None)], TreeError::Twice),
    (&[("a", None), ("b", None)], TreeError::SecondRoot),
    (&[("a", None), ("b", Some(1))], TreeError::ParentUnknown),
];

#[test]
fn are_refused_in_order(rt: HostRuntime) {
    for (rows, error) in REFUSED {
        let found = tree(rt.alloc(), rows).err();
        assert!(rt; found == Some(*error), "{rows:?}: {found:?}");
    }
}

/// Adds the affinity n below the one before it, and answers its number.
fn add_below(
    rt: &impl Abort,
    alloc: Global,
    builder: &mut TreeBuilder,
    n: u16,
) -> Result<AffinityId, TreeError> {
    let name = format!(in alloc; "n{n}").expect(rt, "a name");
    let parent = n.checked_sub(1).map(AffinityId);
    builder.add(name.as_str(), parent)
}

/// A path of so many affinities, each below the one before it.
fn path(rt: &impl Abort, alloc: Global, count: u16) -> TreeBuilder {
    let mut builder = TreeBuilder::new(alloc);
    for n in 0..count {
        let _ = add_below(rt, alloc, &mut builder, n).expect(rt, "an affinity");
    }
    builder
}

#[test]
fn have_the_affinities_of_the_limit(rt: HostRuntime) {
    let mut builder = path(&rt, rt.alloc(), 4096);
    let more = add_below(&rt, rt.alloc(), &mut builder, 4096);
    assert!(rt; more == Err(TreeError::TooMany), "{more:?}");
    let tree = builder.build().expect(&rt, "a tree");
    assert!(rt; tree.len() == 4096);
    assert!(rt; relation(&tree, 1, 4095) == Some((true, true)));
    assert!(rt; relation(&tree, 4095, 4094) == Some((false, true)));
    drop(tree);
}

#[test]
fn stay_as_they_are_where_an_affinity_is_refused(rt: HostRuntime) {
    let mut builder = path(&rt, rt.alloc(), 2);
    let again = builder.add("n0", Some(AffinityId(9)));
    assert!(rt; again == Err(TreeError::Twice), "{again:?}");
    let more = builder.add("n2", Some(AffinityId(1)));
    assert!(rt; more == Ok(AffinityId(2)), "{more:?}");
    drop(builder);
}
