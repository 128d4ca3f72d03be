//! Hierarchies accepted and refused.

use crate::changes::changed;
use crate::same::is_same;
use std::alloc::Global;
use std::process::Abort;
use waff_model::{AffinityId, Cell, Format, Kind};
use waff_read::read_hierarchy;
use waff_samples::H1;

/// The hierarchy has to be refused so, or to be read, which is told as None.
pub fn is_told(rt: &impl Abort, alloc: Global, hierarchy: &[u8], wanted: &str) {
    let refusal = read_hierarchy(alloc, hierarchy).err();
    let told = format!(in alloc; "{refusal:?}").expect(rt, "words");
    is_same(rt, told.as_str(), wanted);
}

/// Bytes that are no hierarchy, with why.
const BYTES: &[(&[u8], &str)] = &[
    (b"", "Some(Model)"),
    (b"model = \"hier", "Some(Toml)"),
    (b"model = \"\xff\"", "Some(Toml)"),
    (b"model = 1", "Some(Model)"),
    (b"model = \"hybrid\"\naffinity = 1", "Some(Model)"),
];

#[test]
fn are_no_documents(rt: HostRuntime) {
    for (bytes, wanted) in BYTES {
        is_told(&rt, rt.alloc(), bytes, wanted);
    }
}

/// What follows a model, refused by its first fault: in the order of the keys, the tree, and then
/// the layout.
const PARTS: &[(&str, &str)] = &[
    (
        "affinity = [1]\nspace = []\nmap = 2",
        "Some(Shape { key: Affinities })",
    ),
    (
        "affinity = []\nspace = {}\nmap = 2",
        "Some(Shape { key: Spaces })",
    ),
    (
        "affinity = []\nspace = []\nmap = [{}, 2]",
        "Some(Shape { key: Maps })",
    ),
    (
        "affinity = [{parent = 1}]\nspace = [{}]\nmap = [{}]",
        "Some(Shape { key: Name })",
    ),
    (
        "affinity = [{name = 'a', parent = 1}]\nspace = [{name = 'f'}]\nmap = [{}]",
        "Some(Shape { key: Parent })",
    ),
    (
        "affinity = []\nspace = [{name = 'f', size = 8.0}]\nmap = [{}]",
        "Some(Shape { key: Size })",
    ),
    (
        "affinity = []\nspace = []\nmap = [{unit = true}]",
        "Some(Shape { key: Space })",
    ),
    (
        "affinity = []\nspace = []\nmap = [{space = 'f', unit = '1'}]",
        "Some(Shape { key: Unit })",
    ),
    (
        "affinity = []\nspace = []\nmap = [{space = 'f', unit = 1, to = ['a', 1]}]",
        "Some(Shape { key: To })",
    ),
    ("affinity = []\nspace = []\nmap = []", "Some(Tree(NoRoot))"),
    (
        "affinity = [{name = 'a b', parent = 'c'}]\nspace = []\nmap = []",
        "Some(Tree(Name))",
    ),
    (
        "affinity = [{name = 'a'}, {name = 'a', parent = 'c'}]\nspace = []\nmap = []",
        "Some(Tree(Twice))",
    ),
    (
        "affinity = [{name = 'a'}, {name = 'b'}]\nspace = []\nmap = []",
        "Some(Tree(SecondRoot))",
    ),
    (
        "affinity = [{name = 'a', parent = 'a'}]\nspace = []\nmap = []",
        "Some(Tree(ParentUnknown))",
    ),
    (
        "affinity = [{name = 'a'}, {name = 'b', parent = ''}]\nspace = []\nmap = []",
        "Some(Tree(ParentUnknown))",
    ),
    (
        "affinity = [{name = 'a'}]\nspace = []\nmap = [{space = 'f', unit = 1, to = []}]",
        "Some(Layout(Space))",
    ),
    (
        "affinity = [{name = 'a'}]\nspace = [{name = 'f', size = 8}]\nmap = []",
        "Some(Layout(NoMap))",
    ),
    (
        "affinity = [{name = 'a'}]\nspace = [{name = 'f', size = 8}]\n\
            map = [{space = 'f', unit = 2, to = ['b']}]",
        "Some(Layout(To))",
    ),
    (
        "affinity = [{name = 'a'}]\nspace = [{name = 'f', size = 8}]\n\
            map = [{space = 'f', unit = 2, to = ['a']}]",
        "None",
    ),
];

#[test]
fn are_refused_by_their_first_fault(rt: HostRuntime) {
    for (parts, wanted) in PARTS {
        let text = format!(in rt.alloc(); "model = 'hierarchical'\n{parts}\n").expect(
            &rt, "a text",
        );
        is_told(&rt, rt.alloc(), text.as_bytes(), wanted);
    }
}

/// The sample with one change each: a part, what stands in its place, and the refusal.
const CHANGES: &[(&str, &str, &str)] = &[
    ("Serial", "Serial", "None"),
    ("size = 8", "size = \"8\"", "Some(Shape { key: Size })"),
    (
        "name = \"A0\"\nparent = \"VolA\"",
        "name = \"A0\"\nparent = 1",
        "Some(Shape { key: Parent })",
    ),
    (
        "to = [\"A0\", \"A1\"]",
        "to = [\"A0\", 1]",
        "Some(Shape { key: To })",
    ),
    ("size = 8", "size = 0", "Some(Layout(Size))"),
    ("size = 8", "size = 262145", "Some(Layout(Size))"),
    ("size = 8", "size = 262135", "Some(Layout(TooManyCells))"),
    ("unit = 2", "unit = 0", "Some(Layout(Unit))"),
    ("unit = 2", "unit = -1", "Some(Layout(Unit))"),
    ("to = [\"A0\", \"A1\"]", "to = []", "Some(Layout(To))"),
    (
        "name = \"VolA\"\nparent = \"Serial\"",
        "name = \"VolA\"",
        "Some(Tree(SecondRoot))",
    ),
    (
        "parent = \"VolA\"",
        "parent = \"A0\"",
        "Some(Tree(ParentUnknown))",
    ),
    (
        "model = \"hierarchical\"",
        "model = \"classical\"",
        "Some(NotClassical { affinity: AffinityId(3) })",
    ),
];

/// The sample with another part in place of the first one like this, which has to be there.
fn is_told_of_change(rt: &impl Abort, alloc: Global, part: &str, new: &str, wanted: &str) {
    let text = changed(rt, alloc, H1, part, new);
    is_told(rt, alloc, text.as_bytes(), wanted);
}

#[test]
fn are_refused_for_one_change(rt: HostRuntime) {
    for (part, new, wanted) in CHANGES {
        is_told_of_change(&rt, rt.alloc(), part, new, wanted);
    }
    let (without_maps, _) = H1.split_once("[[map]]").expect(&rt, "no map");
    let wanted = "Some(Shape { key: Maps })";
    is_told(&rt, rt.alloc(), without_maps.as_bytes(), wanted);
}

#[test]
fn have_the_cells_of_the_limit(rt: HostRuntime) {
    is_told_of_change(&rt, rt.alloc(), "size = 8", "size = 262134", "None");
}

/// A line before the sample with one change: the part, what stands in its place, and the refusal.
const FORMATS: &[(&str, &str, &str, &str)] = &[
    ("format = 2", "size = 8", "size = 4294967295", "None"),
    ("format = 0x2", "size = 8", "size = 262145", "None"),
    (
        "format = 2",
        "size = 8",
        "size = 4294967296",
        "Some(Layout(Size))",
    ),
    ("format = 2", "size = 8", "size = 0", "Some(Layout(Size))"),
    ("format = 2", "unit = 2", "unit = 4294967295", "None"),
    (
        "format = 2",
        "unit = 2",
        "unit = 4294967296",
        "Some(Layout(Unit))",
    ),
    (
        "format = 1",
        "size = 8",
        "size = 262145",
        "Some(Layout(Size))",
    ),
    (
        "format = 1",
        "size = 8",
        "size = 262135",
        "Some(Layout(TooManyCells))",
    ),
    ("format = 3", "size = 8", "size = 4294967295", "None"),
    (
        "format = 3",
        "size = 8",
        "size = 4294967296",
        "Some(Layout(Size))",
    ),
    (
        "format = 4",
        "size = 8",
        "size = 262145",
        "Some(Layout(Size))",
    ),
    (
        "format = -2",
        "unit = 2",
        "unit = 262145",
        "Some(Layout(Unit))",
    ),
    (
        "format = 4294967298",
        "unit = 2",
        "unit = 262145",
        "Some(Layout(Unit))",
    ),
    (
        "format = \"2\"",
        "size = 8",
        "size = 262145",
        "Some(Layout(Size))",
    ),
    (
        "format = 2.0",
        "size = 8",
        "size = 262145",
        "Some(Layout(Size))",
    ),
    (
        "format = [2]",
        "size = 8",
        "size = 262145",
        "Some(Layout(Size))",
    ),
    (
        "Format = 2",
        "size = 8",
        "size = 262145",
        "Some(Layout(Size))",
    ),
];

#[test]
fn are_read_by_the_limits_of_their_format(rt: HostRuntime) {
    for (format, part, new, wanted) in FORMATS {
        let sample = changed(&rt, rt.alloc(), H1, part, new);
        let text = format!(in rt.alloc(); "{format}\n{sample}").expect(&rt, "a text");
        is_told(&rt, rt.alloc(), text.as_bytes(), *wanted);
    }
}

const WITH_MORE: &str = "\u{feff}model = 'classical'\nowner = 'ignored'\n\
    [[affinity]]\nname = 'Serial'\n[[affinity]]\nname = 'T0'\nparent = 'Serial'\n\
    [[map]]\nspace = 'f'\nunit = 2\nto = ['T0', 'Serial']\n\
    [[space]]\nname = 'f'\nsize = 8\n";

#[test]
fn are_read_with_what_the_format_does_not_name(rt: HostRuntime) {
    let layout = read_hierarchy(rt.alloc(), WITH_MORE.as_bytes()).expect(&rt, "a hierarchy");
    assert!(rt; layout.format() == Format::F1);
    assert!(rt; layout.kind() == Kind::Classical);
    assert!(rt; layout.tree().len() == 2);
    assert!(rt; layout.tree().parent(AffinityId(1)) == Some(AffinityId(0)));
    assert!(rt; layout.space_count() == 1);
    assert!(rt; layout.space_size(0) == 8);
    let third = Cell { space: 0, index: 2 };
    assert!(rt; layout.has(third));
    assert!(rt; layout.owner(third) == AffinityId(0));
    drop(layout);
}
