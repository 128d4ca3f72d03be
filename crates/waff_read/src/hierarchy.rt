//! The reader of hierarchies.

ghost use Rattle.std.specs.Prelude.{◌≡◌, ◌<◌, length, nat_lt, option_map, unwrap_or, ok_or};
ghost use Rattle.std.specs.Prelude.{IfOk};
ghost use Rattle.toml.specs.View.{view};
ghost use Rattle.waff_parse.specs.Refusals.{told};
ghost use Rattle.waff_model.specs.LayoutOf.{layout_of};
ghost use Rattle.waff_model.specs.Tree.{parent_of};
ghost use Rattle.waff_read.specs.Checks.{passed};
ghost use Rattle.waff_read.specs.Affinities.{tree_in};
ghost use Rattle.waff_read.specs.Documents.{document_of};
ghost use Rattle.waff_read.specs.Formats.{format_of, format_numbered};
ghost use Rattle.waff_read.specs.Shapes.{shape_refusal};
ghost use Rattle.waff_read.specs.HierRefusals.{Reads, shape_error, tree_error, layout_error};
ghost use Rattle.waff_read.specs.Hierarchies.{kind_of, kind_named};
ghost use Rattle.waff_read.specs.Hierarchies.{kind_refusal, third_level_of};
ghost use Rattle.waff_read.specs.Hierarchies.{layout_at, layout_in, hierarchy_of};
ghost use Rattle.waff_read.specs.Spaces.{spaces_in, maps_in};

use crate::affinities::read_tree;
use crate::document::{integer, rows, text};
use crate::hier_error::HierError;
use crate::shape::shape_refusal;
use crate::spaces::{read_maps, read_spaces};
use std::alloc::{AllocError, Global};
use toml::Value;
use waff_model::{AffinityId, Format, Kind, Layout, LayoutError, MapSpec, SpaceSpec, Tree};
use waff_parse::Stop;

/// Reads a hierarchy file: the layout that it describes, or the first check that fails.
pub fn read_hierarchy(alloc: Global, bytes: &[u8]) -> Result<Layout, HierError>
    ensures { Reads (λ layout. layout) result (hierarchy_of bytes.now) }
{
    let document = read_document(alloc, bytes)?;
    read_layout(alloc, &document)
}

/// The document that the bytes are.
fn read_document(alloc: Global, bytes: &[u8]) -> Result<Value, HierError>
    ensures { Reads view result (ok_or (document_of bytes.now) HierError.Toml) }
{
    match toml::table_from_slice(alloc, bytes) {
        Ok(table) => Ok(Value::Table(table)),
        Err(e) => {
            if e.is_memory() {
                Err(HierError::Memory)
            } else {
                Err(HierError::Toml)
            }
        }
    }
}

/// The layout that the document describes.
fn read_layout(alloc: Global, document: &Value) -> Result<Layout, HierError>
    ensures { Reads (λ layout. layout) result (layout_in (view document.now)) }
{
    let kind = read_kind(document)?;
    check_shape(document)?;
    let tree = read_affinities(alloc, document)?;
    check_kind(kind, &tree)?;
    lay_out(alloc, kind, tree, document)
}

/// The format of the document, the first where it names none.
pub fn read_format(document: &Value) -> Format
    ensures { result ≡ format_of (view document.now) }
{
    match integer(document, "format") {
        Some(number) => format_numbered(number),
        None => Format::F1,
    }
}

/// The format of this number.
fn format_numbered(number: i64) -> Format
    ensures { result ≡ format_numbered number }
{
    if number == 2 {
        Format::F2
    } else if number == 3 {
        Format::F3
    } else {
        Format::F1
    }
}

/// The kind that the document names as its model.
fn read_kind(document: &Value) -> Result<Kind, HierError>
    ensures { result ≡ ok_or (kind_of (view document.now)) HierError.Model }
{
    match text(document, "model") {
        Some(name) => kind_named(name).ok_or(HierError::Model),
        None => Err(HierError::Model),
    }
}

fn kind_named(name: &str) -> Option<Kind>
    ensures { result ≡ kind_named name.now }
{
    if name == "classical" {
        Some(Kind::Classical)
    } else if name == "hierarchical" {
        Some(Kind::Hierarchical)
    } else {
        None
    }
}

/// The keys have values of their types.
fn check_shape(document: &Value) -> Result<(), HierError>
    ensures { result ≡ passed (option_map shape_error (shape_refusal (view document.now))) }
{
    match shape_refusal(document) {
        Some(key) => Err(HierError::Shape { key }),
        None => Ok(()),
    }
}

/// The tree of the document's affinities.
fn read_affinities(alloc: Global, document: &Value) -> Result<Tree, HierError>
    ensures { Reads (λ tree. tree) result
        (told tree_error (tree_in (view document.now))) }
{
    match read_tree(alloc, read_format(document), rows(document, "affinity")) {
        Ok(tree) => Ok(tree),
        Err(Stop::Memory) => Err(HierError::Memory),
        Err(Stop::Fault(e)) => Err(HierError::Tree(e)),
    }
}

/// A classical tree has two levels at most.
fn check_kind(kind: Kind, tree: &Tree) -> Result<(), HierError>
    ensures { result ≡ passed (kind_refusal kind tree.now) }
{
    match kind {
        Kind::Classical => match third_level(tree) {
            Some(affinity) => Err(HierError::NotClassical { affinity }),
            None => Ok(()),
        },
        Kind::Hierarchical => Ok(()),
    }
}

/// The first affinity whose parent is another than the root.
fn third_level(tree: &Tree) -> Option<AffinityId>
    ensures { option_map (λ a. a.0) result ≡ third_level_of tree.now }
{
    for number in 0..tree.len() {
        let affinity = AffinityId(number as u16);
        if is_below_child(tree, affinity) {
            return Some(affinity);
        }
    }
    None
}

/// Whether the parent of the affinity is another than the root.
fn is_below_child(tree: &Tree, affinity: AffinityId) -> bool
    requires { affinity.0 < length tree.now }
    ensures { result ≡ nat_lt 0 (unwrap_or (parent_of tree.now affinity.0) 0) }
{
    match tree.parent(affinity) {
        Some(parent) => 0 < parent.0,
        None => false,
    }
}

/// The layout of the document's spaces and maps over the tree, in its format.
fn lay_out(alloc: Global, kind: Kind, tree: Tree, document: &Value) -> Result<Layout, HierError>
    ensures { Reads (λ layout.
        layout) result (told layout_error (layout_at kind tree (view document.now))) }
{
    match read_rows(alloc, document) {
        Ok((spaces, maps)) => {
            let format = read_format(document);
            layout_of(alloc, format, kind, tree, &spaces, &maps)
        }
        Err(_) => Err(HierError::Memory),
    }
}

/// The spaces and the maps of the document.
fn read_rows(alloc: Global, document: &Value) -> Result<(Vec<SpaceSpec>, Vec<MapSpec>), AllocError>
    ensures spaces { IfOk result (λ rows. rows.0.items ≡ spaces_in (view document.now)) }
    ensures maps { IfOk result (λ rows. rows.1.items ≡ maps_in (view document.now)) }
{
    let format = read_format(document);
    let spaces = read_spaces(alloc, format, rows(document, "space"))?;
    match read_maps(alloc, rows(document, "map")) {
        Ok(maps) => Ok((spaces, maps)),
        Err(error) => Err(error),
    }
}

/// The layout of these spaces and maps over the tree.
fn layout_of(
    alloc: Global,
    format: Format,
    kind: Kind,
    tree: Tree,
    spaces: &[SpaceSpec],
    maps: &[MapSpec],
) -> Result<Layout, HierError>
    ensures { Reads (λ layout.
        layout) result (told layout_error (layout_of format kind tree spaces.now maps.now)) }
{
    match Layout::with_format(alloc, format, kind, tree, spaces, maps) {
        Ok(layout) => Ok(layout),
        Err(e) => match e {
            LayoutError::Memory => Err(HierError::Memory),
            refusal => Err(HierError::Layout(refusal)),
        },
    }
}
