//! The tree of the affinities of a hierarchy file.

ghost use Rattle.std.specs.Prelude.{◌≡◌, ◌≤◌, ◌∷◌, [], ◌++◌, length, map, option_map, codes, OnOk};
ghost use Rattle.toml.specs.View.{view};
ghost use Rattle.waff_parse.specs.Stopping.{Gives};
ghost use Rattle.waff_model.specs.TreeRefusal.{refusal_of};
ghost use Rattle.waff_read.specs.Checks.{passed};
ghost use Rattle.waff_read.specs.Documents.{text_at};
ghost use Rattle.waff_read.specs.Affinities.{name_at, place_of, node_in, is_affinity_name};
ghost use Rattle.waff_read.specs.Affinities.{tree_from, tree_of};

use crate::document::text;
use crate::names::Names;
use std::alloc::Global;
use toml::Value;
use waff_model::limits::MAX_AFFINITIES;
use waff_model::{AffinityId, Format, Tree, TreeBuilder, TreeError, is_name};
use waff_parse::Stop;

/// The tree of these rows; the first that is refused decides.
pub(crate) fn read_tree(
    alloc: Global,
    format: Format,
    rows: &[Value],
) -> Result<Tree, Stop<TreeError>>
    ensures { Gives (λ tree. tree) result (tree_of format (map view rows.now)) }
{
    if rows.is_empty() {
        return Err(Stop::Fault(TreeError::NoRoot));
    }
    let mut tree = TreeBuilder::new(alloc);
    match add_rows(alloc, format, &mut tree, rows) {
        Ok(()) => match tree.build() {
            Ok(tree) => Ok(tree),
            // Nothing but memory is refused to a builder that has a root.
            Err(_) => Err(Stop::Memory),
        },
        Err(stop) => Err(stop),
    }
}

/// Adds the affinities of these rows to a builder to which nothing was added.
fn add_rows(
    alloc: Global,
    format: Format,
    tree: &mut TreeBuilder,
    rows: &[Value],
) -> Result<(), Stop<TreeError>>
    requires { tree.old ≡ [] }
    ensures { Gives (λ done. tree.new) result (tree_from format [] (map view rows.now)) }
{
    let mut names = Names::new(alloc);
    for row in rows {
        if !is_affinity_name(format, name_of(row)) {
            return Err(Stop::Fault(TreeError::Name));
        }
        add_row(&mut names, tree, row)?;
    }
    Ok(())
}

/// Adds the affinity of a row. The names are those of the tree.
fn add_row(names: &mut Names, tree: &mut TreeBuilder, row: &Value) -> Result<(), Stop<TreeError>>
    requires names { names.old ≡ map (λ node. node.name) tree.old }
    requires few { length names.old ≤ MAX_AFFINITIES }
    ensures checked { Gives (λ done.
        done) result (passed (refusal_of tree.old (node_in tree.old (view row.now)))) }
    ensures added { OnOk result (tree.new ≡ tree.old ++ node_in tree.old (view row.now) ∷ []) }
    ensures names { OnOk result (names.new ≡ map (λ node. node.name) tree.new) }
    ensures few { OnOk result (length names.new ≤ MAX_AFFINITIES) }
{
    let name = name_of(row);
    let parent = parent_of(names, row);
    match tree.add(name, parent) {
        Ok(_) => {}
        Err(TreeError::Memory) => return Err(Stop::Memory),
        Err(e) => return Err(Stop::Fault(e)),
    }
    names.push(name)?;
    Ok(())
}

/// Whether an affinity may have this name.
fn is_affinity_name(format: Format, name: &str) -> bool
    ensures { result ≡ is_affinity_name format name.now }
{
    is_name(name) && !(format.may_lock() && name == "-")
}

/// The name of the affinity of a row.
fn name_of(row: &Value) -> &str
    ensures { result.now ≡ name_at (view row.now) }
{
    match text(row, "name") {
        Some(name) => name,
        None => "",
    }
}

/// The parent of the affinity of a row: where no affinity has the name, a number that no affinity
/// has.
fn parent_of(names: &Names, row: &Value) -> Option<AffinityId>
    requires { length names.now ≤ MAX_AFFINITIES }
    ensures { option_map (λ p. p.0) result
        ≡ option_map (place_of names.now) (text_at (codes "parent") (view row.now)) }
{
    match text(row, "parent") {
        Some(parent) => Some(AffinityId(place(names, parent))),
        None => None,
    }
}

/// The place of the name, or one past the last place that there can be.
fn place(names: &Names, name: &str) -> u16
    requires { length names.now ≤ MAX_AFFINITIES }
    ensures { result ≡ place_of names.now name.now }
{
    match names.number(name) {
        Some(number) => number as u16,
        None => MAX_AFFINITIES as u16,
    }
}
