//! Layouts: spaces of cells over a tree of affinities, and which affinity owns each cell.

ghost use Rattle.std.specs.List.{list_all, zip};
ghost use Rattle.std.specs.Str.{bytes_eq};
ghost use Rattle.std.specs.Prelude.{◌≡◌, ◌↔◌, ◌+◌, ◌<◌, ◌≤◌, ◌==◌, ◌&&◌, length, map, find};
ghost use Rattle.std.specs.Prelude.{[], ◌∷◌, ◌++◌, false};
ghost use Rattle.std.specs.Prelude.{option_map, unwrap_or, None, Some, IsTrue, IfOk, IfErr, IfSome, OnOk};
ghost use Rattle.waff_model.specs.Tree.{IsTree, number_of};
ghost use Rattle.waff_model.specs.Layout.{IsLayout, IsCell, SameSpaces, name_at, size_at};
ghost use Rattle.waff_model.specs.Layout.{unit_at, owners_at, locking_of};
ghost use Rattle.waff_model.specs.Layout.{has_locks, unlocked, unlocked_space};
ghost use Rattle.waff_model.specs.Layout.{lockings_of, spaces_with, with_lockings};
ghost use Rattle.waff_model.specs.Layout.{space_named, owner_of, HasFewCells};
ghost use Rattle.waff_model.specs.LayoutOf.{owners_of, map_of, space_of, hierarchy_of};
ghost use Rattle.waff_model.specs.LayoutRefusal.{layout_refusal};
ghost use Rattle.waff_model.specs.declared.format.Format.TheVariants.{F1};

use crate::cell::Cell;
use crate::format::Format;
use crate::kind::Kind;
use crate::layout_rows::{LayoutError, MapSpec, SpaceSpec, refusal, size_of, unit_of};
use crate::limits::MAX_CELLS;
use crate::locking::Locking;
use crate::name::Text;
use crate::space::Space;
use crate::tree::{AffinityId, Tree};
use std::alloc::{AllocError, Global};
use std::marker::Model;
use std::sync::Arc;

/// Spaces of cells, numbered from 0, each with a map that gives its cells to affinities of a tree.
pub struct Layout {
    format: Format,
    kind: Kind,
    /// Shared with the layouts that differ from this one in their locks alone.
    tree: Arc<Tree>,
    spaces: Vec<Space>,
}

impl Model for Layout {
    ghost use Rattle.waff_model.specs.Layout.{Hierarchy, IsLayout};

    ghost Value = { Hierarchy };

    ghost view = { λ l. record {
      format = l.format;
      kind = l.kind;
      tree = l.tree.value;
      spaces = l.spaces.items;
    } };

    ghost invariant = { λ l. IsLayout (record {
      format = l.format;
      kind = l.kind;
      tree = l.tree.value;
      spaces = l.spaces.items;
    }) };
}

// Written out: a derived drop is proved again in each crate that lets go of the value.
impl Drop for Layout {
    fn drop(self) {
        let Layout {
            format: _,
            kind: _,
            tree,
            spaces,
        } = self;
        drop(tree);
        drop(spaces);
    }
}

impl Layout {
    /// The layout of these spaces and maps over the tree, of spaces as large as format 1 allows. Spaces
    /// are numbered from 0 in the order given.
    pub fn new(
        alloc: Global,
        kind: Kind,
        tree: Tree,
        spaces: &[SpaceSpec],
        maps: &[MapSpec],
    ) -> Result<Layout, LayoutError>
        ensures kept { IfOk result (λ layout.
            layout ≡ hierarchy_of F1 kind tree spaces.now maps.now) }
        ensures accepted { OnOk result (layout_refusal F1 tree spaces.now maps.now ≡ None) }
        ensures refused { IfErr result (λ e.
            e ≡ unwrap_or (layout_refusal F1 tree spaces.now maps.now) LayoutError.Memory) }
    {
        Layout::with_format(alloc, Format::F1, kind, tree, spaces, maps)
    }

    /// The layout of these spaces and maps over the tree, of spaces as large as the format allows.
    pub fn with_format(
        alloc: Global,
        format: Format,
        kind: Kind,
        tree: Tree,
        spaces: &[SpaceSpec],
        maps: &[MapSpec],
    ) -> Result<Layout, LayoutError>
        ensures kept { IfOk result (λ layout.
            layout ≡ hierarchy_of format kind tree spaces.now maps.now) }
        ensures accepted { OnOk result (layout_refusal format tree spaces.now maps.now ≡ None) }

        // Memory is answered only where nothing else is to be refused.
        ensures refused { IfErr result (λ e.
            e ≡ unwrap_or (layout_refusal format tree spaces.now maps.now) LayoutError.Memory) }
    {
        match spaces_or_refusal(alloc, format, &tree, spaces, maps) {
            Ok(spaces) => match shared_tree(alloc, tree) {
                Ok(tree) => Ok(Layout {
                    format,
                    kind,
                    tree,
                    spaces,
                }),
                Err(_) => Err(LayoutError::Memory),
            },
            Err(refusal) => Err(refusal),
        }
    }

    /// The format, which says how large the spaces may be.
    pub fn format(&self) -> Format
        ensures { result ≡ self.now.format }
    {
        self.format
    }

    /// Whether the hierarchy is a classical or a hierarchical one.
    pub fn kind(&self) -> Kind
        ensures { result ≡ self.now.kind }
    {
        self.kind
    }

    /// The tree of affinities.
    pub fn tree(&self) -> &Tree
        ensures { result.now ≡ self.now.tree }
    {
        &self.tree
    }

    /// How many spaces there are.
    pub fn space_count(&self) -> u32
        ensures count { result ≡ length self.now.spaces }
        ensures layout { IsLayout self.now }
    {
        self.spaces.len() as u32
    }

    /// The name of the space, from 0.
    pub fn space_name(&self, s: u32) -> &str
        requires { s < length self.now.spaces }
        ensures { name_at self.now.spaces s ≡ Some result.now }
    {
        let space = &self.spaces[s as usize];
        space.name()
    }

    /// The size of the space, in cells.
    pub fn space_size(&self, s: u32) -> u32
        requires { s < length self.now.spaces }
        ensures { result ≡ size_at self.now.spaces s }
    {
        let space = &self.spaces[s as usize];
        space.size()
    }

    /// How many cells in a row the map of the space gives to one owner.
    pub fn space_unit(&self, s: u32) -> u32
        requires { s < length self.now.spaces }
        ensures unit { result ≡ unit_at self.now.spaces s }
        ensures whole { 0 < result }
    {
        let space = &self.spaces[s as usize];
        space.unit()
    }

    /// How many owners the map of the space lists, each as often as it is listed.
    pub fn space_owners(&self, s: u32) -> u32
        requires { s < length self.now.spaces }
        ensures owners { result ≡ owners_at self.now.spaces s }
        ensures owned { 0 < result }
    {
        let space = &self.spaces[s as usize];
        space.to().len() as u32
    }

    /// The space with this name.
    pub fn find_space(&self, name: &str) -> Option<u32>
        ensures found { result ≡ space_named self.now.spaces name.now }
        ensures within { IfSome result (λ s. s < length self.now.spaces) }
    {
        match position(&self.spaces, name) {
            Some(s) => Some(s as u32),
            None => None,
        }
    }

    /// The spaces, by number.
    pub(crate) fn spaces(&self) -> &[Space]
        ensures { result.now ≡ self.now.spaces }
    {
        &self.spaces
    }

    /// Whether both layouts have the same spaces: equal lists of names and of sizes.
    pub fn same_spaces(&self, other: &Layout) -> bool
        ensures { IsTrue result ↔ SameSpaces self.now.spaces other.now.spaces }
    {
        are_same(&self.spaces, &other.spaces)
    }

    /// Whether there are few cells over all spaces, so that each can be kept.
    pub fn has_few_cells(&self) -> bool
        ensures { IsTrue result ↔ HasFewCells self.now.spaces }
    {
        let cells: u64 = self
            .spaces
            .iter()
            .map(|space| u64::from(space.size()))
            .sum();
        cells <= u64::from(MAX_CELLS)
    }

    /// Whether the cell lies in one of the spaces.
    pub fn has(&self, cell: Cell) -> bool
        ensures { IsTrue result ↔ IsCell self.now.spaces cell }
    {
        match self.spaces.get(cell.space as usize) {
            Some(space) => cell.index < space.size(),
            None => false,
        }
    }

    /// The affinity that owns the cell.
    pub fn owner(&self, cell: Cell) -> AffinityId
        requires { IsCell self.now.spaces cell }
        ensures owner { result.0 ≡ owner_of self.now.spaces cell }
        ensures within { result.0 < length self.now.tree }
    {
        let space = &self.spaces[cell.space as usize];
        let to = space.to();
        AffinityId(to[(cell.index / space.unit()) as usize % to.len()])
    }

    /// Whether the cell has a lock, and of which kind.
    pub fn locking(&self, cell: Cell) -> Locking
        requires { IsCell self.now.spaces cell }
        ensures { result ≡ locking_of self.now.spaces cell }
    {
        self.spaces[cell.space as usize].locks()
    }

    /// Whether some space has locks.
    pub fn has_locks(&self) -> bool
        ensures { result ≡ has_locks self.now.spaces }
    {
        self.spaces.iter().any(|space| space.locks().are_some())
    }

    /// The layout with no locks, made in place: names, sizes and maps stay.
    pub fn without_locks(self) -> Layout
        ensures layout { result ≡ unlocked self }
        ensures none { has_locks result.spaces ≡ false }
    {
        let Layout {
            format,
            kind,
            tree,
            mut spaces,
        } = self;
        unlock(&mut spaces);
        Layout {
            format,
            kind,
            tree,
            spaces,
        }
    }
}

impl Layout {
    /// The kinds of locks of all spaces.
    pub fn lockings(&self, alloc: Global) -> Result<Vec<Locking>, AllocError>
        ensures { IfOk result (λ lockings. lockings.items ≡ lockings_of self.now.spaces) }
    {
        lockings(alloc, &self.spaces)
    }

    /// The layout with these kinds of locks, one for each space: names, sizes and maps stay, and both share the tree.
    pub fn with_lockings(&self, alloc: Global, lockings: &[Locking]) -> Result<Layout, AllocError>
        requires { length lockings.now ≡ length self.now.spaces }
        ensures { IfOk result (λ layout. layout ≡ with_lockings self.now lockings.now) }
    {
        let spaces = with_lockings(alloc, &self.spaces, lockings)?;
        Ok(Layout {
            format: self.format,
            kind: self.kind,
            tree: Arc::try_clone(&self.tree)?,
            spaces,
        })
    }
}

/// The tree, to be shared.
fn shared_tree(alloc: Global, tree: Tree) -> Result<Arc<Tree>, AllocError>
    ensures { IfOk result (λ shared. shared.value ≡ tree) }
{
    Ok(Arc::new(alloc, tree)?)
}

/// The kinds of locks of the spaces.
fn lockings(alloc: Global, spaces: &[Space]) -> Result<Vec<Locking>, AllocError>
    ensures { IfOk result (λ lockings. lockings.items ≡ lockings_of spaces.now) }
{
    spaces.iter().map(|space| space.locks()).collect(alloc)
}

/// The spaces with these kinds of locks.
fn with_lockings(
    alloc: Global,
    spaces: &[Space],
    lockings: &[Locking],
) -> Result<Vec<Space>, AllocError>
    requires { length lockings.now ≡ length spaces.now }
    ensures { IfOk result (λ made. made.items ≡ spaces_with spaces.now lockings.now) }
{
    let mut made = Vec::with_capacity(alloc, spaces.len())?;
    for s in 0..spaces.len() {
        made.push(spaces[s].with_locks(alloc, lockings[s])?)?;
    }
    Ok(made)
}

/// Takes the locks of all spaces away.
fn unlock(spaces: &mut Vec<Space>)
    ensures { spaces.new.items ≡ map unlocked_space spaces.old.items }
{
    for space in spaces.iter_mut() {
        space.locks = Locking::Unlocked;
    }
}

/// The spaces of the rows, with their maps, or why the rows are refused.
fn spaces_or_refusal(
    alloc: Global,
    format: Format,
    tree: &Tree,
    spaces: &[SpaceSpec],
    maps: &[MapSpec],
) -> Result<Vec<Space>, LayoutError>
    ensures spaces { IfOk result (λ v.
        v.items ≡ map (space_of format tree.now maps.now) spaces.now) }
    ensures accepted { OnOk result (layout_refusal format tree.now spaces.now maps.now ≡ None) }
    ensures refused { IfErr result (λ e.
        e ≡ unwrap_or (layout_refusal format tree.now spaces.now maps.now) LayoutError.Memory) }
{
    if let Some(refusal) = refusal(format, tree, spaces, maps) {
        return Err(refusal);
    }
    match spaces_of(alloc, format, tree, spaces, maps) {
        Ok(spaces) => Ok(spaces),
        Err(_) => Err(LayoutError::Memory),
    }
}

/// Whether the spaces have the same names and sizes.
fn are_same(spaces: &[Space], others: &[Space]) -> bool
    ensures { IsTrue result ↔ SameSpaces spaces.now others.now }
{
    spaces.len() == others.len() && each_is_same(spaces, others)
}

fn each_is_same(spaces: &[Space], others: &[Space]) -> bool
    ensures { result ≡ list_all (λ pair. bytes_eq pair.0.name pair.1.name
        && pair.0.size == pair.1.size) (zip spaces.now others.now) }
{
    spaces.iter().zip(others).all(|(space, other)| space.name() == other.name()
        && space.size() == other.size())
}

/// The spaces with their maps.
fn spaces_of(
    alloc: Global,
    format: Format,
    tree: &Tree,
    spaces: &[SpaceSpec],
    maps: &[MapSpec],
) -> Result<Vec<Space>, AllocError>
    ensures { IfOk result (λ v. v.items ≡ map (space_of format tree.now maps.now) spaces.now) }
{
    let mut made = Vec::with_capacity(alloc, spaces.len())?;
    for space in spaces {
        add_space(&mut made, format, tree, maps, space)?;
    }
    Ok(made)
}

/// Appends the space of a row, with its map; where it has none, all its cells go to the root.
fn add_space(
    made: &mut Vec<Space>,
    format: Format,
    tree: &Tree,
    maps: &[MapSpec],
    space: &SpaceSpec,
) -> Result<(), AllocError>
    ensures { OnOk result (made.new.items
        ≡ made.old.items ++ space_of format tree.now maps.now space.now ∷ []) }
{
    let alloc = *made.allocator();
    let (unit, to) = match find_map(maps, space.name.as_str()) {
        Some(map) => (
            unit_of(format, map),
            owners(alloc, tree, map.to.as_slice())?,
        ),
        None => (1, vec![in alloc; 0; 1]?),
    };
    let name = Text::of(alloc, space.name.as_str())?;
    let size = size_of(format, space);
    made.push(Space {
        name,
        size,
        unit,
        to,
        locks: space.locks,
    })?;
    Ok(())
}

fn find_map<'a>(maps: &'a [MapSpec], name: &str) -> Option<&'a MapSpec>
    ensures { option_map (λ m. m.now) result ≡ map_of maps.now name.now }
{
    maps.iter().find(|m| m.space.as_str() == name)
}

/// The numbers of the affinities with these names.
fn owners(alloc: Global, tree: &Tree, names: &[Text]) -> Result<Vec<u16>, AllocError>
    ensures { IfOk result (λ v. v.items ≡ owners_of tree.now names.now) }
{
    names
        .iter()
        .map(|name| number(tree, name.as_str()))
        .collect(alloc)
}

/// The number of the affinity with this name, 0 where there is none.
fn number(tree: &Tree, name: &str) -> u16
    ensures { result ≡ unwrap_or (number_of tree.now name.now) 0 }
{
    match tree.find(name) {
        Some(affinity) => affinity.0,
        None => 0,
    }
}

/// The number of the space with this name.
fn position(spaces: &[Space], name: &str) -> Option<usize>
    ensures found { result ≡ space_named spaces.now name.now }
    ensures within { IfSome result (λ s. s < length spaces.now) }
{
    spaces.iter().position(|space| name == space.name())
}
