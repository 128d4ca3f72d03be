//! The spaces of a layout, found by name in one step.

ghost use Rattle.std.specs.Prelude.{◌≡◌, ◌<◌, length, IfOk, IfSome, true};
ghost use Rattle.waff_model.specs.Layout.{IsLayout, names_of, size_at, space_named};
ghost use Rattle.waff_model.specs.Names.{is_name};

use crate::names::Names;
use std::alloc::{AllocError, Global};
use std::marker::Model;
use waff_model::Layout;

/// How many shelves there are for spaces.
const SHELVES: usize = 1024;

/// A layout, with a table of the names of its spaces, and on each shelf a space whose name may end
/// in the bytes of that shelf. Most names are found on their shelf, without a hash.
#[derive(Drop)]
pub(crate) struct SpaceTable<'a> {
    layout: &'a Layout,
    names: Names,
    shelves: Vec<u32>,
}

impl<'a> Model for SpaceTable<'a> {
    ghost use Rattle.std.specs.Prelude.{◌≡◌, List, length};
    ghost use Rattle.waff_model.specs.Layout.{IsLayout, Space, names_of};
    ghost use Rattle.waff_read.specs.declared.space_table.TheConstants.{SHELVES};

    ghost Value = { List Space };

    ghost view = { λ t. t.layout.now.spaces };

    ghost invariant = { λ t. IsLayout t.layout.now × (t.names ≡ names_of t.layout.now.spaces)
        × (length t.shelves.items ≡ SHELVES) };
}

impl<'a> SpaceTable<'a> {
    /// The table of a layout.
    pub(crate) fn new(alloc: Global, layout: &'a Layout) -> Result<Self, AllocError>
        ensures { IfOk result (λ table. table ≡ layout.now.spaces) }
    {
        let names = space_names(alloc, layout)?;
        let shelves = space_shelves(alloc, layout)?;
        Ok(SpaceTable {
            layout,
            names,
            shelves,
        })
    }

    /// The layout that it is of.
    pub(crate) fn layout(&self) -> &Layout
        ensures { result.now.spaces ≡ self.now }
    {
        self.layout
    }

    /// The number of the space with this name.
    pub(crate) fn find(&self, name: &str) -> Option<u32>
        ensures found { result ≡ space_named self.now name.now }
        ensures within { IfSome result (λ s. s < length self.now) }
        ensures named { IfSome result (λ s. is_name name.now ≡ true) }
    {
        let space = self.shelves[shelf_of(name.as_bytes())];
        if space < self.layout.space_count() && self.layout.space_name(space) == name {
            return Some(space);
        }
        match self.names.number(name) {
            Some(s) => Some(s as u32),
            None => None,
        }
    }

    /// The size of the space with this number, in cells.
    pub(crate) fn size(&self, s: u32) -> u32
        requires { s < length self.now }
        ensures { result ≡ size_at self.now s }
    {
        let layout = self.layout;
        layout.space_size(s)
    }
}

/// The shelf of a name, by its last two bytes.
fn shelf_of(name: &[u8]) -> usize
    ensures { result < SHELVES }
{
    match name {
        [.., second, last] => (usize::from(*second) * 37 + usize::from(*last)) % SHELVES,
        [last] => usize::from(*last),
        [] => 0,
    }
}

/// The spaces on their shelves, the last one of each.
fn space_shelves(alloc: Global, layout: &Layout) -> Result<Vec<u32>, AllocError>
    ensures { IfOk result (λ shelves. length shelves.items ≡ SHELVES) }
{
    let mut shelves = vec![in alloc; 0; SHELVES]?;
    for space in 0..layout.space_count() {
        shelves[shelf_of(layout.space_name(space).as_bytes())] = space;
    }
    Ok(shelves)
}

/// The names of the spaces, in their order.
fn space_names(alloc: Global, layout: &Layout) -> Result<Names, AllocError>
    ensures names { IfOk result (λ names. names ≡ names_of layout.now.spaces) }
    ensures layout { IsLayout layout.now }
{
    let mut names = Names::new(alloc);
    for s in 0..layout.space_count() {
        names.push(layout.space_name(s))?;
    }
    Ok(names)
}
