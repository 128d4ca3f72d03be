//! The rows that a layout is made of, and why they are refused.

ghost use Rattle.std.specs.Prelude.{◌≡◌, ◌≤◌, ◌==◌, ◌&&◌, not, is_none, length};
ghost use Rattle.std.specs.List.{list_any};
ghost use Rattle.waff_model.specs.Names as names;
ghost use Rattle.waff_model.specs.Tree.{number_of};
ghost use Rattle.waff_model.specs.LayoutRefusal as spec;

use crate::format::Format;
use crate::limits::{MAX_CELLS, MAX_OWNERS, MAX_SPACES};
use crate::locking::Locking;
use crate::name::{Text, is_name};
use crate::texts::Texts;
use crate::tree::Tree;

/// A space to be: its name, its size in cells, and whether these have locks.
#[derive(Drop)]
pub struct SpaceSpec {
    pub name: Text,
    pub size: i64,
    pub locks: Locking,
}

/// A map to be: the name of its space, how many cells in a row go to one affinity, and the names of
/// the affinities that take turns.
#[derive(Drop)]
pub struct MapSpec {
    pub space: Text,
    pub unit: i64,
    pub to: Texts,
}

/// Why rows give no layout. Where several hold, the first is answered.
#[derive(Clone, Copy, Debug, PartialEq)]
pub enum LayoutError {
    /// No space, too many, one whose name is not a name, or a map for no space.
    Space,
    /// A size outside the limit.
    Size,
    /// Two spaces of one name.
    SpaceTwice,
    /// A space without locks and without map.
    NoMap,
    /// A space with two maps.
    MapTwice,
    /// A unit outside the limit.
    Unit,
    /// No owner in a map, too many, or one that is no affinity.
    To,
    /// Too many cells over all spaces, in format 1.
    TooManyCells,
    /// Out of memory.
    Memory,
}

/// The number, if it is one from 1 to the limit.
pub(crate) fn within(n: i64, limit: u32) -> Option<u32>
    ensures { result ≡ spec.within n limit }
{
    if n >= 1 && n <= limit as i64 {
        Some(n as u32)
    } else {
        None
    }
}

/// Why the rows give no layout of this format over the tree.
pub(crate) fn refusal(
    format: Format,
    tree: &Tree,
    spaces: &[SpaceSpec],
    maps: &[MapSpec],
) -> Option<LayoutError>
    ensures { result ≡ spec.layout_refusal format tree.now spaces.now maps.now }
{
    if has_bad_space(spaces, maps) {
        return Some(LayoutError::Space);
    }
    if has_bad_size(format, spaces) {
        return Some(LayoutError::Size);
    }
    if has_space_twice(spaces) {
        return Some(LayoutError::SpaceTwice);
    }
    if has_no_map(spaces, maps) {
        return Some(LayoutError::NoMap);
    }
    if has_map_twice(spaces, maps) {
        return Some(LayoutError::MapTwice);
    }
    if has_bad_unit(format, maps) {
        return Some(LayoutError::Unit);
    }
    if has_bad_owners(tree, maps) {
        return Some(LayoutError::To);
    }
    if has_too_many_cells(format, spaces) {
        return Some(LayoutError::TooManyCells);
    }
    None
}

fn has_bad_space(spaces: &[SpaceSpec], maps: &[MapSpec]) -> bool
    ensures { result ≡ spec.has_bad_space spaces.now maps.now }
{
    (spaces.len() == 0 || MAX_SPACES < spaces.len())
        || (has_bad_name(spaces) || has_strange_map(spaces, maps))
}

fn has_bad_name(spaces: &[SpaceSpec]) -> bool
    ensures { result ≡ list_any (λ s. not (names.is_name s.name)) spaces.now }
{
    spaces.iter().any(|s| !is_name(s.name.as_str()))
}

fn has_strange_map(spaces: &[SpaceSpec], maps: &[MapSpec]) -> bool
    ensures { result ≡ list_any (λ m. spec.spaces_named spaces.now m.space == 0) maps.now }
{
    maps.iter()
        .any(|m| spaces_named(spaces, m.space.as_str()) == 0)
}

fn has_bad_size(format: Format, spaces: &[SpaceSpec]) -> bool
    ensures { result ≡ spec.has_bad_size format spaces.now }
{
    let limit = format.max_size();
    spaces.iter().any(|s| within(s.size, limit).is_none())
}

fn has_space_twice(spaces: &[SpaceSpec]) -> bool
    ensures { result ≡ spec.has_space_twice spaces.now }
{
    spaces
        .iter()
        .any(|s| 1 < spaces_named(spaces, s.name.as_str()))
}

fn has_no_map(spaces: &[SpaceSpec], maps: &[MapSpec]) -> bool
    ensures { result ≡ spec.has_no_map spaces.now maps.now }
{
    spaces.iter().any(|s| !s.locks.are_some() && maps_named(maps, s.name.as_str()) == 0)
}

fn has_map_twice(spaces: &[SpaceSpec], maps: &[MapSpec]) -> bool
    ensures { result ≡ spec.has_map_twice spaces.now maps.now }
{
    spaces.iter().any(|s| 1 < maps_named(maps, s.name.as_str()))
}

fn has_bad_unit(format: Format, maps: &[MapSpec]) -> bool
    ensures { result ≡ spec.has_bad_unit format maps.now }
{
    let limit = format.max_unit();
    maps.iter().any(|m| within(m.unit, limit).is_none())
}

fn has_bad_owners(tree: &Tree, maps: &[MapSpec]) -> bool
    ensures { result ≡ spec.has_bad_owners tree.now maps.now }
{
    maps.iter().any(|m| are_bad_owners(tree, &m.to))
}

fn are_bad_owners(tree: &Tree, to: &Texts) -> bool
    ensures { result ≡ spec.are_bad_owners tree.now to.now }
{
    (to.len() == 0 || MAX_OWNERS < to.len()) || has_unknown_owner(tree, to.as_slice())
}

fn has_unknown_owner(tree: &Tree, to: &[Text]) -> bool
    ensures { result ≡ list_any (λ name. is_none (number_of tree.now name)) to.now }
{
    to.iter().any(|name| tree.find(name.as_str()).is_none())
}

fn has_too_many_cells(format: Format, spaces: &[SpaceSpec]) -> bool
    requires { length spaces.now ≤ MAX_SPACES }
    ensures { result ≡ spec.has_too_many_cells format spaces.now }
{
    match format {
        Format::F1 => {
            let cells: u32 = spaces.iter().map(|s| size_of(Format::F1, s)).sum();
            MAX_CELLS < cells
        }
        Format::F2 | Format::F3 => false,
    }
}

/// The size, 0 where it is not within the limit.
pub(crate) fn size_of(format: Format, space: &SpaceSpec) -> u32
    ensures { result ≡ spec.size_of format space.now }
{
    within(space.size, format.max_size()).unwrap_or(0)
}

/// The unit, 0 where it is not within the limit.
pub(crate) fn unit_of(format: Format, map: &MapSpec) -> u32
    ensures { result ≡ spec.unit_of format map.now }
{
    within(map.unit, format.max_unit()).unwrap_or(0)
}

fn spaces_named(spaces: &[SpaceSpec], name: &str) -> usize
    ensures { result ≡ spec.spaces_named spaces.now name.now }
{
    spaces.iter().filter(|s| s.name.as_str() == name).count()
}

fn maps_named(maps: &[MapSpec], name: &str) -> usize
    ensures { result ≡ spec.maps_named maps.now name.now }
{
    maps.iter().filter(|m| m.space.as_str() == name).count()
}
