//! The spaces and the maps of a hierarchy file.

ghost use Rattle.std.specs.Prelude.{◌≡◌, [], map, unwrap_or, option_copied, IfOk};
ghost use Rattle.toml.specs.Data.{as_str};
ghost use Rattle.toml.specs.View.{view};
ghost use Rattle.waff_read.specs.Spaces.{space_of, map_of, locks_named, locks_at, locks_of};

use crate::document::{integer, rows, text};
use std::alloc::{AllocError, Global};
use toml::Value;
use waff_model::{Format, Locking, MapSpec, SpaceSpec, Text, Texts};

/// The spaces of these rows.
pub(crate) fn read_spaces(
    alloc: Global,
    format: Format,
    rows: &[Value],
) -> Result<Vec<SpaceSpec>, AllocError>
    ensures { IfOk result (λ v. v.items ≡ map (λ row. space_of format (view row)) rows.now) }
{
    let mut spaces = Vec::with_capacity(alloc, rows.len())?;
    for row in rows {
        spaces.push_reserved(read_space(alloc, format, row)?);
    }
    Ok(spaces)
}

/// The maps of these rows.
pub(crate) fn read_maps(alloc: Global, rows: &[Value]) -> Result<Vec<MapSpec>, AllocError>
    ensures { IfOk result (λ v. v.items ≡ map (λ row. map_of (view row)) rows.now) }
{
    let mut maps = Vec::with_capacity(alloc, rows.len())?;
    for row in rows {
        maps.push_reserved(read_map(alloc, row)?);
    }
    Ok(maps)
}

fn read_space(alloc: Global, format: Format, row: &Value) -> Result<SpaceSpec, AllocError>
    ensures { IfOk result (λ space. space ≡ space_of format (view row.now)) }
{
    Ok(SpaceSpec {
        name: read_text(alloc, text(row, "name"))?,
        size: integer(row, "size").unwrap_or(0),
        locks: read_locks(format, row),
    })
}

/// The locks of the space of a row.
fn read_locks(format: Format, row: &Value) -> Locking
    ensures { result ≡ locks_of format (view row.now) }
{
    if format.may_lock() {
        named_locks(row).unwrap_or(Locking::Unlocked)
    } else {
        Locking::Unlocked
    }
}

/// The locks that a row names.
pub(crate) fn named_locks(row: &Value) -> Option<Locking>
    ensures { result ≡ locks_at (view row.now) }
{
    match text(row, "locks") {
        Some(name) => locks_named(name),
        None => None,
    }
}

fn locks_named(name: &str) -> Option<Locking>
    ensures { result ≡ locks_named name.now }
{
    if name == "exclusive" {
        Some(Locking::Exclusive)
    } else if name == "shared" {
        Some(Locking::Shared)
    } else {
        None
    }
}

#[tactic(auto, using(crate::proofs::DocumentLemmas::map_map))]
fn read_map(alloc: Global, row: &Value) -> Result<MapSpec, AllocError>
    ensures { IfOk result (λ m. m ≡ map_of (view row.now)) }
{
    Ok(MapSpec {
        space: read_text(alloc, text(row, "space"))?,
        unit: integer(row, "unit").unwrap_or(0),
        to: read_texts(alloc, rows(row, "to"))?,
    })
}

/// A copy of the text, the empty one where there is none.
fn read_text(alloc: Global, text: Option<&str>) -> Result<Text, AllocError>
    ensures { IfOk result (λ t. t ≡ unwrap_or (option_copied text.entry) []) }
{
    match text {
        Some(text) => Text::of(alloc, text),
        None => Text::of(alloc, ""),
    }
}

fn read_texts(alloc: Global, items: &[Value]) -> Result<Texts, AllocError>
    ensures { IfOk result (λ t. t ≡ map (λ text. unwrap_or (as_str (view text)) []) items.now) }
{
    let mut texts = Texts::new(alloc);
    for item in items {
        texts.push(read_text(alloc, item.as_str())?)?;
    }
    Ok(texts)
}
