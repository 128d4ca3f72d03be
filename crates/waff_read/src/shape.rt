//! Which key of a document is missing or of another type than it should be.

ghost use Rattle.std.specs.Prelude.{◌≡◌, ◌&&◌, ◌||◌, codes, is_none};
ghost use Rattle.std.specs.List.{list_any};
ghost use Rattle.toml.specs.Data.{as_str, as_table};
ghost use Rattle.toml.specs.View.{view};
ghost use Rattle.waff_model.specs.Formats.{may_lock};
ghost use Rattle.waff_model.specs.Refusals.{first_refusal};
ghost use Rattle.waff_read.specs.Formats.{format_of};
ghost use Rattle.waff_read.specs.Shapes as shapes;

use crate::document::{integer, items, rows, text};
use crate::hier_error::Key;
use crate::hierarchy::read_format;
use crate::spaces::named_locks;
use toml::Value;

/// The first key that is missing or of another type.
pub(crate) fn shape_refusal(document: &Value) -> Option<Key>
    ensures { result ≡ shapes.shape_refusal (view document.now) }
{
    let affinities = rows(document, "affinity");
    let spaces = rows(document, "space");
    let maps = rows(document, "map");
    first_refusal(&[
        (lacks_tables(document, "affinity"), Key::Affinities),
        (lacks_tables(document, "space"), Key::Spaces),
        (lacks_maps(document), Key::Maps),
        (lacks_names(affinities, spaces), Key::Name),
        (any_has_other_than_text(affinities, "parent"), Key::Parent),
        (any_lacks_integer(spaces, "size"), Key::Size),
        (any_lacks_text(maps, "space"), Key::Space),
        (any_lacks_integer(maps, "unit"), Key::Unit),
        (any_lacks_texts(maps, "to"), Key::To),
        (has_bad_locks(document, spaces), Key::Locks),
    ])
}

/// The key of the first of these checks that holds.
fn first_refusal(checks: &[(bool, Key)]) -> Option<Key>
    ensures { result ≡ first_refusal checks.now }
{
    for (holds, key) in checks {
        if *holds {
            return Some(*key);
        }
    }
    None
}

fn lacks_names(affinities: &[Value], spaces: &[Value]) -> bool
    ensures { result ≡ list_any (λ row. shapes.lacks_text (codes "name") (view row)) affinities.now
        || list_any (λ row. shapes.lacks_text (codes "name") (view row)) spaces.now }
{
    any_lacks_text(affinities, "name") || any_lacks_text(spaces, "name")
}

fn lacks_maps(document: &Value) -> bool
    ensures { result ≡ shapes.lacks_maps (view document.now) }
{
    (!read_format(document).may_lock() || document.get("map").is_some())
        && lacks_tables(document, "map")
}

fn has_bad_locks(document: &Value, spaces: &[Value]) -> bool
    ensures { result ≡ (may_lock (format_of (view document.now))
        && list_any (λ row. shapes.has_other_than_locks (view row)) spaces.now) }
{
    read_format(document).may_lock() && any_has_other_than_locks(spaces)
}

#[tactic(auto, using(crate::proofs::DocumentLemmas::list_any_map))]
fn lacks_tables(value: &Value, key: &str) -> bool
    ensures { result ≡ shapes.lacks_tables key.now (view value.now) }
{
    match items(value, key) {
        Some(rows) => any_is_no_table(rows),
        None => true,
    }
}

#[tactic(auto, using(crate::proofs::DocumentLemmas::list_any_map))]
fn lacks_texts(value: &Value, key: &str) -> bool
    ensures { result ≡ shapes.lacks_texts key.now (view value.now) }
{
    match items(value, key) {
        Some(texts) => any_is_no_text(texts),
        None => true,
    }
}

fn any_is_no_table(rows: &[Value]) -> bool
    ensures { result ≡ list_any (λ row. is_none (as_table (view row))) rows.now }
{
    rows.iter().any(|row| !row.is_table())
}

fn any_is_no_text(texts: &[Value]) -> bool
    ensures { result ≡ list_any (λ text. is_none (as_str (view text))) texts.now }
{
    texts.iter().any(|text| !text.is_str())
}

fn has_other_than_text(value: &Value, key: &str) -> bool
    ensures { result ≡ shapes.has_other_than_text key.now (view value.now) }
{
    value.get(key).is_some() && text(value, key).is_none()
}

fn any_lacks_text(rows: &[Value], key: &str) -> bool
    ensures { result ≡ list_any (λ row. shapes.lacks_text key.now (view row)) rows.now }
{
    rows.iter().any(|row| text(row, key).is_none())
}

fn any_lacks_integer(rows: &[Value], key: &str) -> bool
    ensures { result ≡ list_any (λ row. shapes.lacks_integer key.now (view row)) rows.now }
{
    rows.iter().any(|row| integer(row, key).is_none())
}

fn any_lacks_texts(rows: &[Value], key: &str) -> bool
    ensures { result ≡ list_any (λ row. shapes.lacks_texts key.now (view row)) rows.now }
{
    rows.iter().any(|row| lacks_texts(row, key))
}

fn any_has_other_than_text(rows: &[Value], key: &str) -> bool
    ensures { result ≡ list_any (λ row. shapes.has_other_than_text key.now (view row)) rows.now }
{
    rows.iter().any(|row| has_other_than_text(row, key))
}

fn has_other_than_locks(row: &Value) -> bool
    ensures { result ≡ shapes.has_other_than_locks (view row.now) }
{
    row.get("locks").is_some() && named_locks(row).is_none()
}

fn any_has_other_than_locks(rows: &[Value]) -> bool
    ensures { result ≡ list_any (λ row. shapes.has_other_than_locks (view row)) rows.now }
{
    rows.iter().any(|row| has_other_than_locks(row))
}
