//! A tree of affinities that is refused.

use crate::document::{may_lock, push_row, rows, text_at, text_of};
use crate::fields::{push_no_name, push_too_many};
use crate::named::Named;
use crate::say;
use crate::words::Words;
use toml::Value;
use waff_model::limits::MAX_AFFINITIES;
use waff_model::{AffinityId, TreeError, is_name};

/// Appends which affinity is refused first, what was found and what is wanted.
pub(crate) fn push_no_tree(words: &mut Words, document: &Value, error: TreeError) {
    let affinities = rows(document, "affinity");
    let named = Named::of(words, affinities, "name");
    match first_refused(&named, affinities, may_lock(document), error) {
        Some(number) => push_error(words, &named, affinities, number, error),
        None => {
            say!(words; Where: "hierarchy, affinity");
            say!(words; Found: "no affinity");
            say!(words; Wanted: "one affinity or more, the root first");
        }
    }
}

/// The first affinity that has the error.
fn first_refused(
    named: &Named<'_>,
    affinities: &[Value],
    may_lock: bool,
    error: TreeError,
) -> Option<usize> {
    let mut rows = affinities.iter().enumerate();
    rows.position(|(number, row)| has_error(named, number, row, may_lock, error))
}

/// Whether the affinity of a row has the error; those before it have none.
fn has_error(
    named: &Named<'_>,
    number: usize,
    row: &Value,
    may_lock: bool,
    error: TreeError,
) -> bool {
    let has_parent = row.get("parent").is_some();
    match error {
        TreeError::Name => {
            let name = text_at(row, "name");
            !is_name(name) || (may_lock && name == "-")
        }
        TreeError::Twice => named.has_before(number, text_at(row, "name")),
        TreeError::SecondRoot => number > 0 && !has_parent,
        TreeError::ParentUnknown => {
            has_parent && !named.has_before(number, text_at(row, "parent"))
        }
        TreeError::TooMany => number >= MAX_AFFINITIES,
        TreeError::NoRoot | TreeError::Memory => false,
    }
}

/// Appends where the affinity of this number stands, what was found in it, which has the error, and
/// what is wanted.
fn push_error(
    words: &mut Words,
    named: &Named<'_>,
    affinities: &[Value],
    number: usize,
    error: TreeError,
) {
    push_row(words, "affinity", affinities, number);
    let name = text_of(affinities, number, "name");
    match error {
        TreeError::Name if name == "-" => {
            say!(words; Found: "the name `-`");
            say!(words; Wanted: "another name, as `-` stands for no affinity in format 3");
        }
        TreeError::Name => push_no_name(words, "name", name),
        TreeError::Twice => push_twice(words, named, name),
        TreeError::SecondRoot => {
            say!(words; Found: "no parent");
            say!(words; Wanted: "a parent, as each affinity but the first has one");
        }
        TreeError::ParentUnknown => {
            push_unknown(words, named, number, text_of(affinities, number, "parent"))
        }
        TreeError::TooMany => {
            push_too_many(words, "affinities", affinities.len() as u64, MAX_AFFINITIES)
        },
        TreeError::NoRoot | TreeError::Memory => {}
    }
}

/// Appends that an affinity before has the name.
fn push_twice(words: &mut Words, named: &Named<'_>, name: &str) {
    let other = named.place_of(name).unwrap_or(0);
    say!(words; Found: "the name `{}`, which affinity {} has", name.as_bytes(), other);
    say!(words; Wanted: "a name that no affinity before it has");
}

/// Appends that a parent is none of the affinities before.
fn push_unknown(words: &mut Words, named: &Named<'_>, number: usize, parent: &str) {
    let place = named.place_of(parent);
    let parent = parent.as_bytes();
    match place {
        Some(place) if place == number =>
            say!(words; Found: "the parent `{}`, which is the affinity itself", parent),
        Some(place) =>
            say!(words; Found: "the parent `{}`, which is affinity {}, behind it", parent, place),
        None => say!(words; Found: "the parent `{}`, which no affinity has as its name", parent),
    }
    if number == 0 {
        say!(words; Wanted: "no parent, as the first affinity is the root");
    } else {
        say!(words; Wanted: "the name of an affinity that stands before it");
    }
}

/// Appends which affinity of a classical hierarchy is below a child of the root.
pub(crate) fn push_third_level(words: &mut Words, document: &Value, affinity: AffinityId) {
    let affinities = rows(document, "affinity");
    let number = usize::from(affinity.0);
    push_row(words, "affinity", affinities, number);
    let parent = text_of(affinities, number, "parent").as_bytes();
    let root = text_of(affinities, 0, "name").as_bytes();
    say!(words; Found: "the parent `{}` in a classical hierarchy", parent);
    say!(words; Wanted: "the root `{}` as parent, or the model \"hierarchical\"", root);
}
