//! A document of TOML that is of another shape than a hierarchy.

use crate::say;
use crate::words::Words;
use toml::Value;
use waff_read::Key;

/// The tables of the array at a key.
pub(crate) fn rows<'a>(value: &'a Value, key: &str) -> &'a [Value] {
    match value.get(key) {
        Some(found) => match found.as_array() {
            Some(array) => array.as_slice(),
            None => &[],
        },
        None => &[],
    }
}

/// The text at a key, the empty one where there is none.
pub(crate) fn text_at<'a>(value: &'a Value, key: &str) -> &'a str {
    let found = value.get(key);
    found.and_then(|found| found.as_str()).unwrap_or("")
}

/// The text at a key of the table of this number, the empty one where there is none.
pub(crate) fn text_of<'a>(tables: &'a [Value], number: usize, key: &str) -> &'a str {
    tables.get(number).map_or("", |row| text_at(row, key))
}

/// Whether the spaces of the document may have locks.
pub(crate) fn may_lock(document: &Value) -> bool {
    document
        .get("format")
        .and_then(|format| format.as_integer())
        == Some(3)
}

/// Appends where the table of this number stands: of which kind it is, its number from 0, and its
/// name.
pub(crate) fn push_row(words: &mut Words, kind: &str, tables: &[Value], number: usize) {
    let key = if kind == "map" { "space" } else { "name" };
    let name = text_of(tables, number, key);
    if name.is_empty() {
        say!(words; Where: "hierarchy, {} {} (from 0)", kind, number);
    } else {
        say!(words; Where: "hierarchy, {} {} (from 0), {} `{}`", kind, number, key, name.as_bytes());
    }
}

/// Appends that the document names no model.
pub(crate) fn push_no_model(words: &mut Words, document: &Value) {
    say!(words; Where: "hierarchy, the key model");
    push_found(words, "model", document.get("model"));
    say!(words; Wanted: "\"classical\" or \"hierarchical\"");
}

/// Appends what stands at a key.
fn push_found(words: &mut Words, key: &str, found: Option<&Value>) {
    match found {
        None => say!(words; Found: "no {}", key),
        Some(value) => match value.as_str() {
            Some(told) => say!(words; Found: "{}: the text `{}`", key, told.as_bytes()),
            None => say!(words; Found: "{}: a value of the type {}", key, value.type_str()),
        },
    }
}

/// The type that a value is wanted to be of.
#[derive(Clone, Copy)]
enum Shape {
    Text,
    TextOrNone,
    Integer,
    Texts,
}

impl Shape {
    fn fits(self, found: Option<&Value>) -> bool {
        let Some(value) = found else {
            return matches!(self, Shape::TextOrNone);
        };
        match self {
            Shape::Text | Shape::TextOrNone => value.is_str(),
            Shape::Integer => value.is_integer(),
            Shape::Texts => match value.as_array() {
                Some(texts) => texts.as_slice().iter().all(|text| text.is_str()),
                None => false,
            },
        }
    }

    /// What is wanted.
    fn words(self) -> &'static str {
        match self {
            Shape::Text => "a text",
            Shape::TextOrNone => "a text, or no such key",
            Shape::Integer => "an integer",
            Shape::Texts => "an array of texts",
        }
    }
}

/// Appends which table has no value of its type at the key, and what stands there.
pub(crate) fn push_no_key(words: &mut Words, document: &Value, key: Key) {
    match key {
        Key::Affinities => push_no_tables(words, document, "affinity"),
        Key::Spaces => push_no_tables(words, document, "space"),
        Key::Maps => push_no_tables(words, document, "map"),
        Key::Name => push_no_names(words, document),
        Key::Parent => push_misfit(words, document, "affinity", "parent", Shape::TextOrNone),
        Key::Size => push_misfit(words, document, "space", "size", Shape::Integer),
        Key::Space => push_misfit(words, document, "map", "space", Shape::Text),
        Key::Unit => push_misfit(words, document, "map", "unit", Shape::Integer),
        Key::To => push_misfit(words, document, "map", "to", Shape::Texts),
        Key::Locks => push_misfit(words, document, "space", "locks", Shape::TextOrNone),
    }
}

/// Appends which affinity, or else which space, has no name.
fn push_no_names(words: &mut Words, document: &Value) {
    let affinities = rows(document, "affinity");
    let kind = match first_misfit(affinities, "name", Shape::Text) {
        Some(_) => "affinity",
        None => "space",
    };
    push_misfit(words, document, kind, "name", Shape::Text);
}

/// Appends the first table of this kind whose value at the key is not of its type, what it is, and
/// what is wanted.
fn push_misfit(words: &mut Words, document: &Value, kind: &str, key: &str, wanted: Shape) {
    let tables = rows(document, kind);
    if let Some(number) = first_misfit(tables, key, wanted) {
        push_row(words, kind, tables, number);
        push_found(words, key, value_of(tables, number, key));
    }
    say!(words; Wanted: "{}", wanted.words());
}

/// The first table whose value at the key is not of its type.
fn first_misfit(tables: &[Value], key: &str, wanted: Shape) -> Option<usize> {
    tables.iter().position(|row| !wanted.fits(row.get(key)))
}

/// The value at a key of the table of this number.
fn value_of<'a>(tables: &'a [Value], number: usize, key: &str) -> Option<&'a Value> {
    tables.get(number)?.get(key)
}

/// The first value that is no table.
fn first_no_table(values: &[Value]) -> Option<usize> {
    values.iter().position(|value| !value.is_table())
}

/// Appends that there is no array of tables of this kind.
fn push_no_tables(words: &mut Words, document: &Value, kind: &str) {
    let tables = rows(document, kind);
    match first_no_table(tables) {
        Some(number) => {
            say!(words; Where: "hierarchy, {} {}", kind, number);
            push_found(words, kind, tables.get(number));
        }
        None => {
            say!(words; Where: "hierarchy, the key {}", kind);
            push_found(words, kind, document.get(kind));
        }
    }
    say!(words; Wanted: "an array of tables, [[{}]]", kind);
}
