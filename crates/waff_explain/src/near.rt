//! Keys of a hierarchy that count for nothing: those whose names are nearly those of its format, and
//! those that look as if they told which format it is.

ghost use Rattle.std.specs.Prelude.{IfOk, string_bytes};
ghost use Rattle.waff_explain.specs.Lines.{AreHeadedLines};

use crate::document::{may_lock, rows};
use crate::say;
use crate::words::Words;
use std::alloc::{AllocError, Global};
use strsim::osa_distance;
use toml::Value;

/// A line for each key of the format that a table of the hierarchy nearly has: what stands in the
/// first such table; and one for a format that there is not. No line where the bytes are no TOML.
pub fn near_words(alloc: Global, bytes: &[u8]) -> Result<String, AllocError>
    ensures { IfOk result (λ text. AreHeadedLines (string_bytes text)) }
{
    let mut words = Words::new(alloc);
    match toml::table_from_slice(alloc, bytes) {
        Ok(table) => push_near(&mut words, &Value::Table(table)),
        Err(e) => {
            if e.is_memory() {
                words.refuse();
            }
        }
    }
    words.finish()
}

/// Appends which keys the tables of a hierarchy nearly have, those at the top first.
fn push_near(words: &mut Words, document: &Value) {
    for key in ["model", "format", "affinity", "space", "map"] {
        if let Some(name) = near_in(words, document, key) {
            say!(words; Found: "the key `{}`, which counts for nothing and is nearly `{}`",
                name.as_bytes(), key);
        }
    }
    push_no_format(words, document);
    push_near_of(words, document, "affinity", &["name", "parent"]);
    if may_lock(document) {
        push_near_of(words, document, "space", &["name", "size", "locks"]);
    } else {
        push_near_of(words, document, "space", &["name", "size"]);
        push_no_locks(words, document);
    }
    push_near_of(words, document, "map", &["space", "unit", "to"]);
}

/// Appends which space has the key of locks in a format without them.
fn push_no_locks(words: &mut Words, document: &Value) {
    if let Some(number) = first_with_locks(document) {
        say!(words; Found: "the key `locks` of space {}, which counts for nothing: locks need \
            `format = 3` at the top", number);
    }
}

/// The first space that has the key of locks.
fn first_with_locks(document: &Value) -> Option<usize> {
    let spaces = rows(document, "space");
    spaces.iter().position(|row| row.get("locks").is_some())
}

/// Appends what stands in a hierarchy in place of a format that there is, or that format 3 was none once.
fn push_no_format(words: &mut Words, document: &Value) {
    match document.get("format") {
        Some(_) if may_lock(document) => {
            if first_with_locks(document).is_none() {
                say!(words; Found: "format: the integer 3, and no space with `locks`: before there \
                    were locks such a file was read as one of format 1");
            }
        }
        Some(value) => push_other_format(words, value),
        None => {
            if document.get("version").is_some() {
                say!(words; Found: "the key `version`, which counts for nothing: `format` tells the \
                    format");
            }
        }
    }
}

/// Appends that this tells no format, where it is neither 1 nor 2. Format 3 is told of apart.
fn push_other_format(words: &mut Words, value: &Value) {
    match (value.as_integer(), value.as_str()) {
        (Some(number), _) if number == 1 || number == 2 => {}
        (Some(number), _) => {
            say!(words; Found: "format: the integer {}, which counts for nothing: formats are 1 to 3",
                number);
        }
        (None, Some(text)) => {
            say!(words; Found: "format: the text `{}`, which counts for nothing: formats are 1 to 3",
                text.as_bytes());
        }
        (None, None) => {
            say!(words; Found: "format: a value of the type {}, which counts for nothing: formats are \
                1 to 3", value.type_str());
        }
    }
}

/// Appends for each of these keys the first table of a kind that nearly has it.
fn push_near_of(words: &mut Words, document: &Value, kind: &str, keys: &[&str]) {
    for key in keys {
        push_first(words, rows(document, kind), kind, key);
    }
}

/// Appends the first of these tables that nearly has the key.
fn push_first(words: &mut Words, tables: &[Value], kind: &str, key: &str) {
    for (number, table) in tables.iter().enumerate() {
        if let Some(name) = near_in(words, table, key) {
            say!(words; Found: "the key `{}` of {} {}, which counts for nothing and is nearly `{}`",
                name.as_bytes(), kind, number, key);
            return;
        }
    }
}

/// The first name in a table that is nearly the key.
fn near_in<'a>(words: &mut Words, table: &'a Value, key: &str) -> Option<&'a str> {
    for name in table.as_table()?.keys() {
        if is_near(words, name.as_str(), key) {
            return Some(name.as_str());
        }
    }
    None
}

/// Whether a name is another than the key and becomes it where one letter is left out, put in or
/// replaced, where two neighbours are swapped, or in another case.
fn is_near(words: &mut Words, name: &str, key: &str) -> bool {
    if name.eq_ignore_ascii_case(key) {
        return name != key;
    }
    // One letter more has 4 bytes at most.
    if name.len() > key.len().saturating_add(4) {
        return false;
    }
    match osa_distance(words.alloc(), name, key) {
        Ok(distance) => distance == 1,
        Err(_) => {
            words.refuse();
            false
        }
    }
}
