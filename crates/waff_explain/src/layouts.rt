//! Spaces and maps that are refused.

use crate::document::{may_lock, push_row, rows, text_at, text_of};
use crate::fields::push_no_name;
use crate::named::Named;
use crate::say;
use crate::words::Words;
use toml::Value;
use waff_model::limits::{MAX_CELLS, MAX_OWNERS, MAX_SPACES};
use waff_model::{Format, LayoutError, is_name};
use waff_read::read_format;

/// Appends which space or map is refused, what was found and what is wanted.
pub(crate) fn push_no_layout(words: &mut Words, document: &Value, error: LayoutError) {
    let spaces = rows(document, "space");
    let maps = rows(document, "map");
    let format = read_format(document);
    match error {
        LayoutError::Space => push_no_space(words, spaces, maps),
        LayoutError::Size => push_no_integer(words, spaces, "space", "size", format.max_size()),
        LayoutError::SpaceTwice => push_twice(words, spaces, "space", "name"),
        LayoutError::NoMap => push_no_map(words, spaces, maps, may_lock(document)),
        LayoutError::MapTwice => push_twice(words, maps, "map", "space"),
        LayoutError::Unit => push_no_integer(words, maps, "map", "unit", format.max_unit()),
        LayoutError::To => push_no_owners(words, rows(document, "affinity"), maps),
        LayoutError::TooManyCells => push_cells(words, spaces),
        LayoutError::Memory => {}
    }
}

/// Appends which space has no name, or which map no space, or that there are too few or too many
/// spaces.
fn push_no_space(words: &mut Words, spaces: &[Value], maps: &[Value]) {
    let found = spaces.len();
    if found == 0 || found > MAX_SPACES {
        say!(words; Where: "hierarchy, space");
        say!(words; Found: "{} spaces", found);
        say!(words; Wanted: "1 to {} spaces", MAX_SPACES);
        return;
    }
    let nameless = spaces.iter().position(|row| !is_name(text_at(row, "name")));
    match nameless {
        Some(number) => {
            push_row(words, "space", spaces, number);
            push_no_name(words, "name", text_of(spaces, number, "name"));
        }
        None => push_no_space_of(words, spaces, maps),
    }
}

/// Appends which map names no space.
fn push_no_space_of(words: &mut Words, spaces: &[Value], maps: &[Value]) {
    let named = Named::of(words, spaces, "name");
    if let Some(number) = named.first_stranger(maps, "space") {
        push_row(words, "map", maps, number);
        let space = text_of(maps, number, "space").as_bytes();
        say!(words; Found: "the space `{}`, which is no space's name", space);
        say!(words; Wanted: "the name of a space");
    }
}

/// Appends which space has no map. One with locks needs none.
fn push_no_map(words: &mut Words, spaces: &[Value], maps: &[Value], may_lock: bool) {
    let mapped = Named::of(words, maps, "space");
    let lacking = spaces.iter().position(|row| {
        let has_locks = may_lock && row.get("locks").is_some();
        !has_locks && mapped.place_of(text_at(row, "name")).is_none()
    });
    if let Some(number) = lacking {
        push_row(words, "space", spaces, number);
        say!(words; Found: "no map of the space");
        if may_lock {
            say!(words; Wanted: "one map of each space that has no locks");
        } else {
            say!(words; Wanted: "one map of each space");
        }
    }
}

/// Appends which table is the second of its kind for a name.
fn push_twice(words: &mut Words, tables: &[Value], kind: &str, key: &str) {
    let named = Named::of(words, tables, key);
    if let Some(number) = named.first_twice(tables, key) {
        push_row(words, kind, tables, number);
        let other = named.place_of(text_of(tables, number, key)).unwrap_or(0);
        say!(words; Found: "the {} of {} {}", key, kind, other);
        say!(words; Wanted: "one {} for each {}", kind, key);
    }
}

/// Appends which table has a number outside of 1 to the most.
fn push_no_integer(words: &mut Words, tables: &[Value], kind: &str, key: &str, most: u32) {
    for (number, row) in tables.iter().enumerate() {
        let found = integer_at(row, key);
        if found < 1 || found > i64::from(most) {
            push_row(words, kind, tables, number);
            say!(words; Found: "the {} {}", key, found);
            say!(words; Wanted: "a {} from 1 to {}", key, most);
            return push_large(words, found, most);
        }
    }
}

/// Appends the guess that spaces are to be large, where a number is above the most of its format and
/// not above that of format 2.
fn push_large(words: &mut Words, found: i64, most: u32) {
    if i64::from(most) < found && found <= i64::from(Format::F2.max_size()) {
        push_no_format(words);
    }
}

/// Appends the guess that spaces are to be large.
fn push_no_format(words: &mut Words) {
    say!(words; Found: "perhaps large spaces, which need `format = 2` at the top");
}

fn integer_at(row: &Value, key: &str) -> i64 {
    let found = row.get(key);
    found.and_then(|found| found.as_integer()).unwrap_or(0)
}

/// Appends which map lists no owners, too many, or one that is no affinity.
fn push_no_owners(words: &mut Words, affinities: &[Value], maps: &[Value]) {
    let named = Named::of(words, affinities, "name");
    push_owners_among(words, &named, maps);
}

fn push_owners_among(words: &mut Words, named: &Named<'_>, maps: &[Value]) {
    for (number, row) in maps.iter().enumerate() {
        let owners = rows(row, "to");
        let found = owners.len();
        if found == 0 || found > MAX_OWNERS {
            push_row(words, "map", maps, number);
            say!(words; Found: "{} names in to", found);
            return say!(words; Wanted: "1 to {} names", MAX_OWNERS);
        }
        if let Some(owner) = stranger(named, owners) {
            push_row(words, "map", maps, number);
            return push_stranger(words, owner);
        }
    }
}

fn push_stranger(words: &mut Words, owner: &str) {
    say!(words; Found: "`{}` in to, which no affinity has as its name", owner.as_bytes());
    say!(words; Wanted: "names of affinities");
}

/// The first owner that is no affinity.
fn stranger<'a>(named: &Named<'_>, owners: &'a [Value]) -> Option<&'a str> {
    let mut names = owners.iter().map(|owner| owner.as_str().unwrap_or(""));
    names.find(|name| named.place_of(name).is_none())
}

/// Appends that there are too many cells.
fn push_cells(words: &mut Words, spaces: &[Value]) {
    let mut cells: i64 = 0;
    for row in spaces {
        cells = cells.saturating_add(integer_at(row, "size"));
    }
    say!(words; Where: "hierarchy, space");
    say!(words; Found: "{} cells over all spaces", cells);
    say!(words; Wanted: "{} cells or fewer", MAX_CELLS);
    push_no_format(words);
}
