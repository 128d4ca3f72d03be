//! Fields and values that are no name, no number or no text.

use crate::say;
use crate::walk::Walk;
use crate::words::Words;
use std::str;
use waff_model::limits::MAX_NAME;

/// Appends that a field is no name.
pub(crate) fn push_no_name(words: &mut Words, what: &str, field: &str) {
    say!(words; Found: "the {} `{}`", what, field.as_bytes());
    say!(words; Wanted: "a name, 1 to {} of A-Z a-z 0-9 . _ -", MAX_NAME);
}

/// Appends that a field is no number within limits.
pub(crate) fn push_no_number(words: &mut Words, what: &str, field: &str, low: u64, high: u64) {
    say!(words; Found: "the {} `{}`", what, field.as_bytes());
    say!(words; Wanted: "a number from {} to {} without a leading zero", low, high);
}

/// Appends which field is no text.
pub(crate) fn push_no_text(words: &mut Words, walk: &Walk<'_>) {
    if let Some(place) = no_text(walk) {
        let number = place.saturating_add(1);
        let field = walk.bytes(place);
        say!(words; Found: "field {}, which is no text: {}", number, field);
        say!(words; Wanted: "fields of text in UTF-8");
    }
}

/// The first field of the record that is no text.
fn no_text(walk: &Walk<'_>) -> Option<usize> {
    (0..walk.len()).find(|place| str::from_utf8(walk.bytes(*place)).is_err())
}

/// Appends that there are more than are allowed.
pub(crate) fn push_too_many(words: &mut Words, what: &str, found: u64, most: usize) {
    say!(words; Found: "{} {}", found, what);
    say!(words; Wanted: "{} {} or fewer", most, what);
}

/// Appends the guess that other bytes stand in place of commas, where the record is one field that
/// has them.
pub(crate) fn push_no_commas(words: &mut Words, walk: &Walk<'_>) {
    if walk.len() != 1 {
        return;
    }
    if has(walk, b'\t') {
        say!(words; Found: "perhaps tabs in place of commas");
    } else if has(walk, b';') {
        say!(words; Found: "perhaps semicolons in place of commas");
    }
}

/// Appends the guess that a file holds something else than plain text, by its first bytes, or nothing.
pub(crate) fn push_no_plain(words: &mut Words, bytes: &[u8]) {
    if bytes.is_empty() {
        say!(words; Found: "perhaps a command that failed: the file is empty");
    } else if bytes.starts_with(b"\x1f\x8b") {
        say!(words; Found: "perhaps a compressed file: `gzip -dc` prints its text");
    } else if bytes.starts_with(b"\xff\xfe") || bytes.starts_with(b"\xfe\xff") {
        say!(words; Found: "perhaps text in UTF-16: `iconv -f utf-16 -t utf-8` prints it in UTF-8");
    }
}

/// Whether the first field of the record has this byte.
fn has(walk: &Walk<'_>, wanted: u8) -> bool {
    walk.bytes(0).iter().any(|byte| *byte == wanted)
}
