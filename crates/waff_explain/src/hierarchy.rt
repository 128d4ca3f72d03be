//! A hierarchy that is refused.

ghost use Rattle.std.specs.Prelude.{IfOk, string_bytes};
ghost use Rattle.waff_explain.specs.Lines.{AreHeadedLines};

use crate::affinities::{push_no_tree, push_third_level};
use crate::document::{push_no_key, push_no_model};
use crate::fields::push_no_plain;
use crate::layouts::push_no_layout;
use crate::say;
use crate::walk::feeds;
use crate::words::Words;
use std::alloc::{AllocError, Global};
use toml::Value;
use waff_read::HierError;

/// Where the fault is for which the hierarchy is refused, what was found and what is wanted.
pub fn hierarchy_words(alloc: Global, bytes: &[u8], fault: HierError) -> Result<String, AllocError>
    ensures { IfOk result (λ text. AreHeadedLines (string_bytes text)) }
{
    let mut words = Words::new(alloc);
    match toml::table_from_slice(alloc, bytes) {
        Ok(table) => push_fault(&mut words, &Value::Table(table), fault),
        Err(e) => push_no_document(&mut words, bytes, &e),
    }
    push_no_plain(&mut words, bytes);
    words.finish()
}

fn push_fault(words: &mut Words, document: &Value, fault: HierError) {
    match fault {
        HierError::Model => push_no_model(words, document),
        HierError::Shape { key } => push_no_key(words, document, key),
        HierError::Tree(error) => push_no_tree(words, document, error),
        HierError::NotClassical { affinity } => push_third_level(words, document, affinity),
        HierError::Layout(error) => push_no_layout(words, document, error),
        HierError::Toml | HierError::Memory => {}
    }
}

/// Appends at which line the bytes are no document, as far as the reader of TOML tells it.
fn push_no_document(words: &mut Words, bytes: &[u8], e: &toml::de::Error) {
    if e.is_memory() {
        words.refuse();
        return;
    }
    let start = match e.span() {
        Some(span) => span.start,
        None => 0,
    };
    push_line(words, bytes, start);
    say!(words; Found: "no TOML: {}", e.message());
    say!(words; Wanted: "a document in TOML");
    push_no_hierarchy(words, bytes);
}

/// Appends the guess that another file stands in the place of the hierarchy, where the bytes begin
/// as the headers of traces and plans do.
fn push_no_hierarchy(words: &mut Words, bytes: &[u8]) {
    if bytes.starts_with(b"message,") {
        say!(words; Found:
            "perhaps a trace or a plan: all commands but rank take the hierarchy first");
    }
}

/// Appends the line in which a byte stands.
fn push_line(words: &mut Words, bytes: &[u8], start: usize) {
    let before = bytes.get(..start).unwrap_or(b"");
    let rest = bytes.get(last_line(before)..).unwrap_or(b"");
    let number = feeds(before).saturating_add(1);
    say!(words; Where: "hierarchy, line {}: {}", number, first_line(rest));
}

/// Where the last line begins.
fn last_line(bytes: &[u8]) -> usize {
    match bytes.iter().rposition(|byte| *byte == b'\n') {
        Some(place) => place.saturating_add(1),
        None => 0,
    }
}

/// The bytes before the first line feed.
fn first_line(bytes: &[u8]) -> &[u8] {
    match bytes.iter().position(|byte| *byte == b'\n') {
        Some(place) => bytes.get(..place).unwrap_or(bytes),
        None => bytes,
    }
}
