//! The records of CSV in turn, and where each stands.

use crate::say;
use crate::words::Words;
use csv::{ByteRecord, Reader};
use std::alloc::Global;
use std::str;
use waff_parse::text_rows;

/// A walk over the records of bytes, as the readers read them. It ends where memory is refused.
#[derive(Drop)]
pub(crate) struct Walk<'a> {
    bytes: &'a [u8],
    rdr: Reader<&'a [u8]>,
    row: ByteRecord,
    /// The number of the record, from 1.
    at: u64,
    is_refused: bool,
}

impl<'a> Walk<'a> {
    /// A walk over the records of these bytes, in front of the first.
    pub(crate) fn new(alloc: Global, bytes: &'a [u8]) -> Self {
        Walk {
            bytes,
            rdr: text_rows(alloc, bytes),
            row: ByteRecord::new(alloc),
            at: 0,
            is_refused: false,
        }
    }

    /// Goes to the next record, if there is one.
    pub(crate) fn next(&mut self) -> bool {
        if self.is_refused {
            return false;
        }
        match self.rdr.read_byte_record(&mut self.row) {
            Ok(true) => {
                self.at = self.at.saturating_add(1);
                true
            }
            Ok(false) => false,
            Err(_) => {
                self.is_refused = true;
                false
            }
        }
    }

    /// Goes on to the record of this number, if there is one.
    pub(crate) fn go_to(&mut self, at: u64) -> bool {
        for _ in self.at..at {
            if !self.next() {
                return false;
            }
        }
        true
    }

    /// Goes on to the next record whose first field this is, if there is one.
    pub(crate) fn find(&mut self, first: &str) -> bool {
        for _ in 0..u64::MAX {
            if !self.next() {
                return false;
            }
            if self.field(0) == first {
                return true;
            }
        }
        false
    }

    /// How many fields the record has.
    pub(crate) fn len(&self) -> usize {
        self.row.len()
    }

    /// The field at a place, an empty one where there is none.
    pub(crate) fn bytes(&self, place: usize) -> &[u8] {
        self.row.get(place).unwrap_or(b"")
    }

    /// The field at a place, an empty one where there is none or it is no text.
    pub(crate) fn field(&self, place: usize) -> &str {
        str::from_utf8(self.bytes(place)).unwrap_or("")
    }

    /// Ends the walk. The words keep that memory was refused, if it was.
    pub(crate) fn end(self, words: &mut Words) {
        let is_refused = self.is_refused;
        drop(self);
        if is_refused {
            words.refuse();
        }
    }

    /// Goes on to the record of this number and appends where in the file it stands, or that the
    /// file ends before it.
    pub(crate) fn push_record(&mut self, words: &mut Words, file: &str, at: u64) {
        if self.go_to(at) {
            self.push_place(words, file);
        } else {
            say!(words; Where: "{}, its end, where record {} would stand", file, at);
        }
    }

    /// Appends which record of a file it is, its line and its text.
    fn push_place(&self, words: &mut Words, file: &str) {
        let (from, line) = match self.row.position() {
            Some(place) => (place.byte(), place.line()),
            None => (0, 1),
        };
        let whole = part(self.bytes, from, self.rdr.position().byte());
        let (blank, record) = split_ends(whole);
        let (at, line) = (self.at, line.saturating_add(feeds(blank)));
        say!(words; Where: "{}, record {}, line {}: {}", file, at, line, record);
    }
}

/// Appends where the first record behind the header stands that begins with this field.
pub(crate) fn push_line(words: &mut Words, bytes: &[u8], first: &str) {
    let mut walk = Walk::new(words.alloc(), bytes);
    walk.next();
    if walk.find(first) {
        walk.push_place(words, "plan");
    }
    walk.end(words);
}

/// The number of the first record behind the header that begins with this field, or else of the
/// last record, and whether there is one.
pub(crate) fn find_behind_header(words: &mut Words, bytes: &[u8], first: &str) -> (u64, bool) {
    let mut walk = Walk::new(words.alloc(), bytes);
    walk.next();
    let is_found = walk.find(first);
    let at = walk.at;
    walk.end(words);
    (at, is_found)
}

fn part(bytes: &[u8], from: u64, to: u64) -> &[u8] {
    let from = usize::try_from(from).unwrap_or(usize::MAX);
    let to = usize::try_from(to).unwrap_or(usize::MAX);
    bytes.get(from..to).unwrap_or(b"")
}

/// The line ends that stand before a record, and the record without those that stand behind it.
fn split_ends(bytes: &[u8]) -> (&[u8], &[u8]) {
    let begin = begin_of(bytes);
    let record = bytes.get(begin..end_of(bytes)).unwrap_or(b"");
    (bytes.get(..begin).unwrap_or(b""), record)
}

/// Where the first byte stands that is no line end, or the end of all.
fn begin_of(bytes: &[u8]) -> usize {
    bytes
        .iter()
        .position(|byte| !is_end(*byte))
        .unwrap_or(bytes.len())
}

/// Where the last byte ends that is no line end, or 0.
fn end_of(bytes: &[u8]) -> usize {
    match bytes.iter().rposition(|byte| !is_end(*byte)) {
        Some(place) => place.saturating_add(1),
        None => 0,
    }
}

fn is_end(byte: u8) -> bool {
    byte == b'\n' || byte == b'\r'
}

/// How many line feeds there are.
pub(crate) fn feeds(bytes: &[u8]) -> u64 {
    bytes.iter().filter(|byte| **byte == b'\n').count() as u64
}
