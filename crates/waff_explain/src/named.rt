//! The tables of an array, found by the text that each has at a key.

use crate::document::text_at;
use crate::words::Words;
use std::collections::HashMap;
use toml::Value;

/// For each text at the key, the first table that has it.
#[derive(Drop)]
pub(crate) struct Named<'a> {
    places: HashMap<&'a str, usize>,
}

impl<'a> Named<'a> {
    /// The tables by their texts at the key, the empty one where there is none. The words keep that
    /// memory was refused.
    pub(crate) fn of(words: &mut Words, tables: &'a [Value], key: &str) -> Self {
        let mut named = Named {
            places: HashMap::new(words.alloc()),
        };
        for (number, row) in tables.iter().enumerate() {
            named.add(words, text_at(row, key), number);
        }
        named
    }

    /// Keeps that the table of this number has the text, where none before it has.
    fn add(&mut self, words: &mut Words, name: &'a str, number: usize) {
        if !self.places.contains_key(name) && self.places.insert(name, number).is_err() {
            words.refuse();
        }
    }

    /// The first table that has the text.
    pub(crate) fn place_of(&self, name: &str) -> Option<usize> {
        self.places.get(name).copied()
    }

    /// Whether a table before that of this number has the text.
    pub(crate) fn has_before(&self, number: usize, name: &str) -> bool {
        self.place_of(name).is_some_and(|place| place < number)
    }

    /// The first of these tables whose text at the key none has.
    pub(crate) fn first_stranger(&self, tables: &[Value], key: &str) -> Option<usize> {
        tables
            .iter()
            .position(|row| self.place_of(text_at(row, key)).is_none())
    }

    /// The first of the tables whose text at the key one before it has.
    pub(crate) fn first_twice(&self, tables: &[Value], key: &str) -> Option<usize> {
        let mut rows = tables.iter().enumerate();
        rows.position(|(number, row)| self.has_before(number, text_at(row, key)))
    }
}
