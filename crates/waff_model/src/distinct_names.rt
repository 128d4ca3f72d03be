//! The distinct ones of some names.

ghost use Rattle.std.specs.Prelude.{◌≡◌, ◌<◌, [], IfOk, IfSome, OnOk, length, position};
ghost use Rattle.std.specs.Prelude.{slice_index_or};
ghost use Rattle.std.specs.Str.{bytes_eq};
ghost use Rattle.waff_model.specs.DistinctNames.{with_name};

use indexmap::IndexSet;
use std::alloc::{AllocError, Global};
use std::marker::Model;

/// The distinct ones of the names that were put in, in the order in which they first came. Each is
/// found in a table.
pub struct DistinctNames<'a> {
    names: IndexSet<&'a str>,
}

impl<'a> Model for DistinctNames<'a> {
    ghost use Rattle.std.specs.Prelude.{List, ℕ, map};

    ghost Value = { List (List ℕ) };

    ghost view = { λ d. map (λ name. name.now) d.names.keys };
}

// Written out: a derived drop is proved again in each crate that lets go of the value.
impl<'a> Drop for DistinctNames<'a> {
    fn drop(self) {
        let DistinctNames { names } = self;
        drop(names);
    }
}

impl<'a> DistinctNames<'a> {
    /// No name.
    pub fn new(alloc: Global) -> Self
        ensures { result ≡ [] }
    {
        DistinctNames {
            names: IndexSet::new(alloc),
        }
    }

    /// Puts a name in, where it is not there yet, and answers its place, from 0.
    pub fn put(&mut self, name: &'a str) -> Result<usize, AllocError>
        ensures names { OnOk result (self.new ≡ with_name self.old name.now) }
        ensures within { IfOk result (λ place. place < length self.new) }
        ensures at { IfOk result (λ place. slice_index_or self.new place [] ≡ name.now) }
    {
        let (place, _) = self.names.insert_full(name)?;
        Ok(place)
    }

    /// The place of a name, where it is there.
    pub fn place(&self, name: &str) -> Option<usize>
        ensures place { result ≡ position (bytes_eq name.now) self.now }
        ensures within { IfSome result (λ place. place < length self.now) }
    {
        self.names.get_index_of(name)
    }

    /// How many names there are.
    pub fn len(&self) -> usize
        ensures { result ≡ length self.now }
    {
        self.names.len()
    }

    /// The name at a place.
    pub fn name(&self, place: usize) -> &'a str
        requires { place < length self.now }
        ensures { result.now ≡ slice_index_or self.now place [] }
    {
        let name = self.names.get_index(place).unwrap();
        *name
    }
}
