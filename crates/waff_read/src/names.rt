//! Names in the order in which they came, found by name.

ghost use Rattle.std.specs.Prelude.{◌≡◌, ◌<◌, [], ◌∷◌, ◌++◌, length, position, None, IfSome, OnOk};
ghost use Rattle.std.specs.Str.{bytes_eq};

use indexmap::IndexSet;
use std::alloc::{AllocError, Global};
use std::marker::Model;

/// Names, no two of them equal.
#[derive(Drop)]
pub(crate) struct Names {
    names: IndexSet<String>,
}

impl Model for Names {
    ghost use Rattle.std.specs.Prelude.{List, ℕ, map, string_bytes};

    ghost Value = { List (List ℕ) };

    ghost view = { λ n. map string_bytes n.names.keys };
}

impl Names {
    /// No name.
    pub(crate) fn new(alloc: Global) -> Self
        ensures { result ≡ [] }
    {
        Names {
            names: IndexSet::new(alloc),
        }
    }

    /// The place of the name, from 0.
    pub(crate) fn number(&self, name: &str) -> Option<usize>
        ensures found { result ≡ position (bytes_eq name.now) self.now }
        ensures within { IfSome result (λ at. at < length self.now) }
    {
        self.names.get_index_of(name)
    }

    /// Appends a name that is not there.
    pub(crate) fn push(&mut self, name: &str) -> Result<(), AllocError>
        requires { position (bytes_eq name.now) self.old ≡ None }
        ensures { OnOk result (self.new ≡ self.old ++ name.now ∷ []) }
    {
        let name = String::from_str(*self.names.allocator(), name)?;
        self.names.insert(name)?;
        Ok(())
    }
}
