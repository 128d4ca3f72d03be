//! The nodes of a tree, found by number and by name.

ghost use Rattle.std.specs.Prelude.{◌≡◌, ◌<◌, [], ◌∷◌, ◌++◌, length, None, IfSome, OnOk, OnErr};
ghost use Rattle.waff_model.specs.Tree.{parent_of, number_of, name_of};

use indexmap::IndexMap;
use std::alloc::{AllocError, Global};
use std::marker::Model;

/// The nodes of a tree, by number: each has a name that no other has, and its parent.
#[derive(Drop)]
pub(crate) struct Nodes {
    parents: IndexMap<String, Option<u16>>,
}

impl Model for Nodes {
    ghost use Rattle.std.specs.Prelude.{List};
    ghost use Rattle.waff_model.specs.Tree.{Node};
    ghost use Rattle.waff_model.specs.Nodes.{nodes_of};

    ghost Value = { List Node };

    ghost view = { λ n. nodes_of n.parents.entries };
}

impl Nodes {
    /// No node.
    pub(crate) fn new(alloc: Global) -> Self
        ensures { result ≡ [] }
    {
        Nodes {
            parents: IndexMap::new(alloc),
        }
    }

    /// Where the nodes are kept.
    pub(crate) fn allocator(&self) -> Global {
        *self.parents.allocator()
    }

    /// How many nodes there are.
    pub(crate) fn len(&self) -> usize
        ensures { result ≡ length self.now }
    {
        self.parents.len()
    }

    /// The number of the node with this name.
    pub(crate) fn number(&self, name: &str) -> Option<usize>
        ensures found { result ≡ number_of self.now name.now }
        ensures within { IfSome result (λ at. at < length self.now) }
    {
        self.parents.get_index_of(name)
    }

    /// The name of the node with this number.
    pub(crate) fn name(&self, at: usize) -> &str
        requires { at < length self.now }
        ensures { result.now ≡ name_of self.now at }
    {
        let (name, _) = self.parents.get_index(at).unwrap();
        name.as_str()
    }

    /// The number of the parent of the node with this number, which the root lacks.
    pub(crate) fn parent(&self, at: usize) -> Option<u16>
        requires { at < length self.now }
        ensures { result ≡ parent_of self.now at }
    {
        let (_, parent) = self.parents.get_index(at).unwrap();
        *parent
    }

    /// Appends a node of a name that no node has.
    pub(crate) fn push(&mut self, name: &str, parent: Option<u16>) -> Result<(), AllocError>
        requires { number_of self.old name.now ≡ None }
        ensures added { OnOk result (self.new ≡ self.old
            ++ record { name = name.now; parent = parent } ∷ []) }
        ensures unchanged { OnErr result (self.new ≡ self.old) }
    {
        let key = String::from_str(self.allocator(), name)?;
        self.parents.insert(key, parent)?;
        Ok(())
    }
}
