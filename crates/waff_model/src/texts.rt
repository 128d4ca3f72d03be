//! Lists of texts.

ghost use Rattle.std.specs.Prelude.{◌≡◌, ◌∷◌, [], ◌++◌, ◌<◌, length, slice_get, Some, OnOk, OnErr};

use crate::name::Text;
use std::alloc::{AllocError, Global};
use std::marker::Model;

/// Texts in a row, numbered from 0.
#[derive(Drop)]
pub struct Texts {
    texts: Vec<Text>,
}

impl Model for Texts {
    ghost use Rattle.std.specs.Prelude.{List, ℕ};

    ghost Value = { List (List ℕ) };

    ghost view = { λ t. t.texts.items };
}

impl Texts {
    /// No text.
    pub fn new(alloc: Global) -> Self
        ensures { result ≡ [] }
    {
        Texts {
            texts: Vec::new(alloc),
        }
    }

    /// Appends a text.
    pub fn push(&mut self, text: Text) -> Result<(), AllocError>
        ensures added { OnOk result (self.new ≡ self.old ++ text ∷ []) }
        ensures unchanged { OnErr result (self.new ≡ self.old) }
    {
        self.texts.push(text)?;
        Ok(())
    }

    /// How many texts there are.
    pub fn len(&self) -> usize
        ensures { result ≡ length self.now }
    {
        self.texts.len()
    }

    /// The text at this index, from 0.
    pub fn get(&self, i: usize) -> &Text
        requires { i < length self.now }
        ensures { slice_get self.now i ≡ Some result.now }
    {
        &self.texts[i]
    }

    /// The texts, in order.
    pub(crate) fn as_slice(&self) -> &[Text]
        ensures { result.now ≡ self.now }
    {
        self.texts.as_slice()
    }
}
