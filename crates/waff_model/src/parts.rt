//! Messages in parts.

ghost use Rattle.std.specs.Prelude.{◌≡◌, ◌+◌, ◌<◌, ◌≤◌, [], ◌∷◌, ◌++◌, length, Some, slice_get};
ghost use Rattle.std.specs.Prelude.{IfOk, OnOk, OnErr};
ghost use Rattle.waff_model.specs.declared.limits.TheConstants.{MAX_MESSAGES};

use crate::message::Message;
use std::alloc::{AllocError, Global};
use std::marker::Model;

/// Messages in parts, one behind the other, so that those that several threads read need not be
/// copied into one list.
#[derive(Drop)]
pub struct Parts {
    front: Vec<Vec<Message>>,
    last: Vec<Message>,
    len: usize,
}

impl Model for Parts {
    ghost use Rattle.std.specs.Prelude.{◌≡◌, ◌++◌, List, length};
    ghost use Rattle.std.specs.List.{flat_map};
    ghost use Rattle.waff_model.specs.declared.message.Message.{Message};

    ghost Value = { List Message };

    ghost view = { λ p. flat_map (λ part. part.items) p.front.items ++ p.last.items };

    ghost invariant = { λ p.
        p.len ≡ length (flat_map (λ part. part.items) p.front.items ++ p.last.items) };
}

impl Parts {
    /// One part.
    pub fn of(alloc: Global, messages: Vec<Message>) -> Self
        ensures { result ≡ messages.items }
    {
        Parts {
            front: Vec::new(alloc),
            len: messages.len(),
            last: messages,
        }
    }

    /// The parts of both, one behind the other.
    pub fn joined(first: Parts, second: Parts) -> Result<Self, AllocError>
        requires few { length first + length second ≤ MAX_MESSAGES }
        ensures { IfOk result (λ all. all ≡ first ++ second) }
    {
        let len = first.len + second.len;
        let Parts {
            mut front,
            last,
            ..
        } = first;
        front.push(last)?;
        let Parts {
            front: mut more,
            last,
            ..
        } = second;
        front.append(&mut more)?;
        Ok(Parts { front, last, len })
    }

    /// Appends a message.
    pub fn push(&mut self, message: Message) -> Result<(), AllocError>
        requires { length self.old < MAX_MESSAGES }
        ensures pushed { OnOk result (self.new ≡ self.old ++ message ∷ []) }
        ensures unchanged { OnErr result (self.new ≡ self.old) }
    {
        self.last.push(message)?;
        self.len += 1;
        Ok(())
    }

    /// How many messages there are.
    pub fn len(&self) -> usize
        ensures { result ≡ length self.now }
    {
        self.len
    }

    /// The message at a place, from 0.
    pub fn get(&self, place: usize) -> &Message
        requires { place < length self.now }
        ensures { slice_get self.now place ≡ Some result.now }
    {
        let mut left = place;
        for part in &self.front {
            if left < part.len() {
                return &part[left];
            }
            left -= part.len();
        }
        &self.last[left]
    }
}
