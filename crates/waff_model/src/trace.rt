//! Traces.

ghost use Rattle.std.specs.Prelude.{◌≡◌, ◌+◌, ◌-◌, ◌<◌, ◌≤◌, ◌↔◌, [], ◌∷◌, ◌++◌, length, Some};
ghost use Rattle.std.specs.Prelude.{All, IsTrue, IfOk, OnOk, OnErr, slice_get};
ghost use Rattle.std.specs.Prelude.{◌==◌};
ghost use Rattle.std.specs.List.{list_all, zip};
ghost use Rattle.waff_model.specs.Awaits.{AreLists, IsList, awaited_in};
ghost use Rattle.waff_model.specs.Messages.{sizes_of};
ghost use Rattle.waff_model.specs.Versions.{max_messages};
ghost use Rattle.waff_model.specs.declared.limits.TheConstants.{MAX_ALL_OPS, MAX_AWAITED, MAX_MESSAGES};

use crate::layout::Layout;
use crate::message::{Message, Version};
use crate::parts::Parts;
use crate::space::Space;
use std::alloc::{AllocError, Global};
use std::marker::Model;

/// Messages in the order of arrival, numbered from 1.
pub struct Trace {
    version: Version,
    sizes: Vec<u32>,
    messages: Parts,
}

impl Model for Trace {
    ghost use Rattle.waff_model.specs.Messages.{Arrivals, IsTrace};

    ghost Value = { Arrivals };

    ghost view = { λ t. record {
      version = t.version;
      sizes = t.sizes.items;
      messages = t.messages;
    } };

    ghost invariant = { λ t. IsTrace (record {
      version = t.version;
      sizes = t.sizes.items;
      messages = t.messages;
    }) };
}

// Written out: a derived drop is proved again in each crate that lets go of the value.
impl Drop for Trace {
    fn drop(self) {
        let Trace {
            version: _,
            sizes,
            messages,
        } = self;
        drop(sizes);
        drop(messages);
    }
}

impl Trace {
    ghost use Rattle.waff_model.specs.Messages.{sizes_of, ops_in, IsMessage, IsTrace};
    ghost use Rattle.waff_model.specs.Numbers.{IsAmongFirst};
    ghost use Rattle.waff_model.specs.declared.message.Version.TheVariants.{V1};

    /// A trace of the first version for cells of the layout, with no message.
    pub fn new(alloc: Global, layout: &Layout) -> Result<Self, AllocError>
        ensures { IfOk result (λ t.
            t ≡ record { version = V1; sizes = sizes_of layout.now.spaces; messages = [] }) }
    {
        Trace::with_version(alloc, layout, Version::V1)
    }

    /// A trace for cells of the layout, with no message.
    pub fn with_version(
        alloc: Global,
        layout: &Layout,
        version: Version,
    ) -> Result<Self, AllocError>
        ensures { IfOk result (λ t.
            t ≡ record { version = version; sizes = sizes_of layout.now.spaces; messages = [] }) }
    {
        Trace::of_messages(alloc, layout, version, Parts::of(alloc, Vec::new(alloc)))
    }

    /// The trace of these messages, for cells of the layout.
    pub fn of_messages(
        alloc: Global,
        layout: &Layout,
        version: Version,
        messages: Parts,
    ) -> Result<Self, AllocError>
        requires messages { All (IsMessage version (sizes_of layout.now.spaces)) messages }
        requires few { length messages ≤ max_messages version }
        requires few_ops { ops_in messages ≤ MAX_ALL_OPS }
        requires lists { AreLists 1 messages }
        requires few_awaited { awaited_in messages ≤ MAX_AWAITED }
        ensures { IfOk result (λ t. t ≡ record {
          version = version;
          sizes = sizes_of layout.now.spaces;
          messages = messages;
        }) }
    {
        match sizes(alloc, layout.spaces()) {
            Ok(sizes) => Ok(Trace {
                version,
                sizes,
                messages,
            }),
            Err(error) => {
                drop(messages);
                Err(error)
            }
        }
    }

    /// Whether the trace is one for cells of this layout: the sizes of the spaces are equal.
    pub fn fits(&self, layout: &Layout) -> bool
        ensures { IsTrue result ↔ (self.now.sizes ≡ sizes_of layout.now.spaces) }
    {
        have_sizes(layout.spaces(), &self.sizes)
    }

    /// The version of the format.
    pub fn version(&self) -> Version
        ensures { result ≡ self.now.version }
    {
        self.version
    }

    /// Appends a message.
    pub fn push(&mut self, message: Message) -> Result<(), AllocError>
        requires message { IsMessage self.old.version self.old.sizes message }
        requires room { length self.old.messages < max_messages self.old.version }
        requires few_ops { ops_in self.old.messages + length message.ops ≤ MAX_ALL_OPS }
        requires list { IsList (length self.old.messages + 1) message.after }
        requires few_awaited { awaited_in self.old.messages + length message.after ≤ MAX_AWAITED }
        ensures pushed { OnOk result (self.new
            ≡ record self.old { messages = self.old.messages ++ message ∷ [] }) }
        ensures unchanged { OnErr result (self.new ≡ self.old) }
    {
        self.messages.push(message)?;
        Ok(())
    }

    /// How many messages there are.
    pub fn len(&self) -> u32
        ensures count { result ≡ length self.now.messages }
        ensures few { result ≤ MAX_MESSAGES }
        ensures trace { IsTrace self.now }
    {
        self.messages.len() as u32
    }

    /// How many operations all messages have.
    pub fn op_count(&self) -> usize
        ensures { result ≡ ops_in self.now.messages }
    {
        let mut count = 0;
        let mut place = 0;
        while place < self.messages.len() {
            count += self.messages.get(place).ops.len();
            place += 1;
        }
        count
    }

    /// The message with this number, from 1.
    pub fn message(&self, number: u32) -> &Message
        requires number { IsAmongFirst (length self.now.messages) number }
        ensures message { slice_get self.now.messages (number - 1) ≡ Some result.now }
        ensures within { IsMessage self.now.version self.now.sizes result.now }
        ensures list { IsList number result.now.after }
    {
        self.messages.get(number as usize - 1)
    }
}

fn sizes(alloc: Global, spaces: &[Space]) -> Result<Vec<u32>, AllocError>
    ensures { IfOk result (λ v. v.items ≡ sizes_of spaces.now) }
{
    spaces.iter().map(|space| space.size()).collect(alloc)
}

/// Whether these are the sizes of the spaces.
fn have_sizes(spaces: &[Space], sizes: &[u32]) -> bool
    ensures { IsTrue result ↔ (sizes.now ≡ sizes_of spaces.now) }
{
    sizes.len() == spaces.len() && each_has_size(spaces, sizes)
}

fn each_has_size(spaces: &[Space], sizes: &[u32]) -> bool
    ensures { result ≡ list_all (λ pair. pair.0 == pair.1.size) (zip sizes.now spaces.now) }
{
    sizes
        .iter()
        .zip(spaces)
        .all(|(size, space)| *size == space.size())
}
