//! The colours of bars: the first sixteen distinct names of messages have one each.

ghost use Rattle.std.specs.Prelude.{◌≡◌, ◌<◌, ◌≤◌, [], IfOk, length, slice_index_or};
ghost use Rattle.waff_model.specs.DistinctNames.{message_names};
ghost use Rattle.waff_draw.specs.Colours.{colour_of, coloured};

use std::alloc::{AllocError, Global};
use std::marker::Model;
use waff_model::{DistinctNames, Trace};

/// How many names have a colour.
const COLOURS: usize = 16;

/// The names that have a colour, in the order in which they first appear.
#[derive(Drop)]
pub(crate) struct Colours<'a> {
    names: DistinctNames<'a>,
}

impl<'a> Model for Colours<'a> {
    ghost use Rattle.std.specs.Prelude.{◌≤◌, List, ℕ, length};

    ghost Value = { List (List ℕ) };

    ghost view = { λ c. c.names };

    ghost invariant = { λ c. length c.names ≤ 16 };
}

impl<'a> Colours<'a> {
    /// The names of a trace's messages that have a colour. Once each colour is given away, no name is
    /// looked at.
    pub(crate) fn new(alloc: Global, trace: &'a Trace) -> Result<Self, AllocError>
        ensures { IfOk result (λ colours. colours ≡ coloured (message_names trace.now.messages)) }
    {
        let mut names = DistinctNames::new(alloc);
        for n in 1..trace.len() + 1 {
            if names.len() < COLOURS {
                names.put(trace.message(n).name.as_str())?;
            }
        }
        Ok(Colours { names })
    }

    /// The number of the name's colour, from 1, or 0 where it has none.
    pub(crate) fn of(&self, name: &str) -> u32
        ensures { result ≡ colour_of self.now name.now }
    {
        match self.names.place(name) {
            Some(place) => place as u32 + 1,
            None => 0,
        }
    }

    /// How many names have a colour.
    pub(crate) fn len(&self) -> usize
        ensures count { result ≡ length self.now }
        ensures few { result ≤ 16 }
    {
        self.names.len()
    }

    /// The name that has this colour, from 0.
    pub(crate) fn name(&self, place: usize) -> &'a str
        requires { place < length self.now }
        ensures { result.now ≡ slice_index_or self.now place [] }
    {
        self.names.name(place)
    }
}
