//! The distinct labels of messages.

ghost use Rattle.std.specs.Prelude.{◌≡◌, ◌<◌, ◌≤◌, ℕ, All, IfOk, length, slice_index_or, []};
ghost use Rattle.waff_model.specs.DistinctNames.{distinct_names};
ghost use Rattle.waff_figures.specs.ByName.{AreNumbered, is_named, label_of, labels_of};
ghost use Rattle.waff_figures.specs.Tally.{is_in};

use crate::grouping::Label;
use std::alloc::{AllocError, Global};
use waff_model::{DistinctNames, Message, Trace};

/// The distinct labels in the order in which they first appear, and for each message the place of
/// its label, from 0.
pub(crate) struct Names<'a> {
    pub names: DistinctNames<'a>,
    pub places: Vec<u32>,
}

// Written out, so that it is proved once for all that let go of names.
impl<'a> Drop for Names<'a> {
    fn drop(self) {
        let Names { names, places } = self;
        drop(names);
        drop(places);
    }
}

/// The labels of the messages of a trace.
pub(crate) fn names_of(alloc: Global, trace: &Trace, label: Label) -> Result<Names<'_>, AllocError>
    ensures names { IfOk result (λ found.
        found.names ≡ distinct_names (labels_of label trace.now.messages)) }
    ensures places { IfOk result (λ found. length found.places.items ≡ length trace.now.messages) }
    ensures known { IfOk result (λ found.
        All (λ place. place < length found.names) found.places.items) }
    ensures each { IfOk result (λ found. (g m : ℕ)
        → g < length found.names → 1 ≤ m → m ≤ length trace.now.messages
        → is_in found.places.items g m ≡ is_named (labels_of label trace.now.messages)
        (slice_index_or found.names g []) m) }
{
    let mut names = DistinctNames::new(alloc);
    let places = places_of(alloc, trace, label, &mut names)?;
    Ok(Names { names, places })
}

/// For each message the place of its label among the distinct ones, which are put where none is yet.
fn places_of<'a>(
    alloc: Global,
    trace: &'a Trace,
    label: Label,
    names: &mut DistinctNames<'a>,
) -> Result<Vec<u32>, AllocError>
    requires none { names.old ≡ [] }
    ensures count { IfOk result (λ places. length places.items ≡ length trace.now.messages) }
    ensures numbered { IfOk result (λ places. AreNumbered (labels_of label trace.now.messages)
        names.new places.items) }
{
    let mut places = Vec::with_capacity(alloc, trace.len() as usize)?;
    for n in 1..trace.len() + 1 {
        let name = label_of(trace.message(n), label);
        let place = names.put(name)?;
        places.push_reserved(place as u32);
    }
    Ok(places)
}

/// The label of a message.
fn label_of<'a>(message: &'a Message, label: Label) -> &'a str
    ensures { result.now ≡ label_of label message.now }
{
    match label {
        Label::Name => message.name.as_str(),
        Label::Client => message.client.as_str(),
    }
}
