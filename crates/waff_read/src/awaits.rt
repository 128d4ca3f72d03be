//! The list of a message: the earlier messages that it awaits.

ghost use Rattle.std.specs.Prelude.{◌≡◌, ◌+◌, ◌≤◌, Some, option_map};
ghost use Rattle.waff_model.specs.declared.limits.TheConstants.{MAX_MESSAGES};
ghost use Rattle.waff_parse.specs.Stopping.{Gives};
ghost use Rattle.waff_read.specs.Awaits as awaits;

use crate::place::Place;
use crate::trace_fault::TraceFault;
use smallvec::SmallVec;
use std::alloc::Global;
use waff_model::limits::MAX_THINK;
use waff_model::{Await, Awaits};
use waff_parse::{Stop, cut, number_within};

// A gap in ticks, 0 where none is written.
fn read_gap(text: Option<&str>) -> Result<u32, TraceFault>
    ensures { result ≡ awaits.gap_of (option_map (λ s. s.now) text.entry) }
{
    match text {
        None => Ok(0),
        Some(text) => match number_within(text, 0, u64::from(MAX_THINK)) {
            Some(gap) => Ok(gap as u32),
            None => Err(TraceFault::After),
        },
    }
}

// The message that a piece spells, behind `before` and before `own`. A gap with a `+` is no number.
fn read_await(before: u32, own: u32, piece: &str) -> Result<Await, TraceFault>
    ensures { result ≡ awaits.await_between before own piece.now }
{
    let (message, gap) = cut(piece, '+');
    let low = u64::from(before) + 1;
    let Some(message) = number_within(message, low, u64::from(own).saturating_sub(1)) else {
        return Err(TraceFault::After);
    };
    match read_gap(gap) {
        Ok(gap) => Ok(Await {
            message: message as u32,
            gap,
        }),
        Err(fault) => Err(fault),
    }
}

// The list of message `own` that a text spells.
fn read_list(alloc: Global, own: u32, text: &str) -> Result<SmallVec<Await, 4>, Stop<TraceFault>>
    ensures { Gives (λ list. list.items) result (awaits.list_of own text.now) }
{
    let mut list = SmallVec::new(alloc);
    if text.is_empty() {
        return Ok(list);
    }
    let mut before = 0;
    for piece in text.split(' ') {
        match read_await(before, own, piece) {
            Ok(found) => {
                before = found.message;
                list.push(found)?;
            }
            Err(fault) => return Err(Stop::Fault(fault)),
        }
    }
    Ok(list)
}

// The list that a text spells, of the message at this place.
fn read_awaits(alloc: Global, place: Place, text: &str) -> Result<Awaits, Stop<TraceFault>>
    requires { place.at ≤ MAX_MESSAGES + 1 }
    ensures { Gives (λ list. list) result (awaits.after_of place (Some text.now)) }
{
    let list = read_list(alloc, place.number(), text)?;
    if place.most_awaited() < list.len() {
        return Err(Stop::Fault(TraceFault::TooManyAfter));
    }
    Ok(Awaits::of(alloc, list)?)
}

/// The list of the message at this place, none where there is no field for it.
#[inline(always)]
pub(crate) fn read_after(
    alloc: Global,
    place: Place,
    text: Option<&str>,
) -> Result<Awaits, Stop<TraceFault>>
    requires { place.at ≤ MAX_MESSAGES + 1 }
    ensures { Gives (λ list.
        list) result (awaits.after_of place (option_map (λ s. s.now) text.entry)) }
{
    match text {
        None => Ok(Awaits::none()),
        Some(text) => read_awaits(alloc, place, text),
    }
}
