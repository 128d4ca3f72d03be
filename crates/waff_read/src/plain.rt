//! Texts of records without quotes, which are read without the CSV reader.

ghost use Rattle.std.specs.Prelude.{◌≡◌, ◌<◌, IfSome, Ok, Some, option_map};
ghost use Rattle.waff_model.specs.Awaits.{awaited_in};
ghost use Rattle.waff_model.specs.Messages.{ops_in};
ghost use Rattle.waff_read.specs.Plain as plain;
ghost use Rattle.waff_read.specs.Traces as traces;

use crate::columns::Columns;
use crate::lines::begins_as_mark;
use crate::message::message_of_columns;
use crate::place::Place;
use crate::space_table::SpaceTable;
use crate::trace::Messages;
use memchr::memchr2;
use std::alloc::Global;
use std::str::from_utf8;
use waff_model::{Message, Parts, Version};

// The field that this byte ends, and what stands behind it; none where another sign comes first.
fn next_field(text: &str, end: u8) -> Option<(&str, &str)>
    requires end { end < 128 }
    requires plain { plain.IsPlain text.now }
    ensures { IfSome result (λ parts. plain.IsField end text.now parts.0.now parts.1.now) }
{
    let bytes = text.as_bytes();
    let place = memchr2(b',', b'\n', bytes)?;
    if bytes[place] != end {
        return None;
    }
    Some((&text[..place], &text[place + 1..]))
}

// The field of a column that is there, which a comma ends, and what stands behind it.
#[inline(always)]
fn next_if(has: bool, text: &str) -> Option<(Option<&str>, &str)>
    requires { plain.IsPlain text.now }
    ensures field { IfSome result (λ parts. plain.IsFieldIf has text.now
        (option_map (λ s. s.now) parts.0) parts.1.now) }
    ensures plain { IfSome result (λ parts. plain.IsPlain parts.1.now) }
{
    if !has {
        return Some((None, text));
    }
    let (field, rest) = next_field(text, b',')?;
    Some((Some(field), rest))
}

// The fields of the first record of a text, and what stands behind it.
fn next_columns(version: Version, text: &str) -> Option<(Columns<'_>, &str)>
    requires { plain.IsPlain text.now }
    ensures { IfSome result (λ read. plain.IsRow version text.now read.0 read.1.now) }
{
    let (name, rest) = next_field(text, b',')?;
    let (cost, rest) = next_field(rest, b',')?;
    let (release, rest) = next_if(version.has_releases(), rest)?;
    let (client, rest) = next_if(version.has_clients(), rest)?;
    let (think, rest) = next_if(version.has_clients(), rest)?;
    let (after, rest) = next_if(version.has_after(), rest)?;
    let (ops, rest) = next_field(rest, b'\n')?;
    let columns = Columns {
        name,
        cost,
        release,
        client,
        think,
        after,
        ops,
    };
    Some((columns, rest))
}

// The message of the first record of a text, which is at this place, and what stands behind it.
fn next_plain<'a>(
    alloc: Global,
    spaces: &SpaceTable<'_>,
    version: Version,
    place: Place,
    text: &'a str,
) -> Option<(Message, &'a str)>
    requires { plain.IsPlain text.now }
    ensures plain { IfSome result (λ read. plain.IsPlain read.1.now) }
    ensures message { IfSome result (λ read. traces.GivesMessage version spaces.now place
        (Ok (Some read.0)) (plain.records_in text.now) (plain.records_in read.1.now)) }
{
    let (columns, rest) = next_columns(version, text)?;
    let message = message_of_columns(alloc, spaces, version, place, &columns).ok()?;
    Some((message, rest))
}

/// The messages of a text of records without quotes, the first of which has this number; none where
/// one has quotes, is refused or does not end with a line feed.
pub(crate) fn read_plain(
    alloc: Global,
    spaces: &SpaceTable<'_>,
    version: Version,
    at: u64,
    bytes: &[u8],
) -> Option<Messages>
    ensures messages { IfSome result (λ read.
        traces.Spells version spaces.now at bytes.now read.list) }
    ensures ops { IfSome result (λ read. read.ops ≡ ops_in read.list) }
    ensures awaited { IfSome result (λ read. read.awaited ≡ awaited_in read.list) }
{
    if begins_as_mark(bytes) || memchr2(b'"', b'\r', bytes).is_some() {
        return None;
    }
    let Ok(mut rest) = from_utf8(bytes) else {
        return None;
    };
    let mut list = Vec::new(alloc);
    let mut place = Place::at(at);
    while !rest.is_empty() {
        let (message, others) = next_plain(alloc, spaces, version, place, rest)?;
        place = place.next(&message);
        list.push(message).ok()?;
        rest = others;
    }
    Some(Messages {
        list: Parts::of(alloc, list),
        ops: place.ops,
        awaited: place.awaited,
    })
}
