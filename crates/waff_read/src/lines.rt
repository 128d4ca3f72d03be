//! A text of CSV cut in two between its records.

ghost use Rattle.std.specs.Prelude.{◌≡◌, ◌==◌, ◌++◌, ◌<◌, IfSome, length, slice_index};
ghost use Rattle.waff_parse.specs.Rows.{records_of};

/// What stands up to the first line feed at or behind a place, with it, and what stands behind it.
/// None where there is no such line feed, where a quote (byte 34, `"`) stands before it, or where
/// what is behind begins with the first byte of a byte order mark (0xEF).
pub(crate) fn cut_lines(text: &[u8], place: usize) -> Option<(&[u8], &[u8])>
    ensures records { IfSome result (λ parts. records_of text.now ≡ records_of parts.0.now ++ records_of parts.1.now) }
    ensures bytes { IfSome result (λ parts. text.now ≡ parts.0.now ++ parts.1.now) }
{
    let feed = line_feed(text, place)?;
    let (first, second) = text.split_at(feed + 1);
    if first.contains(&b'"') || begins_as_mark(second) {
        return None;
    }
    Some((first, second))
}

// The first line feed at or behind a place.
fn line_feed(text: &[u8], place: usize) -> Option<usize>
    ensures within { IfSome result (λ feed. feed < length text.now) }
    ensures here { IfSome result (λ feed. slice_index text.now feed ≡ 10) }
{
    if place > text.len() {
        return None;
    }
    let steps = text[place..].iter().position(|byte| *byte == b'\n')?;
    Some(place + steps)
}

/// Whether a text begins with the first byte of a byte order mark.
pub(crate) fn begins_as_mark(text: &[u8]) -> bool
    ensures { result ≡ (slice_index text.now 0 == 0xEF) }
{
    !text.is_empty() && text[0] == 0xEF
}
