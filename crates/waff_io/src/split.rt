//! One input for two files.
ghost use Rattle.std.specs.Prelude.{◌≡◌, ◌<◌, length, option_map};
ghost use Rattle.waff_io.specs.Split as split;

/// What stands before and after the first line that is exactly `---`. The line itself and its end,
/// a line feed or a carriage return and a line feed, belong to neither; the last line may lack its
/// end. Without such a line, the whole and no bytes.
pub fn split_input(input: &[u8]) -> (&[u8], &[u8])
    ensures before { result.0.now ≡ split.before_mark input.now }
    ensures after { result.1.now ≡ split.after_mark input.now }
{
    for place in 0..input.len() {
        if !begins_line(input, place) {
            continue;
        }
        if let Some(rest) = behind_mark(&input[place..]) {
            return (&input[..place], rest);
        }
    }
    (input, &[])
}

/// Whether a line begins at this place.
fn begins_line(input: &[u8], place: usize) -> bool
    requires { place < length input.now }
    ensures { result ≡ split.begins_line input.now place }
{
    place == 0 || input[place - 1] == b'\n'
}

/// What stands behind the first line of a text, if that is exactly `---`.
#[tactic(auto, unfolding(crate::specs::Split::behind_mark))]
fn behind_mark(text: &[u8]) -> Option<&[u8]>
    ensures { option_map (λ rest. rest.now) result ≡ split.behind_mark text.now }
{
    match text.strip_prefix(b"---".as_slice())? {
        [] => Some(&[]),
        [b'\n', rest @ ..] => Some(rest),
        [b'\r', b'\n', rest @ ..] => Some(rest),
        _ => None,
    }
}

#[cfg(test)]
mod tests {
    use super::*;

    #[test]
    fn splits_at_the_first_mark(rt: HostRuntime) {
        let cases: [(&[u8], &[u8], &[u8]); 9] = [
            (b"a\n---\nb", b"a\n", b"b"),
            (b"a\n---\r\nb\n---\nc", b"a\n", b"b\n---\nc"),
            (b"---\nb", b"", b"b"),
            (b"a\n---", b"a\n", b""),
            (b"a\n---\r", b"a\n---\r", b""),
            (b"a\n ---\nb", b"a\n ---\nb", b""),
            (b"a\n----\nb", b"a\n----\nb", b""),
            (b"a---\nb", b"a---\nb", b""),
            (b"", b"", b""),
        ];
        for (input, before, after) in cases {
            let (first, second) = split_input(input);
            assert_eq!(rt; first, before);
            assert_eq!(rt; second, after);
        }
    }
}
