//! Parts of a text, and numbers.

ghost use Rattle.std.specs.Prelude.{ℕ, ◌≡◌, ◌==◌, position, ◌<◌, ◌≤◌, ◌∷◌, ◌+◌, ◌*◌, if◌then◌else◌};
ghost use Rattle.std.specs.Prelude.{option_map, IfSome, IsTrue, Some, None, length, nat_le};
ghost use Rattle.std.specs.Char.{is_ascii_digit};
ghost use Rattle.std.specs.List.{list_all};
ghost use Rattle.std.specs.Str.Parse.{digits_value};
ghost use Rattle.waff_parse.specs.Fields as fields;
ghost use Rattle.waff_parse.specs.Texts as texts;

// The first place of a byte.
fn place_of(bytes: &[u8], wanted: u8) -> Option<usize>
    ensures { result ≡ position (λ b. b == wanted) bytes.now }
{
    bytes.iter().position(|byte| *byte == wanted)
}

/// The part of a text before the first `at`, an ASCII character, and the text after it, if it is
/// there.
pub fn cut(text: &str, at: char) -> (&str, Option<&str>)
    requires { at < 128 }
    ensures { texts.parts at text.now ≡ result.0.now
        ∷ texts.parts_after at (option_map (λ s. s.now) result.1) }
{
    match place_of(text.as_bytes(), at as u8) {
        Some(place) => (&text[..place], Some(&text[place + 1..])),
        None => (text, None),
    }
}

/// The parts of a text between `at`, an ASCII character, if there are two.
pub fn two_parts(text: &str, at: char) -> Option<(&str, &str)>
    requires { at < 128 }
    ensures { option_map fields.two_texts result ≡ fields.two_of (texts.parts at text.now) }
{
    let (first, others) = cut(text, at);
    let Some(others) = others else {
        return None;
    };
    match cut(others, at) {
        (second, None) => Some((first, second)),
        (_, Some(_)) => None,
    }
}

/// The parts of a text between `at`, an ASCII character, if there are three.
pub fn three_parts(text: &str, at: char) -> Option<(&str, &str, &str)>
    requires { at < 128 }
    ensures { option_map fields.three_texts result ≡ fields.three_of (texts.parts at text.now) }
{
    let (first, others) = cut(text, at);
    let Some(others) = others else {
        return None;
    };
    match two_parts(others, at) {
        Some((second, third)) => Some((first, second, third)),
        None => None,
    }
}

// Whether digits begin with a 0 that more of them follow.
fn has_leading_zero(digits: &[u8]) -> bool
    ensures { result ≡ texts.has_leading_zero digits.now }
{
    digits.len() > 1 && digits[0] == b'0'
}

// A number with one more digit, none where it is 2^64 or more.
fn with_digit(value: u64, digit: u8) -> Option<u64>
    requires { digit < 10 }
    ensures { result ≡ texts.small (value * 10 + digit) }
{
    value.checked_mul(10)?.checked_add(u64::from(digit))
}

// Whether each byte is a digit.
fn all_digits(bytes: &[u8]) -> bool
    ensures { result ≡ list_all is_ascii_digit bytes.now }
{
    bytes.iter().all(|byte| byte.is_ascii_digit())
}

// What bytes write whose first ones are digits of 2^64 or more.
fn too_large(bytes: &[u8]) -> Option<Option<u64>>
    ensures { result ≡ (if list_all is_ascii_digit bytes.now then Some None else None) }
{
    if all_digits(bytes) { Some(None) } else { None }
}

// The number that bytes write if each is a digit.
fn digits_number(bytes: &[u8]) -> Option<Option<u64>>
    ensures { result ≡ (if list_all is_ascii_digit bytes.now then Some
        (texts.small (digits_value 10 bytes.now)) else None) }
{
    let mut value = 0;
    for byte in bytes {
        if !byte.is_ascii_digit() {
            return None;
        }
        let Some(more) = with_digit(value, *byte - b'0') else {
            return too_large(bytes);
        };
        value = more;
    }
    Some(Some(value))
}

/// The number that a text writes: none where it is no number, and `Some(None)` where it is one of
/// 2^64 or more.
pub fn number(text: &str) -> Option<Option<u64>>
    ensures { result ≡ option_map texts.small (texts.number_of text.now) }
{
    let digits = text.as_bytes();
    if digits.is_empty() {
        return None;
    }
    if has_leading_zero(digits) {
        return None;
    }
    digits_number(digits)
}

/// The number from `low` to `high` that a text writes, if it writes one.
pub fn number_within(text: &str, low: u64, high: u64) -> Option<u64>
    ensures value { result ≡ texts.number_within low high text.now }
    ensures within { IfSome result (λ n. (low ≤ n) × (n ≤ high)) }
{
    let n = number(text)??;
    if n < low {
        return None;
    }
    if high < n {
        return None;
    }
    Some(n)
}

// Whether digits write a number that is at most that of as many others: the first that differ tell.
fn digits_at_most(first: &[u8], second: &[u8]) -> bool
    requires same { length first.now ≡ length second.now }
    requires first { IsTrue (list_all is_ascii_digit first.now) }
    requires second { IsTrue (list_all is_ascii_digit second.now) }
    ensures { result ≡ nat_le (digits_value 10 first.now) (digits_value 10 second.now) }
{
    let mut place = 0;
    while place < first.len() {
        if first[place] != second[place] {
            return first[place] < second[place];
        }
        place += 1;
    }
    true
}

// Whether a number is at most another: of two that have no leading zero the longer one is greater.
fn long_at_most(first: &[u8], second: &[u8]) -> bool
    requires first { IsTrue (texts.is_number first.now) }
    requires second { IsTrue (texts.is_number second.now) }
    ensures { result ≡ nat_le (digits_value 10 first.now) (digits_value 10 second.now) }
{
    if first.len() != second.len() {
        return first.len() < second.len();
    }
    digits_at_most(first, second)
}

/// Whether both texts write numbers, of any length, the first at most the second.
pub fn are_rising(first: &str, last: &str) -> bool
    ensures { result ≡ texts.are_rising first.now last.now }
{
    let Some(least) = number(first) else {
        return false;
    };
    let Some(greatest) = number(last) else {
        return false;
    };
    match (least, greatest) {
        (Some(least), Some(greatest)) => least <= greatest,
        (Some(_), None) => true,
        (None, Some(_)) => false,
        (None, None) => long_at_most(first.as_bytes(), last.as_bytes()),
    }
}
