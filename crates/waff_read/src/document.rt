//! The values of a TOML document, by their keys.

ghost use Rattle.std.specs.Prelude.{◌≡◌, map, option_map, option_copied};
ghost use Rattle.toml.specs.View.{view};
ghost use Rattle.waff_read.specs.Documents.{text_at, integer_at, items_at, rows_at};

use toml::Value;

/// The text at a key.
pub(crate) fn text<'a>(value: &'a Value, key: &str) -> Option<&'a str>
    ensures { option_copied result ≡ text_at key.now (view value.now) }
{
    match value.get(key) {
        Some(found) => found.as_str(),
        None => None,
    }
}

/// The integer at a key.
pub(crate) fn integer(value: &Value, key: &str) -> Option<i64>
    ensures { result ≡ integer_at key.now (view value.now) }
{
    match value.get(key) {
        Some(found) => found.as_integer(),
        None => None,
    }
}

/// The items of the array at a key.
pub(crate) fn items<'a>(value: &'a Value, key: &str) -> Option<&'a [Value]>
    ensures { option_map (λ s. map view s.now) result ≡ items_at key.now (view value.now) }
{
    match value.get(key) {
        Some(found) => match found.as_array() {
            Some(array) => Some(array.as_slice()),
            None => None,
        },
        None => None,
    }
}

/// The items of the array at a key, none where there is no array.
pub(crate) fn rows<'a>(value: &'a Value, key: &str) -> &'a [Value]
    ensures { map view result.now ≡ rows_at key.now (view value.now) }
{
    match items(value, key) {
        Some(rows) => rows,
        None => &[],
    }
}
